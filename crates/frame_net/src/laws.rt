//! Laws of the definitions: each function's contract is a law, and its body is empty.

ghost use Rattle.std.specs.Prelude.{◌<◌, ℕ};
ghost use Rattle.cnf_form.specs.Cnf.{Assignment};
ghost use Rattle.model_core.specs.Meaning.{Cycle, Run, Window};
ghost use Rattle.model_core.specs.Meaning as model;
ghost use Rattle.model_core.specs.Served.{IsModel};
ghost use Rattle.model_core.specs.Shape.{ModelOf};
ghost use Rattle.bit_net.specs.Net as net;
ghost use Rattle.bit_net.specs.Net.{Frame, IsNet, NetOf};
ghost use Rattle.frame_net.specs.NetOf.{AreAlike, IsAlike, IsNetOf};

/// Each cycle of a model is one of its net, and back.
pub fn frames_are_frames()
    ensures net { (m : ModelOf) (n : NetOf) → IsModel m → IsNet n → IsNetOf m n → (c : Cycle) → model.Frame m c → (x : Assignment) × Frame n x × IsAlike m n c x }
    ensures model { (m : ModelOf) (n : NetOf) → IsModel m → IsNet n → IsNetOf m n → (x : Assignment) → Frame n x → (c : Cycle) × model.Frame m c × IsAlike m n c x }
{}

/// Each window and each run of a model is one of its net, and back.
pub fn runs_are_runs()
    ensures window { (m : ModelOf) (n : NetOf) → IsModel m → IsNet n → IsNetOf m n → (count : ℕ) (cs : ℕ → Cycle) → Window m count cs → (xs : ℕ → Assignment) × net.Window n count xs × AreAlike m n count cs xs }
    ensures run { (m : ModelOf) (n : NetOf) → IsModel m → IsNet n → IsNetOf m n → (count : ℕ) (cs : ℕ → Cycle) → Run m count cs → (xs : ℕ → Assignment) × net.Run n count xs × AreAlike m n count cs xs }
    ensures window_back { (m : ModelOf) (n : NetOf) → IsModel m → IsNet n → IsNetOf m n → (count : ℕ) (xs : ℕ → Assignment) → 0 < count → net.Window n count xs → (cs : ℕ → Cycle) × Window m count cs × AreAlike m n count cs xs }
    ensures run_back { (m : ModelOf) (n : NetOf) → IsModel m → IsNet n → IsNetOf m n → (count : ℕ) (xs : ℕ → Assignment) → 0 < count → net.Run n count xs → (cs : ℕ → Cycle) × Run m count cs × AreAlike m n count cs xs }
{}

//! k-induction, proved once for every system of states and steps.
#![tactic(auto)]

ghost use Rattle.std.specs.Prelude.{ℕ, ◌+◌};
ghost use Rattle.induct_rule.specs.Induction.{IsRun, IsWindow, BreaksFirst, NoBreakWithin, NoBreakingWindow, NoBreakingWindowPastStarts, NeverBreaks};
ghost use Rattle.induct_rule.specs.Counting.{IsZero, IsNext, IsAnything, IsOther};

/// A kind of system that goes from state to state. Each value of the type is one such system, as a design is.
pub trait Steps {
    /// What a state is. It may hold functions, as the values of a design's wires do.
    ghost State: { Type 0 };

    /// The system may begin in this state.
    ghost starts: { Self → State → Type 0 };

    /// The second state may come right after the first.
    ghost follows: { Self → State → State → Type 0 };

    /// What is taken for granted of each state of a run.
    ghost assumed: { Self → State → Type 0 };

    /// What each state of a run is to meet.
    ghost ok: { Self → State → Type 0 };
}

/// k-induction. Where no run of at most `n` states breaks in its last, and no window of `n + 1` states is ok in the
/// first `n` and breaks in the last, no run of any length breaks.
pub fn k_induction<S: Steps>()
    ensures { (system : S) (n : ℕ)
        → NoBreakWithin (S.starts system) (S.follows system) (S.assumed system) (S.ok system) n
        → NoBreakingWindow (S.follows system) (S.assumed system) (S.ok system) n
        → NeverBreaks (S.starts system) (S.follows system) (S.assumed system) (S.ok system) }
{}

/// The window that a run shows where it breaks first in cycle `first + n`: it begins at cycle `first`. For a break in
/// cycle `n` that is cycle 0, so the window begins in a start.
pub fn window_of_break<S: Steps>()
    ensures from_any { (system : S) (states : ℕ → S.State) (first n : ℕ)
        → IsRun (S.starts system) (S.follows system) (S.assumed system) states (first + n)
        → BreaksFirst (S.ok system) states (first + n)
        → IsWindow (S.follows system) (S.assumed system) (λ cycle. states (first + cycle)) n
        × BreaksFirst (S.ok system) (λ cycle. states (first + cycle)) n }
    ensures from_start { (system : S) (states : ℕ → S.State) (n : ℕ)
        → IsRun (S.starts system) (S.follows system) (S.assumed system) states n
        → BreaksFirst (S.ok system) states n
        → S.starts system (states 0)
        × IsWindow (S.follows system) (S.assumed system) states n
        × BreaksFirst (S.ok system) states n }
{}

/// Windows that begin in a start can't be left out, whatever `n` is: counting up from 0 breaks 'is not `n`', and no
/// run of at most `n` states shows it, nor does a window of `n + 1` that begins in another state than 0.
pub fn windows_may_start()
    ensures base { (n : ℕ) → NoBreakWithin IsZero IsNext IsAnything (IsOther n) n }
    ensures windows { (n : ℕ) → NoBreakingWindowPastStarts IsZero IsNext IsAnything (IsOther n) n }
    ensures breaks { (n : ℕ) → ¬ NeverBreaks IsZero IsNext IsAnything (IsOther n) }
{}

pub mod counter;

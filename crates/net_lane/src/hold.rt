// The hold of a job on an engine elsewhere.

ghost use Rattle.std.specs.Prelude.{◌≡◌, Some, None, Ok, false, true, IfSome, OnErr, unwrap_or};
ghost use Rattle.sby_edge.specs.Cause.{HasPlainCause, Rose};
ghost use Rattle.sby_edge.specs.Child.{Kills};
ghost use Rattle.sby_edge.specs.declared.script.Exit.TheVariants.{Code};
ghost use Rattle.net_lane.specs.Hold.{exit_of};

use net_link::Cut;
use sby_edge::{Exit, Failed, Hold};
use std::marker::Model;

/// Holds a job on an engine elsewhere: a kill cuts its connection. It never tells that the engine ended, and a reap answers exit code 0,
/// since no exit comes over a connection. Contracts see what a hold tells, and the cut's count of faults.
pub struct NetHold<C: Cut + Drop> {
    cut: C,
    // How many bytes the pipe had given when the cut was first called, where the killer knew it, else 0.
    killed: Option<usize>,
    is_reaped: bool,
    // Whether the exit is told from the start.
    tells: bool,
    faults: u64,
}

impl<C: Cut + Drop> Model for NetHold<C> {
    ghost use Rattle.net_lane.specs.Hold.{NetHoldOf, exit_of};

    ghost Value = { NetHoldOf };

    ghost view = { λ h. record { killed = h.killed; is_reaped = h.is_reaped; exit = exit_of h.tells h.is_reaped; faults = h.faults; cut_faults = C.faults h.cut } };
}

impl<C: Cut + Drop> NetHold<C> {
    // A hold that was neither killed nor reaped.
    pub(crate) fn new(cut: C, tells: bool) -> Self
        ensures { result ≡ record { killed = None; is_reaped = false; exit = exit_of tells false; faults = 0; cut_faults = C.faults cut } }
    {
        NetHold {
            cut,
            killed: None,
            is_reaped: false,
            tells,
            faults: 0,
        }
    }

    /// Cuts the connection, whose pipe has given this many bytes. A first kill stands.
    pub fn kill_at(&mut self, given: usize) -> Result<(), Failed>
        ensures killed { self.new.killed ≡ Some (unwrap_or self.old.killed given) }
        ensures reaped { self.new.is_reaped ≡ self.old.is_reaped }
        ensures exit { self.new.exit ≡ self.old.exit }
        ensures cause { HasPlainCause self.old.faults self.new.faults result }
        ensures cut { OnErr result (Rose self.old.cut_faults self.new.cut_faults) }
    {
        self.killed = Some(self.killed.unwrap_or(given));
        match self.cut.cut() {
            Ok(()) => Ok(()),
            Err(Failed) => {
                self.faults = self.faults.saturating_add(1);
                Err(Failed)
            }
        }
    }

    /// How many bytes the pipe had given when the connection was first cut, if it was.
    pub fn killed(&self) -> Option<usize>
        ensures { result ≡ self.now.killed }
    {
        self.killed
    }

    /// How often a cut failed; it stays at the greatest u64.
    pub fn faults(&self) -> u64
        ensures { result ≡ self.now.faults }
    {
        self.faults
    }

    /// The end of a hold that was reaped.
    pub fn end(self)
        requires { self.is_reaped ≡ true }
    {
        let NetHold {
            cut: _,
            killed: _,
            is_reaped: _,
            tells: _,
            faults: _,
        } = self;
    }
}

impl<C: Cut + Drop> Hold for NetHold<C> {
    ghost killed = { λ h. h.killed };

    ghost is_reaped = { λ h. h.is_reaped };

    ghost exit = { λ h. h.exit };

    ghost faults = { λ h. h.faults };

    fn poll(&mut self) -> Result<Option<Exit>, Failed>
        ensures none { result ≡ Ok None }
        ensures same { self.new ≡ self.old }
    {
        Ok(None)
    }

    fn kill(&mut self) -> Result<(), Failed>
        ensures killed { Kills self.old.killed self.new.killed }
        ensures reaped { self.new.is_reaped ≡ self.old.is_reaped }
        ensures exit { self.new.exit ≡ self.old.exit }
        ensures cause { HasPlainCause self.old.faults self.new.faults result }
        ensures cut { OnErr result (Rose self.old.cut_faults self.new.cut_faults) }
    {
        self.kill_at(0)
    }

    fn reap(&mut self) -> Result<Exit, Failed>
        ensures code { result ≡ Ok (Code 0) }
        ensures reaped { self.new ≡ record self.old { is_reaped = true; exit = Some (Code 0) } }
        ensures known { IfSome self.old.exit (λ exit. exit ≡ Code 0) }
    {
        self.is_reaped = true;
        Ok(Exit::Code(0))
    }
}

// A child of the system, or a connection to an engine elsewhere.

ghost use Rattle.std.specs.Prelude.{◌≡◌, None};

use sby_edge::{Exit, Failed, Hold, Pipe};

/// The output or the hold of what a lane started: of a child, or of an engine that is reached over a connection. It tells no content.
pub enum Either<C, N> {
    Child(C),
    Net(N),
}

impl<C: Pipe, N: Pipe> Pipe for Either<C, N> {
    ghost use Rattle.child_edge.specs.Either.{of_either};

    ghost told = { λ _. None };

    ghost faults = { λ e. of_either C.faults N.faults e };

    fn read(&mut self, buf: &mut [u8]) -> Result<usize, Failed> {
        match self {
            Either::Child(pipe) => pipe.read(buf),
            Either::Net(pipe) => pipe.read(buf),
        }
    }
}

impl<C: Hold, N: Hold> Hold for Either<C, N> {
    ghost use Rattle.child_edge.specs.Either.{of_either};

    ghost killed = { λ e. of_either C.killed N.killed e };

    ghost is_reaped = { λ e. of_either C.is_reaped N.is_reaped e };

    ghost exit = { λ e. of_either C.exit N.exit e };

    ghost faults = { λ e. of_either C.faults N.faults e };

    fn poll(&mut self) -> Result<Option<Exit>, Failed> {
        match self {
            Either::Child(hold) => hold.poll(),
            Either::Net(hold) => hold.poll(),
        }
    }

    fn kill(&mut self) -> Result<(), Failed> {
        match self {
            Either::Child(hold) => hold.kill(),
            Either::Net(hold) => hold.kill(),
        }
    }

    fn reap(&mut self) -> Result<Exit, Failed> {
        match self {
            Either::Child(hold) => hold.reap(),
            Either::Net(hold) => hold.reap(),
        }
    }
}

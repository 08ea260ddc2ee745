// Connections that are asked for, cut, and taken in.

ghost use Rattle.std.specs.Prelude.{◌≡◌, ◌↔◌, ℕ, ◌<◌, ◌^◌, ◌++◌, List, [], ◌∷◌, Option, IfOk, IfSome, IsSome, IsTrue, OnErr, OnOk, length, option_map};
ghost use Rattle.sby_edge.specs.Cause.{HasCause, HasPlainCause, counted};
ghost use Rattle.net_link.specs.Doors.{Comes, Returned, now_at, returned};

use crate::link::Link;
use sby_edge::{Fail, Failed, Memory};
use std::alloc::Global;

/// What ends a connection while its reader waits.
pub trait Cut {
    /// How often a call failed; it stays at the greatest u64.
    ghost faults: { Self → ℕ };

    /// Ends the connection: a read that waits on it comes back. Takes no memory.
    fn cut(&mut self) -> Result<(), Failed>
        ensures cause { HasPlainCause (faults self.old) (faults self.new) result };
}

/// What makes connections.
pub trait Dial {
    type Link: Link + Send + Drop;

    type Cut: Cut + Send + Drop;

    /// The bytes that the other end of each connection sends, where they are told.
    ghost told: { Self → Option (List ℕ) };

    /// How often a call failed; it stays at the greatest u64.
    ghost faults: { Self → ℕ };

    /// Whether these bytes are told.
    fn tells(&self) -> bool
        ensures { IsTrue result ↔ IsSome (told self.now) };

    /// A connection to this address, a host and a port as `HOST:PORT`, and what cuts it. Nothing was read or written yet.
    fn dial(&mut self, alloc: Global, address: &str) -> Result<(Self::Link, Self::Cut), Fail>
        ensures told { told self.new ≡ told self.old }
        ensures left { IfOk result (λ pair. Self.Link.left pair.0 ≡ told self.old) }
        ensures written { IfOk result (λ pair. IfSome (Self.Link.written pair.0) (λ bytes. bytes ≡ [])) }
        ensures fits { IfOk result (λ pair. IfSome (Self.Link.left pair.0) (λ bytes. length bytes < 2 ^ 64)) }
        ensures fresh { IfOk result (λ pair. (Self.Link.faults pair.0 ≡ 0) × (Self.Cut.faults pair.1 ≡ 0)) }
        ensures cause { HasCause (faults self.old) (faults self.new) result };
}

/// What takes connections in, and gets each back.
pub trait Door {
    type Link: Link + Drop;

    /// The address at which it listens, or None before it does, where that is told.
    ghost listens_at: { Self → Option (Option (List ℕ)) };

    /// The requests still to come, each the bytes of its connection, where they are told.
    ghost coming: { Self → Option (List (List ℕ)) };

    /// Of each connection that came back what was written to it and its count of faults, the first one first, where they are told.
    ghost came_back: { Self → Option (List Returned) };

    /// How many connections came back; it stays at the greatest u64.
    ghost backs: { Self → ℕ };

    /// How often a call failed; it stays at the greatest u64.
    ghost faults: { Self → ℕ };

    /// Opens the door at this address, a host and a port as `HOST:PORT`. Where that fails, it listens where it did.
    fn listen(&mut self, alloc: Global, address: &str) -> Result<(), Fail>
        ensures listens { OnOk result (listens_at self.new ≡ now_at address.now (listens_at self.old)) }
        ensures refused { OnErr result (listens_at self.new ≡ listens_at self.old) }
        ensures coming { coming self.new ≡ coming self.old }
        ensures came_back { came_back self.new ≡ came_back self.old }
        ensures backs { backs self.new ≡ backs self.old }
        ensures cause { HasCause (faults self.old) (faults self.new) result };

    /// Waits for the next connection. Nothing was read or written yet.
    fn next(&mut self, alloc: Global) -> Result<Self::Link, Fail>
        ensures comes { IfOk result (λ link. Comes (coming self.old) (coming self.new) (Self.Link.left link)) }
        ensures written { IfOk result (λ link. IfSome (Self.Link.written link) (λ bytes. bytes ≡ [])) }
        ensures fresh { IfOk result (λ link. Self.Link.faults link ≡ 0) }
        ensures refused { OnErr result (coming self.new ≡ coming self.old) }
        ensures listens { listens_at self.new ≡ listens_at self.old }
        ensures came_back { came_back self.new ≡ came_back self.old }
        ensures backs { backs self.new ≡ backs self.old }
        ensures cause { HasCause (faults self.old) (faults self.new) result };

    /// Takes a connection back, and ends it. Out of memory it ends too, but nothing tells of it.
    fn back(&mut self, link: Self::Link) -> Result<(), Memory>
        ensures came_back { OnOk result (came_back self.new ≡ option_map (λ all. all ++ returned (Self.Link.written link) (Self.Link.faults link) ∷ []) (came_back self.old)) }
        ensures backs { OnOk result (backs self.new ≡ counted (backs self.old)) }
        ensures refused { OnErr result ((came_back self.new ≡ came_back self.old) × (backs self.new ≡ backs self.old)) }
        ensures listens { listens_at self.new ≡ listens_at self.old }
        ensures coming { coming self.new ≡ coming self.old }
        ensures faults { faults self.new ≡ faults self.old };
}

// Steps, counted or not.

ghost use Rattle.std.specs.Prelude.{◌≡◌, ℕ, ◌+◌, ◌<◌, ◌≤◌};

use std::marker::Model;
use std::sync::ledger::{Book, Ledger, Share};

/// How many steps were taken. It takes no bytes, and only `tick` changes it: `Book` and `Share` of one ledger, of which at least
/// one part is held, make it.
#[derive(Drop)]
pub struct Steps<L: Ledger> {
    book: Book<L>,
    share: Share<L>,
}

impl<L: Ledger> Model for Steps<L> {
    ghost Value = { ℕ };

    ghost view = { λ s. s.book.total };

    ghost invariant = { λ s. 0 < s.share.parts };
}

impl<L: Ledger> Steps<L> {
    /// As many steps as the book tells.
    pub fn new(book: Book<L>, share: Share<L>) -> Self
        requires { 0 < share.parts }
        ensures { result ≡ book.total }
    {
        Steps { book, share }
    }

    /// One more step.
    pub fn tick(&mut self)
        ensures { self.new ≡ self.old + 1 }
    {
        self.book.add(&mut self.share, 1);
    }
}

// What counts steps, or doesn't.
pub(crate) trait Count {
    ghost count: { Self → ℕ };

    fn step(&mut self)
        ensures { count self.new ≤ count self.old + 1 };
}

impl<L: Ledger> Count for Steps<L> {
    ghost count = { λ s. s };

    fn step(&mut self) {
        self.tick();
    }
}

// Counts none.
#[derive(Drop)]
pub(crate) struct Uncounted;

impl Count for Uncounted {
    ghost count = { λ _. 0 };

    fn step(&mut self) {}
}

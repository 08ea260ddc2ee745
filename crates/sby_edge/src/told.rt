// Bytes that are spoken of, and of which none is kept.

ghost use Rattle.std.specs.Prelude.{◌≡◌, ℕ, List};
ghost use base.Fml.{ftrue};
ghost use base.Stored.{coded_list, coded_ℕ};

use std::marker::{Model, PhantomData, Send};

/// What tells bytes to clauses.
pub trait Told {
    ghost bytes: { Self → List ℕ };
}

/// No bytes.
#[derive(Drop)]
pub struct Nothing;

impl Told for Nothing {
    ghost use Rattle.std.specs.Prelude.{[]};

    ghost bytes = { λ _. [] };
}

/// Bytes that only clauses read. It has none itself, so only a fact beside it ties them.
pub struct ToldBytes {
    marker: PhantomData<u8>,
    pub ghost bytes: { List ℕ } by { coded_list coded_ℕ },
}

impl Model for ToldBytes {
    ghost also_owns = { λ _. ftrue };
}

impl Told for ToldBytes {
    ghost bytes = { λ t. t.bytes };
}

impl ToldBytes {
    /// The bytes that this tells.
    pub fn of<T: Told>(x: &T) -> ToldBytes
        ensures { result.bytes ≡ T.bytes x.now }
    {
        let _ = x;
        ToldBytes {
            marker: PhantomData,
        }
    }
}

unsafe impl Send for ToldBytes {}

impl Drop for ToldBytes {
    fn drop(self) {
        let Self { marker: _ } = self;
    }
}

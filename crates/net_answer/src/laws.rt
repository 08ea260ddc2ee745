// Laws of answers.

ghost use Rattle.std.specs.Prelude.{◌≡◌, ℕ, List, []};
ghost use Rattle.net_link.specs.Frame.{Pieces, Sizing, payload};

/// The bytes that a reader gets of an answer are the stream that was written.
pub fn answers_are_read()
    ensures { (stream bytes : List ℕ) → Pieces stream bytes → payload (Sizing []) bytes ≡ stream }
{}

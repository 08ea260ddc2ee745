// A text fed while steps are counted.

ghost use Rattle.std.specs.Prelude.{◌≡◌, false};

use cert_stream::{DrupParser, Fed, Receiver, Steps};
use cnf_form::Lit;
use std::alloc::{AllocError, Global};
use std::marker::Brand;
use std::sync::ledger::{Blank, Ledger};
use std::test::Fail;

// How many clauses came.
#[derive(Drop)]
struct Clauses(u64);

impl Receiver for Clauses {
    ghost vars = { λ _. 9 };

    ghost gets = { λ old saying new. Unit {0} };

    ghost stops = { λ _. false };

    fn clause(&mut self, _lits: &[Lit], _place: u64) -> Result<bool, AllocError> {
        self.0 = self.0.saturating_add(1);
        Ok(false)
    }

    fn delete(&mut self, _lits: &[Lit]) -> Result<bool, AllocError> {
        Ok(false)
    }

    fn value(&mut self, _l: Lit) -> Result<bool, AllocError> {
        Ok(false)
    }

    fn values_end(&mut self) -> Result<bool, AllocError> {
        Ok(false)
    }

    fn unknown(&mut self) -> Result<bool, AllocError> {
        Ok(false)
    }
}

// How many clauses a text gave that is fed with its steps counted.
fn counted<L: Ledger>(alloc: Global, blank: Blank, text: &[u8]) -> Result<u64, AllocError>
    requires name { blank.name ≡ L.name }
    requires parts { blank.parts ≡ L.parts }
    requires one { blank.parts ≡ 1 }
{
    let (book, share) = blank.open::<L>();
    let mut steps = Steps::new(book, share);
    let mut parser = DrupParser::new(alloc, 9);
    let mut clauses = Clauses(0);
    match parser.feed_counted(text, &mut clauses, &mut steps)? {
        Ok(Fed::More) => Ok(clauses.0),
        _ => Ok(u64::MAX),
    }
}

fn clauses_of(alloc: Global, text: &[u8]) -> Result<u64, AllocError> {
    counted::<Brand>(alloc, Blank::new(1), text)
}

#[test]
fn counting_changes_nothing(rt: HostRuntime) -> Result<(), Fail> {
    let text = b"c any\n1 -2 0\nd 1 0\n0\n";
    let clauses = clauses_of(rt.alloc(), text)?;
    assert_eq!(rt; clauses, 2);
    Ok(())
}

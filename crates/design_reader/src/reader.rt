// What is read so far, word by word.

ghost use Rattle.std.specs.Prelude.{◌≡◌, false, [], IfOk};
ghost use Rattle.design_reader.specs.Grammar.{new_draft, step};
ghost use Rattle.design_reader.specs.Drafts.{Gives};
ghost use Rattle.design_reader.specs.Faults.{at_end};
ghost use Rattle.design_reader.specs.Outcome.{ending};
ghost use Rattle.design_reader.specs.declared.spot.Spot.TheVariants.{File};

use crate::draft::{Draft, new_draft};
use crate::fault::{ReadFault, ReadFaultKind};
use crate::spot::Spot;
use crate::step::step;
use crate::stop::Stop;
use design_core::design::Design;
use std::alloc::Global;
use std::marker::Model;

/// The module so far, and what comes next.
pub struct Reader<'a> {
    draft: Draft<'a>,
    spot: Spot<'a>,
}

impl<'a> Model for Reader<'a> {
    ghost use Rattle.design_reader.specs.Parts.{DraftOf};
    ghost use Rattle.design_reader.specs.Drafts.{draft_of, IsIndexed, Fits};
    ghost use Rattle.design_reader.specs.declared.spot.Spot.{Spot as Spot_lem};

    ghost Value = { DraftOf × Spot_lem };

    ghost view = { λ a. (draft_of a.draft, a.spot) };

    ghost invariant = { λ a. IsIndexed a.draft × Fits (draft_of a.draft) a.spot };
}

impl<'a> Drop for Reader<'a> {
    fn drop(self) {
        let Reader { draft, spot } = self;
        draft.discard();
        spot.discard();
    }
}

/// Why a text that ends at this spot is refused.
fn at_end(spot: &Spot) -> Option<ReadFaultKind>
    ensures { result ≡ at_end spot.now }
{
    match spot {
        Spot::File(true) => None,
        Spot::File(false)
        | Spot::AutoIdx(false)
        | Spot::FileAttribute(false)
        | Spot::FileValue(false) => Some(ReadFaultKind::NoModule),
        _ => Some(ReadFaultKind::Syntax),
    }
}

impl<'a> Reader<'a> {
    /// Before the first word of a text.
    pub fn new(alloc: Global) -> Reader<'a>
        ensures { result ≡ (new_draft [], File false) }
    {
        Reader {
            draft: new_draft(alloc, String::new(alloc)),
            spot: Spot::File(false),
        }
    }

    /// After one more word.
    pub fn word(self, alloc: Global, word: &'a [u8]) -> Result<Reader<'a>, Stop>
        ensures { Gives (λ r. r) result (step self.entry.0 self.entry.1 word.now) }
    {
        let Reader { mut draft, spot } = self;
        match step(alloc, &mut draft, spot, word) {
            Ok(spot) => Ok(Reader { draft, spot }),
            Err(stop) => {
                draft.discard();
                Err(stop)
            }
        }
    }

    /// The design of a text that ends here, or why it is refused at its end.
    pub fn end(self, len: u64) -> Result<Design, ReadFault>
        ensures { result ≡ ending self.entry.0.design len (at_end self.entry.1) }
    {
        let Reader { draft, spot } = self;
        let fault = at_end(&spot);
        spot.discard();
        ended(into_design(draft), len, fault)
    }
}

fn into_design(draft: Draft) -> Design
    ensures { result ≡ draft.entry.design }
{
    draft.design
}

fn ended(design: Design, len: u64, fault: Option<ReadFaultKind>) -> Result<Design, ReadFault>
    ensures { result ≡ ending design len fault }
{
    match fault {
        Some(kind) => Err(ReadFault { byte: len, kind }),
        None => Ok(design),
    }
}

// The proof, with hints or without, written while the solver searches.

ghost use Rattle.std.specs.Prelude.{◌≡◌, IfOk, OnErr};
ghost use Rattle.cdcl_run.specs.Searching.{Searches, Stops};

use crate::hinted::{put_hinted, put_hinted_deletion};
use crate::piece::Piece;
use crate::proof::{put_clause, put_deletion};
use cdcl_core::{Log, Solved, solve};
use cnf_form::{Formula, Lit};
use sby_edge::{Failed, Sink};
use std::alloc::{AllocError, Global};

// Writes the lines of a proof.
#[derive(Drop)]
struct ProofLog<'a, S: Sink, const HINTED: bool> {
    sink: &'a mut S,
    piece: &'a mut Piece,
}

impl<'a, S: Sink, const HINTED: bool> Log for ProofLog<'a, S, HINTED> {
    ghost use Rattle.cdcl_run.specs.Output.{Breaks, Puts};
    ghost use Rattle.cdcl_run.specs.Searching.{line_by};

    ghost takes = { λ a l b. (b.sink.ghost_name ≡ a.sink.ghost_name) × (b.piece.ghost_name ≡ a.piece.ghost_name)
        × Puts (record { taken = S.taken a.sink.now; faults = S.faults a.sink.now; gathered = a.piece.now })
        (record { taken = S.taken b.sink.now; faults = S.faults b.sink.now; gathered = b.piece.now }) (line_by HINTED l) };

    ghost fails = { λ a l b. (b.sink.ghost_name ≡ a.sink.ghost_name) × (b.piece.ghost_name ≡ a.piece.ghost_name)
        × Breaks (record { taken = S.taken a.sink.now; faults = S.faults a.sink.now; gathered = a.piece.now })
        (record { taken = S.taken b.sink.now; faults = S.faults b.sink.now; gathered = b.piece.now }) (line_by HINTED l) };

    ghost faults = { λ a. S.faults a.sink.now };

    ghost hinted = { HINTED };

    fn is_hinted(&self) -> bool {
        HINTED
    }

    fn clause(&mut self, clause: &[Lit], id: u64, hints: &[u64]) -> Result<(), Failed> {
        if HINTED {
            put_hinted(self.sink, self.piece, clause, id, hints)
        } else {
            put_clause(self.sink, self.piece, clause)
        }
    }

    fn fact(&mut self, l: Lit, id: u64, hints: &[u64]) -> Result<(), Failed> {
        if HINTED {
            put_hinted(self.sink, self.piece, &[l], id, hints)
        } else {
            Ok(())
        }
    }

    fn delete(&mut self, clause: &[Lit], id: u64) -> Result<(), Failed> {
        if HINTED {
            put_hinted_deletion(self.sink, self.piece, id)
        } else {
            put_deletion(self.sink, self.piece, clause)
        }
    }
}

// Searches, and logs the proof.
fn solve_to<S: Sink, const HINTED: bool>(
    alloc: Global,
    formula: &Formula,
    budget: u64,
    log: &mut ProofLog<'_, S, HINTED>,
) -> Result<Solved, AllocError>
    ensures same_sink { log.new.sink.ghost_name ≡ log.old.sink.ghost_name }
    ensures same_piece { log.new.piece.ghost_name ≡ log.old.piece.ghost_name }
    ensures searches { IfOk result (λ solved. Searches HINTED formula.now budget
        (record { taken = S.taken log.old.sink.now; faults = S.faults log.old.sink.now; gathered = log.old.piece.now })
        (record { taken = S.taken log.new.sink.now; faults = S.faults log.new.sink.now; gathered = log.new.piece.now }) solved) }
    ensures stops { OnErr result (Stops HINTED formula.now budget
        (record { taken = S.taken log.old.sink.now; faults = S.faults log.old.sink.now; gathered = log.old.piece.now })
        (record { taken = S.taken log.new.sink.now; faults = S.faults log.new.sink.now; gathered = log.new.piece.now })) }
{
    solve(alloc, formula, budget, log)
}

// Searches, and writes the proof.
pub(crate) fn search<S: Sink, const HINTED: bool>(
    alloc: Global,
    formula: &Formula,
    budget: u64,
    sink: &mut S,
    piece: &mut Piece,
) -> Result<Solved, AllocError>
    ensures searches { IfOk result (λ solved. Searches HINTED formula.now budget
        (record { taken = S.taken sink.old; faults = S.faults sink.old; gathered = piece.old })
        (record { taken = S.taken sink.new; faults = S.faults sink.new; gathered = piece.new }) solved) }
    ensures stops { OnErr result (Stops HINTED formula.now budget
        (record { taken = S.taken sink.old; faults = S.faults sink.old; gathered = piece.old })
        (record { taken = S.taken sink.new; faults = S.faults sink.new; gathered = piece.new })) }
{
    let mut log = ProofLog { sink, piece };
    solve_to::<S, HINTED>(alloc, formula, budget, &mut log)
}

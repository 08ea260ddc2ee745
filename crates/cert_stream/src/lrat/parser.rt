// What is kept of a hinted stream.

ghost use Rattle.std.specs.Prelude.{◌≡◌, ◌+◌, ◌<◌, ◌≤◌, ◌^◌, cond, true, false, Option, Some, None, IfOk, OnErr};
ghost use Rattle.cnf_form.specs.Cnf.{ClauseWithin};
ghost use Rattle.cnf_form.specs.declared.literal.TheConstants.{MAX_VARS};
ghost use Rattle.cert_stream.specs.Machine.{IsPartWithin, IsEventWithin, is_literal_part, with_digit};
ghost use Rattle.cert_stream.specs.LratMachine.{LratOf, IsIdPartWithin, IsModeWithin, at_end, begins_id, emptied, end_id_part, end_line, end_part, end_word, ended, fails, fault_of, heard, id_digit, id_first, id_goes_on, id_part, is_id_number, is_in_number, lits_ended, own_digit, read, takes_minus, turn, unended, visible, visible_after_id, visible_part, visible_plain, visible_spelled, visible_start};
ghost use Rattle.cert_stream.specs.LratTelling.{fresh};

use crate::lrat::mode::{Hint, IdList, IdPart, LitList, MAX_HINTS, MAX_ID, Mode};
use crate::word::{is_blank, part_next, spelling};
use crate::{Event, ParseFault, ParseFaultKind, Part};
use cnf_form::Lit;
use std::alloc::{AllocError, Global};
use std::marker::Model;

// Whether the number that these digits and this byte write is an id.
fn with_id_digit(n: u64, b: u8) -> Option<u64>
    requires { n ≤ MAX_ID }
    ensures { result ≡ cond (id_goes_on n b) (Some (with_digit n b)) None }
{
    if !(b'0'..=b'9').contains(&b) {
        return None;
    }
    let value = 10 * n as u128 + (b - b'0') as u128;
    if value >= 1 && value <= MAX_ID as u128 {
        Some(value as u64)
    } else {
        None
    }
}

fn takes_minus(kind: IdList) -> bool
    ensures { result ≡ takes_minus kind }
{
    match kind {
        IdList::Hints => true,
        IdList::Deletion => false,
    }
}

fn begins_id(kind: IdList, b: u8) -> bool
    ensures { result ≡ begins_id kind b }
{
    b == b'-' && takes_minus(kind) || with_id_digit(0, b).is_some()
}

/// Reads a hinted stream, and keeps nothing of earlier lines, and of its line no more than its id, literals and hints so far.
#[derive(Drop)]
pub struct LratParser {
    vars: u32,
    taken: u64,
    place: u64,
    mode: Mode,
    id: u64,
    lits: Vec<Lit>,
    hints: Vec<Hint>,
}

impl Model for LratParser {
    ghost use Rattle.std.specs.Prelude.{◌≤◌};
    ghost use Rattle.cnf_form.specs.Cnf.{ClauseWithin};
    ghost use Rattle.cnf_form.specs.declared.literal.TheConstants.{MAX_VARS};
    ghost use Rattle.cert_stream.specs.LratMachine.{LratOf, IsModeWithin};

    ghost Value = { LratOf };

    ghost view = { λ a. record { vars = a.vars; taken = a.taken; place = a.place; mode = a.mode; id = a.id; lits = a.lits.items; hints = a.hints.items } };

    ghost invariant = { λ a. (a.vars ≤ MAX_VARS) × ClauseWithin a.vars a.lits.items × IsModeWithin a.vars a.mode };
}

fn ended(kind: IdList) -> Event
    ensures { result ≡ ended kind }
{
    match kind {
        IdList::Hints => Event::Clause,
        IdList::Deletion => Event::Delete,
    }
}

fn heard(kind: LitList, l: Lit) -> Option<Event>
    ensures { result ≡ heard kind l }
{
    match kind {
        LitList::Clause => None,
        LitList::Values => Some(Event::Value(l)),
    }
}

impl LratParser {
    /// Before the first byte of a hinted stream over the variables from 1 to `vars`, at most `MAX_VARS`.
    pub fn new(alloc: Global, vars: u32) -> Self
        requires { vars ≤ MAX_VARS }
        ensures { result ≡ fresh vars }
    {
        LratParser {
            vars,
            taken: 0,
            place: 0,
            mode: Mode::Start(false),
            id: 0,
            lits: Vec::new(alloc),
            hints: Vec::new(alloc),
        }
    }

    fn fail(&mut self, kind: ParseFaultKind)
        ensures { self.new ≡ (fails self.old kind).to }
    {
        self.mode = Mode::Bad(ParseFault {
            kind,
            byte: self.taken,
        });
    }

    fn lits_ended(&mut self, kind: LitList) -> Option<Event>
        ensures { record { to = self.new; event = result } ≡ lits_ended self.old kind }
    {
        match kind {
            LitList::Clause => {
                self.mode = Mode::InIds(IdList::Hints, IdPart::Gap);
                None
            }
            LitList::Values => {
                self.mode = Mode::Closed;
                Some(Event::ValuesEnd)
            }
        }
    }

    fn end_part(&mut self, kind: LitList, part: Part) -> Result<Option<Event>, AllocError>
        requires { IsPartWithin self.old.vars part }
        ensures part { IfOk result (λ event. record { to = self.new; event = event } ≡ end_part self.old kind part) }
        ensures memory { OnErr result (is_literal_part part ≡ true) }
    {
        match part {
            Part::Gap => {
                self.mode = Mode::InLits(kind, Part::Gap);
                Ok(None)
            }
            Part::Minus => {
                self.fail(ParseFaultKind::BadLiteral);
                Ok(None)
            }
            Part::Zero => Ok(self.lits_ended(kind)),
            Part::Digits(l) => {
                self.lits.push(l)?;
                self.mode = Mode::InLits(kind, Part::Gap);
                Ok(heard(kind, l))
            }
        }
    }

    fn end_id_part(&mut self, kind: IdList, part: IdPart) -> Result<Option<Event>, AllocError>
        ensures part { IfOk result (λ event. record { to = self.new; event = event } ≡ end_id_part self.old kind part) }
        ensures memory { OnErr result (is_id_number part ≡ true) }
    {
        match part {
            IdPart::Gap => self.mode = Mode::InIds(kind, IdPart::Gap),
            IdPart::Minus(_) => self.fail(ParseFaultKind::BadLiteral),
            IdPart::Zero => {
                self.mode = Mode::Closed;
                return Ok(Some(ended(kind)));
            }
            IdPart::Digits(hint) => {
                self.hints.push(hint)?;
                self.mode = Mode::InIds(kind, IdPart::Gap);
            }
        }
        Ok(None)
    }

    fn end_word(&mut self) -> Result<Option<Event>, AllocError>
        ensures word { IfOk result (λ event. record { to = self.new; event = event } ≡ end_word self.old self.old.mode) }
        ensures memory { OnErr result (is_in_number self.old.mode ≡ true) }
    {
        match self.mode {
            Mode::InLits(kind, part) => return self.end_part(kind, part),
            Mode::InIds(kind, part) => return self.end_id_part(kind, part),
            Mode::InId(n) => {
                self.id = n;
                self.mode = Mode::AfterId;
            }
            Mode::DeletionHead => self.mode = Mode::InIds(IdList::Deletion, IdPart::Gap),
            Mode::ValuesHead => self.mode = Mode::InLits(LitList::Values, Part::Gap),
            Mode::StatusHead => self.mode = Mode::StatusGap,
            Mode::Spelled(n) => {
                self.mode = if n == 7 {
                    Mode::Whole
                } else {
                    Mode::Skip(false)
                };
            }
            Mode::Start(_)
            | Mode::Skip(_)
            | Mode::StatusGap
            | Mode::Whole
            | Mode::AfterId
            | Mode::Closed
            | Mode::Bad(_) => {}
        }
        Ok(None)
    }

    fn unended(&mut self, kind: LitList)
        ensures { self.new ≡ (unended self.old kind).to }
    {
        match kind {
            LitList::Clause => self.fail(ParseFaultKind::BadLine),
            LitList::Values => self.mode = Mode::Start(true),
        }
    }

    fn end_line(&mut self) -> Option<Event>
        ensures { record { to = self.new; event = result } ≡ end_line self.old self.old.mode }
    {
        match self.mode {
            Mode::Skip(amid) => self.mode = Mode::Start(amid),
            Mode::ValuesHead => self.mode = Mode::Start(true),
            Mode::InLits(kind, _) => self.unended(kind),
            Mode::InId(_) | Mode::AfterId | Mode::DeletionHead | Mode::InIds(..) => {
                self.fail(ParseFaultKind::BadLine);
            }
            Mode::StatusHead | Mode::StatusGap | Mode::Spelled(_) | Mode::Closed => {
                self.mode = Mode::Start(false);
            }
            Mode::Whole => {
                self.mode = Mode::Start(false);
                return Some(Event::Unknown);
            }
            Mode::Start(_) | Mode::Bad(_) => {}
        }
        None
    }

    #[tactic(auto, using(crate::proofs::LratTurning::part_is))]
    fn visible_part(&mut self, kind: LitList, part: Part, b: u8)
        ensures { self.new ≡ (visible_part self.old kind part b).to }
    {
        let full = self.lits.len() >= self.vars as usize;
        match part_next(self.vars, full, part, b) {
            Ok(part) => self.mode = Mode::InLits(kind, part),
            Err(fault) => self.fail(fault),
        }
    }

    fn id_digit(&mut self, kind: IdList, hint: Hint, b: u8)
        requires { hint.id ≤ MAX_ID }
        ensures { self.new ≡ (id_digit self.old kind hint.negated hint.place hint.id b).to }
    {
        match with_id_digit(hint.id, b) {
            Some(id) => {
                self.mode = Mode::InIds(
                    kind,
                    IdPart::Digits(Hint {
                        id,
                        negated: hint.negated,
                        place: hint.place,
                    }),
                );
            }
            None => self.fail(ParseFaultKind::BadLiteral),
        }
    }

    fn id_first(&mut self, kind: IdList, b: u8)
        ensures { self.new ≡ (id_first self.old kind b).to }
    {
        let place = self.taken;
        if b == b'0' {
            self.mode = Mode::InIds(kind, IdPart::Zero);
        } else if !begins_id(kind, b) {
            self.fail(ParseFaultKind::BadLiteral);
        } else if self.hints.len() >= MAX_HINTS {
            self.fail(ParseFaultKind::LineTooLong);
        } else if b == b'-' {
            self.mode = Mode::InIds(kind, IdPart::Minus(place));
        } else {
            self.id_digit(
                kind,
                Hint {
                    id: 0,
                    negated: false,
                    place,
                },
                b,
            );
        }
    }

    fn id_part(&mut self, kind: IdList, part: IdPart, b: u8)
        requires { IsIdPartWithin part }
        ensures { self.new ≡ (id_part self.old kind part b).to }
    {
        match part {
            IdPart::Gap => self.id_first(kind, b),
            IdPart::Minus(place) => self.id_digit(
                kind,
                Hint {
                    id: 0,
                    negated: true,
                    place,
                },
                b,
            ),
            IdPart::Zero => self.fail(ParseFaultKind::BadLiteral),
            IdPart::Digits(hint) => self.id_digit(kind, hint, b),
        }
    }

    fn own_digit(&mut self, n: u64, b: u8)
        requires { n ≤ MAX_ID }
        ensures { self.new ≡ (own_digit self.old n b).to }
    {
        match with_id_digit(n, b) {
            Some(value) => self.mode = Mode::InId(value),
            None => self.fail(ParseFaultKind::BadLiteral),
        }
    }

    fn visible_after_id(&mut self, b: u8)
        ensures { self.new ≡ (visible_after_id self.old b).to }
    {
        if b == b'd' {
            self.mode = Mode::DeletionHead;
        } else {
            self.visible_part(LitList::Clause, Part::Gap, b);
        }
    }

    fn visible_plain(&mut self, b: u8)
        ensures { self.new ≡ (visible_plain self.old b).to }
    {
        match b {
            b's' => self.mode = Mode::StatusHead,
            b'0'..=b'9' => self.own_digit(0, b),
            _ => self.fail(ParseFaultKind::BadLine),
        }
    }

    fn visible_start(&mut self, amid: bool, b: u8)
        ensures { self.new ≡ (visible_start (emptied self.old) amid b).to }
    {
        self.place = self.taken;
        self.id = 0;
        self.lits.clear();
        self.hints.clear();
        match b {
            b'c' => self.mode = Mode::Skip(amid),
            b'v' => self.mode = Mode::ValuesHead,
            _ if amid => self.fail(ParseFaultKind::BadLine),
            _ => self.visible_plain(b),
        }
    }

    fn visible_spelled(&mut self, n: u8, b: u8)
        ensures { self.new ≡ (visible_spelled self.old n b).to }
    {
        self.mode = if n < 7 && b == spelling(n) {
            Mode::Spelled(n + 1)
        } else {
            Mode::Skip(false)
        };
    }

    fn visible(&mut self, b: u8)
        ensures { self.new ≡ (visible self.old self.old.mode b).to }
    {
        match self.mode {
            Mode::Start(amid) => self.visible_start(amid, b),
            Mode::ValuesHead | Mode::StatusHead | Mode::DeletionHead | Mode::Closed => {
                self.fail(ParseFaultKind::BadLine);
            }
            Mode::StatusGap => self.visible_spelled(0, b),
            Mode::Spelled(n) => self.visible_spelled(n, b),
            Mode::Whole => self.mode = Mode::Skip(false),
            Mode::InId(n) => self.own_digit(n, b),
            Mode::AfterId => self.visible_after_id(b),
            Mode::InLits(kind, part) => self.visible_part(kind, part, b),
            Mode::InIds(kind, part) => self.id_part(kind, part, b),
            Mode::Skip(_) | Mode::Bad(_) => {}
        }
    }

    fn read(&mut self, b: u8) -> Result<Option<Event>, AllocError>
        ensures read { IfOk result (λ event. record { to = self.new; event = event } ≡ read self.old b) }
        ensures memory { OnErr result (is_in_number self.old.mode ≡ true) }
    {
        if b == b'\n' {
            let event = self.end_word()?;
            let later = self.end_line();
            Ok(event.or(later))
        } else if is_blank(b) {
            self.end_word()
        } else {
            self.visible(b);
            Ok(None)
        }
    }

    pub(crate) fn lits(&self) -> &[Lit]
        ensures lits { result.now ≡ self.now.lits }
        ensures within { ClauseWithin self.now.vars self.now.lits }
    {
        self.lits.as_slice()
    }

    pub(crate) fn hints(&self) -> &[Hint]
        ensures { result.now ≡ self.now.hints }
    {
        self.hints.as_slice()
    }

    pub(crate) fn id(&self) -> u64
        ensures { result ≡ self.now.id }
    {
        self.id
    }

    pub(crate) fn place(&self) -> u64
        ensures { result ≡ self.now.place }
    {
        self.place
    }

    /// How many bytes were taken.
    pub fn taken(&self) -> u64
        ensures { result ≡ self.now.taken }
    {
        self.taken
    }

    /// Where no hinted stream goes on.
    pub fn fault(&self) -> Option<ParseFault>
        ensures { result ≡ fault_of self.now.mode }
    {
        match self.mode {
            Mode::Bad(fault) => Some(fault),
            _ => None,
        }
    }

    pub(crate) fn at_end(&self) -> Option<Event>
        ensures event { result ≡ at_end self.now.mode }
        ensures within { IsEventWithin self.now.vars result }
    {
        match self.mode {
            Mode::InLits(LitList::Values, Part::Zero) => Some(Event::ValuesEnd),
            Mode::InIds(kind, IdPart::Zero) => Some(ended(kind)),
            Mode::Spelled(7) | Mode::Whole => Some(Event::Unknown),
            _ => None,
        }
    }

    pub(crate) fn turn(&mut self, b: u8) -> Result<Option<Event>, AllocError>
        requires { self.old.taken + 1 < 2 ^ 64 }
        ensures turned { IfOk result (λ event. record { to = self.new; event = event } ≡ turn self.old b) }
        ensures vars { IfOk result (λ _. self.new.vars ≡ self.old.vars) }
        ensures within { IfOk result (λ event. IsEventWithin self.old.vars event) }
        ensures memory { OnErr result (is_in_number self.old.mode ≡ true) }
    {
        let taken = self.taken;
        let event = self.read(b)?;
        self.taken = taken + 1;
        Ok(event)
    }
}

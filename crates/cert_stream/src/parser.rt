// What is kept of a stream.

ghost use Rattle.std.specs.Prelude.{◌≡◌, ◌+◌, ◌<◌, ◌≤◌, ◌^◌, ◌↔◌, IsTrue, true, false, length, take, drop, Option, Some, None, IfOk, OnErr};
ghost use Rattle.cnf_form.specs.Cnf.{ClauseWithin};
ghost use Rattle.cnf_form.specs.declared.literal.TheConstants.{MAX_VARS};
ghost use Rattle.cert_stream.specs.Machine.{DrupOf, IsPartWithin, IsEventWithin, fault_of, at_end, end_line, end_part, end_word, ended, fails, heard, is_in_literal, is_literal_part, read, turn, unended, visible, visible_part, visible_plain, visible_spelled, visible_start, emptied};
ghost use Rattle.cert_stream.specs.Telling.{TakesMemory, after, said, fresh};
ghost use Rattle.cert_stream.specs.Text.{NoFeed};
ghost use Rattle.cert_stream.specs.declared.mode.Mode.TheVariants.{Lost};

use crate::mode::{Event, ListKind, Mode, ParseFault, ParseFaultKind, Part};
use crate::word::{is_blank, part_next, spelling};
use cnf_form::Lit;
use memchr::memchr;
use std::alloc::{AllocError, Global};
use std::marker::Model;

/// Reads a stream, and keeps nothing of earlier lines, and of its line no more than its literals so far.
#[derive(Drop)]
pub struct DrupParser {
    vars: u32,
    taken: u64,
    place: u64,
    mode: Mode,
    lits: Vec<Lit>,
}

impl Model for DrupParser {
    ghost use Rattle.std.specs.Prelude.{◌≤◌};
    ghost use Rattle.cnf_form.specs.Cnf.{ClauseWithin};
    ghost use Rattle.cnf_form.specs.declared.literal.TheConstants.{MAX_VARS};
    ghost use Rattle.cert_stream.specs.Machine.{DrupOf, IsModeWithin};

    ghost Value = { DrupOf };

    ghost view = { λ a. record { vars = a.vars; taken = a.taken; place = a.place; mode = a.mode; lits = a.lits.items } };

    ghost invariant = { λ a. (a.vars ≤ MAX_VARS) × ClauseWithin a.vars a.lits.items × IsModeWithin a.vars a.mode };
}

fn ended(kind: ListKind) -> Event
    ensures { result ≡ ended kind }
{
    match kind {
        ListKind::Clause => Event::Clause,
        ListKind::Deletion => Event::Delete,
        ListKind::Values => Event::ValuesEnd,
    }
}

fn heard(kind: ListKind, l: Lit) -> Option<Event>
    ensures { result ≡ heard kind l }
{
    match kind {
        ListKind::Clause | ListKind::Deletion => None,
        ListKind::Values => Some(Event::Value(l)),
    }
}

/// How many bytes stand before the first line feed.
#[tactic(auto, using(crate::proofs::Passing::no_feed_take))]
pub fn before_feed(bytes: &[u8]) -> usize
    ensures within { result ≤ length bytes.now }
    ensures none { NoFeed (take result bytes.now) }
{
    match memchr(b'\n', bytes) {
        Some(count) => count,
        None => bytes.len(),
    }
}

impl DrupParser {
    /// Before the first byte of a stream over the variables from 1 to `vars`, at most `MAX_VARS`.
    pub fn new(alloc: Global, vars: u32) -> Self
        requires { vars ≤ MAX_VARS }
        ensures { result ≡ fresh vars }
    {
        DrupParser {
            vars,
            taken: 0,
            place: 0,
            mode: Mode::Start(false),
            lits: Vec::new(alloc),
        }
    }

    fn fail(&mut self, kind: ParseFaultKind)
        ensures { self.new ≡ (fails self.old kind).to }
    {
        self.mode = Mode::Bad(ParseFault {
            kind,
            byte: self.taken,
        });
    }

    fn end_part(&mut self, kind: ListKind, part: Part) -> Result<Option<Event>, AllocError>
        requires { IsPartWithin self.old.vars part }
        ensures ended { IfOk result (λ event. record { to = self.new; event = event } ≡ end_part self.old kind part) }
        ensures memory { OnErr result (is_literal_part part ≡ true) }
    {
        match part {
            Part::Gap => {
                self.mode = Mode::InList(kind, Part::Gap);
                Ok(None)
            }
            Part::Minus => {
                self.fail(ParseFaultKind::BadLiteral);
                Ok(None)
            }
            Part::Zero => {
                self.mode = Mode::Closed;
                Ok(Some(ended(kind)))
            }
            Part::Digits(l) => {
                self.lits.push(l)?;
                self.mode = Mode::InList(kind, Part::Gap);
                Ok(heard(kind, l))
            }
        }
    }

    fn end_word(&mut self) -> Result<Option<Event>, AllocError>
        ensures ended { IfOk result (λ event. record { to = self.new; event = event } ≡ end_word self.old self.old.mode) }
        ensures memory { OnErr result (is_in_literal self.old.mode ≡ true) }
    {
        match self.mode {
            Mode::InList(kind, part) => return self.end_part(kind, part),
            Mode::Head(kind) => self.mode = Mode::InList(kind, Part::Gap),
            Mode::StatusHead => self.mode = Mode::StatusGap,
            Mode::Spelled(n) => {
                self.mode = if n == 7 {
                    Mode::Whole
                } else {
                    Mode::Skip(false)
                };
            }
            Mode::Start(_)
            | Mode::Skip(_)
            | Mode::StatusGap
            | Mode::Whole
            | Mode::Closed
            | Mode::Bad(_)
            | Mode::Lost => {}
        }
        Ok(None)
    }

    fn unended(&mut self, kind: ListKind)
        ensures { self.new ≡ (unended self.old kind).to }
    {
        match kind {
            ListKind::Clause | ListKind::Deletion => self.fail(ParseFaultKind::BadLine),
            ListKind::Values => self.mode = Mode::Start(true),
        }
    }

    fn end_line(&mut self) -> Option<Event>
        ensures { record { to = self.new; event = result } ≡ end_line self.old self.old.mode }
    {
        match self.mode {
            Mode::Skip(amid) => self.mode = Mode::Start(amid),
            Mode::Head(kind) | Mode::InList(kind, _) => self.unended(kind),
            Mode::StatusHead | Mode::StatusGap | Mode::Spelled(_) | Mode::Closed => {
                self.mode = Mode::Start(false);
            }
            Mode::Whole => {
                self.mode = Mode::Start(false);
                return Some(Event::Unknown);
            }
            Mode::Start(_) | Mode::Bad(_) | Mode::Lost => {}
        }
        None
    }

    #[tactic(auto, using(crate::proofs::Turning::part_is))]
    fn visible_part(&mut self, kind: ListKind, part: Part, b: u8)
        ensures { self.new ≡ (visible_part self.old kind part b).to }
    {
        let full = self.lits.len() >= self.vars as usize;
        match part_next(self.vars, full, part, b) {
            Ok(part) => self.mode = Mode::InList(kind, part),
            Err(fault) => self.fail(fault),
        }
    }

    fn visible_plain(&mut self, b: u8)
        ensures { self.new ≡ (visible_plain self.old b).to }
    {
        match b {
            b's' => self.mode = Mode::StatusHead,
            b'd' => self.mode = Mode::Head(ListKind::Deletion),
            b'-' | b'0'..=b'9' => self.visible_part(ListKind::Clause, Part::Gap, b),
            _ => self.fail(ParseFaultKind::BadLine),
        }
    }

    fn visible_start(&mut self, amid: bool, b: u8)
        ensures { self.new ≡ (visible_start (emptied self.old) amid b).to }
    {
        self.place = self.taken;
        self.lits.clear();
        match b {
            b'c' => self.mode = Mode::Skip(amid),
            b'v' => self.mode = Mode::Head(ListKind::Values),
            _ if amid => self.fail(ParseFaultKind::BadLine),
            _ => self.visible_plain(b),
        }
    }

    fn visible_spelled(&mut self, n: u8, b: u8)
        ensures { self.new ≡ (visible_spelled self.old n b).to }
    {
        self.mode = if n < 7 && b == spelling(n) {
            Mode::Spelled(n + 1)
        } else {
            Mode::Skip(false)
        };
    }

    fn visible(&mut self, b: u8)
        ensures { self.new ≡ (visible self.old self.old.mode b).to }
    {
        match self.mode {
            Mode::Start(amid) => self.visible_start(amid, b),
            Mode::Head(_) | Mode::StatusHead | Mode::Closed => self.fail(ParseFaultKind::BadLine),
            Mode::StatusGap => self.visible_spelled(0, b),
            Mode::Spelled(n) => self.visible_spelled(n, b),
            Mode::Whole => self.mode = Mode::Skip(false),
            Mode::InList(kind, part) => self.visible_part(kind, part, b),
            Mode::Skip(_) | Mode::Bad(_) | Mode::Lost => {}
        }
    }

    fn read(&mut self, b: u8) -> Result<Option<Event>, AllocError>
        ensures read { IfOk result (λ event. record { to = self.new; event = event } ≡ read self.old b) }
        ensures memory { OnErr result (is_in_literal self.old.mode ≡ true) }
    {
        if b == b'\n' {
            let event = self.end_word()?;
            let later = self.end_line();
            Ok(event.or(later))
        } else if is_blank(b) {
            self.end_word()
        } else {
            self.visible(b);
            Ok(None)
        }
    }

    pub(crate) fn lits(&self) -> &[Lit]
        ensures lits { result.now ≡ self.now.lits }
        ensures within { ClauseWithin self.now.vars self.now.lits }
    {
        self.lits.as_slice()
    }

    pub(crate) fn place(&self) -> u64
        ensures { result ≡ self.now.place }
    {
        self.place
    }

    /// How many bytes were taken.
    pub fn taken(&self) -> u64
        ensures { result ≡ self.now.taken }
    {
        self.taken
    }

    /// Where no stream goes on.
    pub fn fault(&self) -> Option<ParseFault>
        ensures { result ≡ fault_of self.now.mode }
    {
        match self.mode {
            Mode::Bad(fault) => Some(fault),
            _ => None,
        }
    }

    pub(crate) fn is_lost(&self) -> bool
        ensures { IsTrue result ↔ (self.now.mode ≡ Lost) }
    {
        matches!(self.mode, Mode::Lost)
    }

    // Memory ran out: nothing is known any more.
    pub(crate) fn lose(&mut self)
        ensures mode { self.new.mode ≡ Lost }
        ensures taken { self.new.taken ≡ 0 }
    {
        self.mode = Mode::Lost;
        self.taken = 0;
    }

    // Passes over what a comment has of these bytes, and answers how many.
    pub(crate) fn pass(&mut self, bytes: &[u8]) -> usize
        requires { self.old.taken + length bytes.now < 2 ^ 64 }
        ensures within { result ≤ length bytes.now }
        ensures taken { self.new.taken ≡ self.old.taken + result }
        ensures vars { self.new.vars ≡ self.old.vars }
        ensures after { after self.new (drop result bytes.now) ≡ after self.old bytes.now }
        ensures said { said self.new (drop result bytes.now) ≡ said self.old bytes.now }
        ensures memory { TakesMemory self.new (drop result bytes.now) → TakesMemory self.old bytes.now }
    {
        let Mode::Skip(_) = self.mode else {
            return 0;
        };
        let count = before_feed(bytes);
        self.taken += count as u64;
        count
    }

    pub(crate) fn at_end(&self) -> Option<Event>
        ensures event { result ≡ at_end self.now.mode }
        ensures within { IsEventWithin self.now.vars result }
    {
        match self.mode {
            Mode::InList(kind, Part::Zero) => Some(ended(kind)),
            Mode::Spelled(7) | Mode::Whole => Some(Event::Unknown),
            _ => None,
        }
    }

    pub(crate) fn turn(&mut self, b: u8) -> Result<Option<Event>, AllocError>
        requires { self.old.taken + 1 < 2 ^ 64 }
        ensures turned { IfOk result (λ event. record { to = self.new; event = event } ≡ turn self.old b) }
        ensures vars { IfOk result (λ _. self.new.vars ≡ self.old.vars) }
        ensures within { IfOk result (λ event. IsEventWithin self.old.vars event) }
        ensures memory { OnErr result (is_in_literal self.old.mode ≡ true) }
    {
        let taken = self.taken;
        let event = self.read(b)?;
        self.taken = taken + 1;
        Ok(event)
    }
}

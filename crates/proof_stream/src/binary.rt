// A binary proof.

ghost use Rattle.std.specs.Prelude.{◌≡◌, ℕ, cond, ◌+◌, ◌<◌, ◌≤◌, ◌*◌, ◌^◌, Bool, true, false, List, [], length, Option, Some, None, IfOk};
ghost use Rattle.cnf_form.specs.Cnf.{ClauseWithin};
ghost use Rattle.cnf_form.specs.declared.literal.TheConstants.{MAX_VARS};
ghost use Rattle.cert_stream.specs.Telling.{Gets, Saying, answer, is_stopped};
ghost use Rattle.cnf_form.specs.Coding.{lit_from};
ghost use Rattle.proof_stream.specs.Numbers.{Goes, Whole, is_literal, may_go_on, seven, with_group};
ghost use Rattle.proof_stream.specs.Binary.{BinaryOf, BinaryTurn, IsSpotWithin, binary_fresh, binary_told, binary_turn, breaks, gap_read, group_read, head_read, line_said, literal_read, opens, spot_end, spot_fault, spot_read};
ghost use Rattle.proof_stream.specs.File.{FileOf, InBinary, after, fault, said};

use crate::spot::{Groups, LineKind, Spot};
use cert_stream::{Fed, ParseFault, ParseFaultKind, Receiver};
use cnf_form::Lit;
use std::alloc::{AllocError, Global};
use std::marker::Model;

// The weight of a literal's fifth group.
const LAST_WEIGHT: u64 = 1 << 28;

/// Reads a binary proof.
#[derive(Drop)]
pub(crate) struct BinaryParser {
    vars: u32,
    taken: u64,
    place: u64,
    spot: Spot,
    lits: Vec<Lit>,
}

impl Model for BinaryParser {
    ghost use Rattle.std.specs.Prelude.{◌≤◌};
    ghost use Rattle.cnf_form.specs.Cnf.{ClauseWithin};
    ghost use Rattle.cnf_form.specs.declared.literal.TheConstants.{MAX_VARS};
    ghost use Rattle.proof_stream.specs.Binary.{BinaryOf, IsSpotWithin};

    ghost Value = { BinaryOf };

    ghost view = { λ a. record { vars = a.vars; taken = a.taken; place = a.place; spot = a.spot; lits = a.lits.items } };

    ghost invariant = { λ a. (a.vars ≤ MAX_VARS) × ClauseWithin a.vars a.lits.items × IsSpotWithin a.vars a.spot };
}

fn seven(b: u8) -> u64
    ensures value { result ≡ seven b }
    ensures small { result < 128 }
{
    if b >= 128 { b as u64 - 128 } else { b as u64 }
}

fn is_literal(vars: u32, n: u64) -> bool
    requires { vars ≤ MAX_VARS }
    ensures { result ≡ is_literal vars n }
{
    n >= 2 && n <= 2 * vars as u64 + 1
}

fn may_go_on(vars: u32, n: u64, weight: u64) -> bool
    requires vars { vars ≤ MAX_VARS }
    requires small { n + weight < 2 ^ 63 }
    ensures { result ≡ may_go_on vars n weight }
{
    weight <= LAST_WEIGHT && (is_literal(vars, n) || n <= 1 && n + weight <= 2 * vars as u64 + 1)
}

// The literal that is twice its variable, and one more where it is negated.
fn literal(vars: u32, n: u64) -> Lit
    requires vars { vars ≤ MAX_VARS }
    requires within { is_literal vars n ≡ true }
    ensures { result ≡ lit_from n }
{
    Lit::new((n / 2) as u32, n % 2 == 1)
}

// Whether a group with this value after it may be the last one of a literal, or one that another follows.
fn fits(vars: u32, n: u64, weight: u64, goes_on: bool) -> bool
    requires vars { vars ≤ MAX_VARS }
    requires small { n + weight < 2 ^ 63 }
    ensures { result ≡ cond goes_on (may_go_on vars n weight) (is_literal vars n) }
{
    if goes_on {
        may_go_on(vars, n, weight)
    } else {
        is_literal(vars, n)
    }
}

// The value with one more group.
#[tactic(auto, using(crate::proofs::Bounds::group_bound))]
fn with_group(value: u64, weight: u64, b: u8) -> u64
    requires value { value ≤ 2 ^ 29 }
    requires weight { weight ≤ 268435456 }
    ensures group { result ≡ with_group value weight b }
    ensures small { result < 2 ^ 36 }
{
    value + seven(b) * weight
}

impl BinaryParser {
    pub(crate) fn new(alloc: Global, vars: u32) -> Self
        requires { vars ≤ MAX_VARS }
        ensures { result ≡ binary_fresh vars }
    {
        BinaryParser {
            vars,
            taken: 0,
            place: 0,
            spot: Spot::Between,
            lits: Vec::new(alloc),
        }
    }

    fn fail(&mut self, kind: ParseFaultKind, byte: u64)
        ensures { self.new ≡ (breaks self.old kind byte).to }
    {
        self.spot = Spot::Bad(ParseFault { kind, byte });
    }

    fn open(&mut self, kind: LineKind)
        ensures { self.new ≡ (opens self.old kind).to }
    {
        self.place = self.taken;
        self.lits.clear();
        self.spot = Spot::Gap(kind);
    }

    fn read_head(&mut self, b: u8)
        ensures { self.new ≡ (head_read self.old b).to }
    {
        match b {
            b'a' => self.open(LineKind::Clause),
            b'd' => self.open(LineKind::Deletion),
            _ => self.fail(ParseFaultKind::BadLine, self.taken),
        }
    }

    fn push(&mut self, kind: LineKind, n: u64) -> Result<(), AllocError>
        requires { is_literal self.old.vars n ≡ true }
        ensures { IfOk result (λ _. self.new ≡ (literal_read self.old kind 0 (Whole n)).to) }
    {
        self.lits.push(literal(self.vars, n))?;
        self.spot = Spot::Gap(kind);
        Ok(())
    }

    fn go_on(&mut self, kind: LineKind, groups: Groups)
        requires value { groups.value ≤ 2 * self.old.vars + 1 }
        requires weight { groups.weight ≤ 268435456 }
        ensures { self.new ≡ (literal_read self.old kind groups.place (Goes groups.value groups.weight)).to }
    {
        self.spot = Spot::InNumber(kind, groups);
    }

    fn read_group(&mut self, kind: LineKind, groups: Groups, b: u8) -> Result<(), AllocError>
        requires value { groups.value ≤ 2 * self.old.vars + 1 }
        requires weight { groups.weight ≤ 268435456 }
        ensures { IfOk result (λ _. self.new ≡ (group_read self.old kind groups b).to) }
    {
        let vars = self.vars;
        let place = groups.place;
        let value = with_group(groups.value, groups.weight, b);
        let weight = 128 * groups.weight;
        let goes_on = b >= 128;
        if !fits(vars, value, weight, goes_on) {
            self.fail(ParseFaultKind::BadLiteral, place);
        } else if self.lits.len() >= vars as usize {
            self.fail(ParseFaultKind::LineTooLong, place);
        } else if goes_on {
            self.go_on(
                kind,
                Groups {
                    value,
                    weight,
                    place,
                },
            );
        } else {
            self.push(kind, value)?;
        }
        Ok(())
    }

    fn read_gap(&mut self, kind: LineKind, b: u8) -> Result<Option<LineKind>, AllocError>
        ensures { IfOk result (λ event. record { to = self.new; event = event } ≡ gap_read self.old kind b) }
    {
        if b == 0 {
            self.spot = Spot::Between;
            return Ok(Some(kind));
        }
        let place = self.taken;
        let groups = Groups {
            value: 0,
            weight: 1,
            place,
        };
        self.read_group(kind, groups, b)?;
        Ok(None)
    }

    fn read(&mut self, b: u8) -> Result<Option<LineKind>, AllocError>
        ensures { IfOk result (λ event. record { to = self.new; event = event } ≡ spot_read self.old self.old.spot b) }
    {
        match self.spot {
            Spot::Between => self.read_head(b),
            Spot::Gap(kind) => return self.read_gap(kind, b),
            Spot::InNumber(kind, groups) => self.read_group(kind, groups, b)?,
            Spot::Bad(_) => {}
        }
        Ok(None)
    }

    fn turn(&mut self, b: u8) -> Result<Option<LineKind>, AllocError>
        requires { self.old.taken + 1 < 2 ^ 64 }
        ensures turned { IfOk result (λ event. record { to = self.new; event = event } ≡ binary_turn self.old b) }
        ensures vars { IfOk result (λ _. self.new.vars ≡ self.old.vars) }
    {
        let taken = self.taken;
        let event = self.read(b)?;
        self.taken = taken + 1;
        Ok(event)
    }

    pub(crate) fn fault(&self) -> Option<ParseFault>
        ensures { result ≡ spot_fault self.now.spot }
    {
        match self.spot {
            Spot::Bad(fault) => Some(fault),
            Spot::Between | Spot::Gap(_) | Spot::InNumber(..) => None,
        }
    }

    pub(crate) fn taken(&self) -> u64
        ensures { result ≡ self.now.taken }
    {
        self.taken
    }

    // Hands on what a byte said.
    fn tell<R: Receiver>(&self, receiver: &mut R, kind: LineKind) -> Result<bool, AllocError>
        requires { R.vars receiver.old ≡ self.now.vars }
        ensures vars { IfOk result (λ _. R.vars receiver.new ≡ R.vars receiver.old) }
        ensures gets { IfOk result (λ _. R.gets receiver.old (line_said kind self.now.place self.now.lits) receiver.new) }
        ensures stops { IfOk result (λ stop. stop ≡ R.stops receiver.new) }
    {
        match kind {
            LineKind::Clause => receiver.clause(self.lits.as_slice(), self.place),
            LineKind::Deletion => receiver.delete(self.lits.as_slice()),
        }
    }

    // Takes a piece, and answers whether the receiver stopped.
    fn take<R: Receiver>(&mut self, piece: &[u8], receiver: &mut R) -> Result<bool, AllocError>
        requires vars { R.vars receiver.old ≡ self.old.vars }
        requires count { self.old.taken + length piece.now < 2 ^ 64 }
        ensures told { IfOk result (λ stopped. Gets R.gets R.stops receiver.old (said (InBinary self.old) piece.now) receiver.new stopped) }
        ensures kept { IfOk result (λ stopped. stopped ≡ false → (let r : FileOf = InBinary self.new in r) ≡ after (InBinary self.old) piece.now) }
        ensures vars { IfOk result (λ _. R.vars receiver.new ≡ self.new.vars) }
        ensures count { IfOk result (λ _. self.new.taken ≤ self.old.taken + length piece.now) }
    {
        let mut i = 0;
        while i < piece.len() {
            let event = self.turn(piece[i])?;
            i += 1;
            if let Some(kind) = event {
                if self.tell(receiver, kind)? {
                    return Ok(true);
                }
            }
        }
        Ok(false)
    }

    pub(crate) fn feed<R: Receiver>(
        &mut self,
        piece: &[u8],
        receiver: &mut R,
    ) -> Result<Result<Fed, ParseFault>, AllocError>
        requires vars { R.vars receiver.old ≡ self.old.vars }
        requires count { self.old.taken + length piece.now < 2 ^ 64 }
        ensures told { IfOk result (λ fed. Gets R.gets R.stops receiver.old (said (InBinary self.old) piece.now) receiver.new (is_stopped fed)) }
        ensures kept { IfOk result (λ fed. is_stopped fed ≡ false → (let r : FileOf = InBinary self.new in r) ≡ after (InBinary self.old) piece.now) }
        ensures vars { IfOk result (λ _. R.vars receiver.new ≡ self.new.vars) }
        ensures answer { IfOk result (λ fed. is_stopped fed ≡ false → fed ≡ answer (fault (after (InBinary self.old) piece.now))) }
        ensures count { IfOk result (λ _. self.new.taken ≤ self.old.taken + length piece.now) }
    {
        if self.take(piece, receiver)? {
            return Ok(Ok(Fed::Stopped));
        }
        match self.fault() {
            Some(fault) => Ok(Err(fault)),
            None => Ok(Ok(Fed::More)),
        }
    }

    /// The fault at the file's end.
    pub(crate) fn end_fault(&self) -> Option<ParseFault>
        ensures { result ≡ spot_end self.now.taken self.now.spot }
    {
        match self.spot {
            Spot::Between => None,
            Spot::Gap(_) | Spot::InNumber(..) => Some(ParseFault {
                kind: ParseFaultKind::BadLine,
                byte: self.taken,
            }),
            Spot::Bad(fault) => Some(fault),
        }
    }
}

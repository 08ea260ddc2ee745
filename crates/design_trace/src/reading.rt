// The text of a run, read.

ghost use Rattle.std.specs.Prelude.{◌≡◌, ◌≤◌, ◌∷◌, [], ◌++◌, ◌↔◌, Some, None, map, replicate, length, IfOk, IsTrue, MatchResult, slice_range};
ghost use Rattle.std.specs.List.{flat_map, sum_by};
ghost use Rattle.design_core.specs.Shape.{wire_bits};
ghost use Rattle.design_trace.specs.Trace.{IsFault, IsTrace, cycle_line, value_text, wire_line, wire_lines};
ghost use Rattle.design_trace.specs.Reading.{Allows, IsDigits, Reads, ReadsBits, Stops, bits_of, cycle_pattern, wire_pattern};
ghost use Rattle.design_trace.specs.Stopped.{IsStop};
ghost use Rattle.design_trace.specs.declared.reading.Stop.TheVariants.{Memory};

use design_check::flat::Flat;
use design_core::design::Design;
use design_core::wire::Wire;
use design_meaning::run::{Row, Shown};
use std::alloc::{AllocError, AllocFailed, Global};

/// The bytes are no trace of the design. `byte` is the length of their longest prefix that begins one.
#[derive(Clone, Copy, Debug, PartialEq, Eq)]
pub struct TextFault {
    pub byte: u64,
}

/// Why reading goes no further.
enum Stop {
    Fault(TextFault),
    Memory,
}

impl Stop {
    fn at(place: usize) -> Stop
        ensures { IsStop result (λ byte. byte ≡ place) }
    {
        Stop::Fault(TextFault { byte: place as u64 })
    }
}

impl From<AllocError> for Stop {
    ghost from_gives = { λ _ stop. stop ≡ Memory };

    fn from(_: AllocError) -> Stop {
        Stop::Memory
    }
}

impl<T: Drop> From<AllocFailed<T>> for Stop {
    ghost from_gives = { λ _ stop. stop ≡ Memory };

    fn from(_: AllocFailed<T>) -> Stop {
        Stop::Memory
    }
}

// Reads exactly this text.
fn literal(bytes: &[u8], at: usize, text: &[u8]) -> Result<usize, Stop>
    requires { at ≤ length bytes.now }
    ensures { MatchResult result (Reads bytes.now at text.now) (λ stop. IsStop stop (Stops bytes.now at (map Some text.now))) }
{
    let mut place = at;
    for byte in text {
        if place == bytes.len() || bytes[place] != *byte {
            return Err(Stop::at(place));
        }
        place += 1;
    }
    Ok(place)
}

fn is_digit(byte: u8) -> bool
    ensures { IsTrue result ↔ Allows None byte }
{
    byte == b'0' || byte == b'1'
}

// Reads `width` digits 0 or 1.
fn digits(bytes: &[u8], at: usize, width: usize) -> Result<usize, Stop>
    requires { at ≤ length bytes.now }
    ensures { MatchResult result (λ next. (Reads bytes.now at (slice_range bytes.now at next) next) × IsDigits width (slice_range bytes.now at next))
        (λ stop. IsStop stop (Stops bytes.now at (replicate width None))) }
{
    let mut place = at;
    for _ in 0..width {
        if place == bytes.len() || !is_digit(bytes[place]) {
            return Err(Stop::at(place));
        }
        place += 1;
    }
    Ok(place)
}

fn push_bits(row: &mut Vec<bool>, digits: &[u8]) -> Result<(), AllocError>
    ensures { IfOk result (λ _. row.new.items ≡ row.old.items ++ bits_of digits.now) }
{
    let mut place = digits.len();
    'digits: while place > 0 {
        place -= 1;
        row.push(digits[place] == b'1')?;
    }
    Ok(())
}

// Reads a wire's name and the space after it.
fn wire_head(bytes: &[u8], at: usize, name: &str) -> Result<usize, Stop>
    requires { at ≤ length bytes.now }
    ensures { MatchResult result (Reads bytes.now at (name.now ++ 32 ∷ [])) (λ stop. IsStop stop (Stops bytes.now at (map Some name.now ++ Some 32 ∷ []))) }
{
    let at = literal(bytes, at, name.as_bytes())?;
    literal(bytes, at, b" ")
}

// Reads a wire's bits, highest first, and the line feed after them. The row gets them lowest first.
fn value(bytes: &[u8], at: usize, width: usize, row: &mut Vec<bool>) -> Result<usize, Stop>
    requires { at ≤ length bytes.now }
    ensures { MatchResult result (ReadsBits row.old.items row.new.items width bytes.now at (λ r. value_text r ++ 10 ∷ []))
        (λ stop. IsStop stop (Stops bytes.now at (replicate width None ++ Some 10 ∷ []))) }
{
    let end = digits(bytes, at, width)?;
    let next = literal(bytes, end, b"\n")?;
    push_bits(row, &bytes[at..end])?;
    Ok(next)
}

fn wire_line(bytes: &[u8], at: usize, wire: &Wire, row: &mut Vec<bool>) -> Result<usize, Stop>
    requires { at ≤ length bytes.now }
    ensures { MatchResult result (ReadsBits row.old.items row.new.items wire.now.width bytes.now at (wire_line wire.now))
        (λ stop. IsStop stop (Stops bytes.now at (wire_pattern wire.now))) }
{
    let at = wire_head(bytes, at, wire.name())?;
    value(bytes, at, wire.width() as usize, row)
}

fn wire_lines(bytes: &[u8], at: usize, wires: &[Wire], row: &mut Vec<bool>) -> Result<usize, Stop>
    requires { at ≤ length bytes.now }
    ensures { MatchResult result (ReadsBits row.old.items row.new.items (sum_by (λ w. w.width) wires.now) bytes.now at (wire_lines wires.now))
        (λ stop. IsStop stop (Stops bytes.now at (flat_map wire_pattern wires.now))) }
{
    let mut place = at;
    for wire in wires {
        place = wire_line(bytes, place, wire, row)?;
    }
    Ok(place)
}

fn cycle_line(alloc: Global, bytes: &[u8], at: usize, number: u64) -> Result<usize, Stop>
    requires { at ≤ length bytes.now }
    ensures { MatchResult result (Reads bytes.now at (cycle_line number)) (λ stop. IsStop stop (Stops bytes.now at (map Some (cycle_line number)))) }
{
    let line = format!(in alloc; "cycle {number}\n")?;
    literal(bytes, at, line.as_bytes())
}

// Reads one cycle. The row gets the wires' bits.
fn cycle(
    alloc: Global,
    bytes: &[u8],
    at: usize,
    design: &Design,
    number: u64,
    row: &mut Vec<bool>,
) -> Result<usize, Stop>
    requires at { at ≤ length bytes.now }
    requires empty { row.old.items ≡ [] }
    ensures { MatchResult result (λ next. (length row.new.items ≡ wire_bits design.now) × Reads bytes.now at (cycle_line number ++ wire_lines design.now.wires row.new.items) next)
        (λ stop. IsStop stop (Stops bytes.now at (cycle_pattern design.now number))) }
{
    let at = cycle_line(alloc, bytes, at, number)?;
    wire_lines(bytes, at, design.wires(), row)
}

// Reads all cycles.
fn rows(alloc: Global, design: &Design, bytes: &[u8]) -> Result<Vec<Row>, Stop>
    ensures { MatchResult result (λ rows. IsTrace design.now rows.items bytes.now) (λ stop. IsStop stop (IsFault design.now bytes.now)) }
{
    let mut rows = Vec::new(alloc);
    let mut at = 0;
    let mut number = 0u64;
    'cycles: while number == 0 || at < bytes.len() {
        let mut row = Vec::new(alloc);
        at = cycle(alloc, bytes, at, design, number, &mut row)?;
        rows.push(Row::new(row))?;
        number += 1;
    }
    Ok(rows)
}

/// What the wires have in each cycle of a trace of this design, and where the bytes are none, the length of their longest
/// prefix that begins one.
pub fn read_text(
    alloc: Global,
    flat: &Flat,
    bytes: &[u8],
) -> Result<Result<Shown, TextFault>, AllocError>
    ensures { IfOk result (λ read. MatchResult read (λ shown. IsTrace flat.now shown bytes.now) (λ fault. IsFault flat.now bytes.now fault.byte)) }
{
    match rows(alloc, flat.design(), bytes) {
        Ok(rows) => Ok(Ok(Shown::new(rows))),
        Err(Stop::Fault(fault)) => Ok(Err(fault)),
        Err(Stop::Memory) => Err(AllocError),
    }
}

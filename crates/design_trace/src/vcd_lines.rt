// The lines of a trace file, one after the other.

ghost use Rattle.std.specs.Prelude.{◌≡◌, ◌≢◌, ◌+◌, ◌^◌, ◌<◌, ◌≤◌, ◌++◌, List, [], drop, length, take};
ghost use Rattle.std.specs.List.{sum_by};
ghost use Rattle.sby_bits.specs.Rows.{Row};
ghost use Rattle.design_core.specs.Shape.{DesignOf, wire_bits};
ghost use Rattle.design_meaning.specs.Runs.{IsShownOf};
ghost use Rattle.design_trace.specs.Changes.{name_end, plain_name};
ghost use Rattle.design_trace.specs.Coming.{IsLine, IsPlace, IsShort, changes_text, declarations_text, head_end_text, line_text, rest_of, short_text, text_from, times_text};
ghost use Rattle.design_trace.specs.declared.vcd_lines.Place.TheVariants.{Change, Declaration, HeadEnd, Scope, Time};

use crate::vcd_parts::{Middle, Short, bit_line, bits_end, declared, time_line};
use crate::waveform::Waveform;
use design_core::design::Design;

// Where a line begins.
#[derive(Clone, Copy, Debug, PartialEq, Eq)]
pub enum Place {
    Scope,
    // The declaration of this wire.
    Declaration(usize),
    HeadEnd,
    // The time of this cycle, or after all cycles.
    Time(usize),
    // In this cycle the value of this wire, whose bits stand in the cycle's row from this place on.
    Change(usize, usize, u32),
    End,
}

// A line: what stands before a name or a value, that, and what stands after it; and where the next line begins.
#[derive(Clone, Copy, Drop)]
pub struct Line<'a> {
    pub before: Short,
    pub middle: Middle<'a>,
    pub after: Short,
    pub next: Place,
}

fn plain_name(name: &[u8]) -> &[u8]
    ensures { result.now ≡ plain_name name.now }
{
    match name {
        [b'\\', rest @ ..] => rest,
        _ => name,
    }
}

// The declarations from this wire on, or the end of the head.
fn declaration_place(design: &Design, wire: usize) -> Place
    requires { wire ≤ length design.now.wires }
    ensures place { (rows : List Row) → IsPlace design.now rows result }
    ensures text { (rows : List Row) → text_from design.now rows result ≡ declarations_text design.now rows wire }
{
    if wire < design.wires().len() {
        Place::Declaration(wire)
    } else {
        Place::HeadEnd
    }
}

// The values from this wire on, or the next time.
fn change_place(design: &Design, cycle: usize, wire: usize, low: u32) -> Place
    requires wire { wire ≤ length design.now.wires }
    requires low { low + sum_by (λ w. w.width) (drop wire design.now.wires) ≡ wire_bits design.now }
    requires few { cycle + 1 < 2 ^ 64 }
    ensures place { (rows : List Row) → cycle < length rows → IsPlace design.now rows result }
    ensures text { (rows : List Row) → text_from design.now rows result ≡ changes_text design.now rows cycle wire low }
{
    if wire < design.wires().len() {
        Place::Change(cycle, wire, low)
    } else {
        Place::Time(cycle + 1)
    }
}

impl<'a> Line<'a> {
    // A line with neither name nor value.
    fn plain(text: Short, next: Place) -> Line<'a>
        requires { IsShort text }
        ensures line { (rows : List Row) → IsLine rows result }
        ensures text { (rows : List Row) → line_text rows result ≡ short_text text }
        ensures next { result.next ≡ next }
    {
        Line {
            before: text,
            middle: Middle::Name(&[]),
            after: Short::of(""),
            next,
        }
    }

    // A command that names something.
    fn naming(before: Short, name: &'a str, next: Place) -> Line<'a>
        requires { IsShort before }
        ensures line { (rows : List Row) → IsLine rows result }
        ensures text { (rows : List Row) → line_text rows result ≡ short_text before ++ name_end name.now }
        ensures next { result.next ≡ next }
    {
        Line {
            before,
            middle: Middle::Name(plain_name(name.as_bytes())),
            after: Short::of(" $end\n"),
            next,
        }
    }

    fn scope(design: &'a Design) -> Line<'a>
        ensures line { (rows : List Row) → IsLine rows result }
        ensures next { (rows : List Row) → IsPlace design.now rows result.next }
        ensures text { (rows : List Row) → rest_of design.now rows result ≡ text_from design.now rows Scope }
        ensures some { (rows : List Row) → line_text rows result ≢ [] }
    {
        Line::naming(
            Short::of("$scope module "),
            design.name(),
            declaration_place(design, 0),
        )
    }

    fn declaration(design: &'a Design, wire: usize) -> Line<'a>
        requires { wire < length design.now.wires }
        ensures line { (rows : List Row) → IsLine rows result }
        ensures next { (rows : List Row) → IsPlace design.now rows result.next }
        ensures text { (rows : List Row) → rest_of design.now rows result ≡ text_from design.now rows (Declaration wire) }
        ensures some { (rows : List Row) → line_text rows result ≢ [] }
    {
        let declared_wire = &design.wires()[wire];
        Line::naming(
            declared(declared_wire.width(), wire),
            declared_wire.name(),
            declaration_place(design, wire + 1),
        )
    }

    fn head_end() -> Line<'a>
        ensures line { (rows : List Row) → IsLine rows result }
        ensures next { result.next ≡ Time 0 }
        ensures text { (d : DesignOf) (rows : List Row) → rest_of d rows result ≡ text_from d rows HeadEnd }
        ensures some { (rows : List Row) → line_text rows result ≢ [] }
    {
        Line::plain(
            Short::of("$upscope $end\n$enddefinitions $end\n"),
            Place::Time(0),
        )
    }

    fn time<V: Waveform>(design: &Design, waveform: &V, cycle: usize) -> Line<'a>
        requires { cycle ≤ length (V.rows waveform.now) }
        ensures line { IsLine (V.rows waveform.now) result }
        ensures next { IsPlace design.now (V.rows waveform.now) result.next }
        ensures text { rest_of design.now (V.rows waveform.now) result ≡ text_from design.now (V.rows waveform.now) (Time cycle) }
        ensures some { line_text (V.rows waveform.now) result ≢ [] }
    {
        let next = if cycle < waveform.cycles() {
            change_place(design, cycle, 0, 0)
        } else {
            Place::End
        };
        Line::plain(time_line(cycle), next)
    }

    fn change<V: Waveform>(
        design: &Design,
        waveform: &V,
        cycle: usize,
        wire: usize,
        low: u32,
    ) -> Line<'a>
        requires shown { IsShownOf design.now (V.rows waveform.now) }
        requires place { IsPlace design.now (V.rows waveform.now) (Change cycle wire low) }
        ensures line { IsLine (V.rows waveform.now) result }
        ensures next { IsPlace design.now (V.rows waveform.now) result.next }
        ensures text { rest_of design.now (V.rows waveform.now) result ≡ text_from design.now (V.rows waveform.now) (Change cycle wire low) }
        ensures some { line_text (V.rows waveform.now) result ≢ [] }
    {
        // So there is a number for the next cycle.
        let _cycles = waveform.cycles();
        let width = design.wires()[wire].width();
        let next = change_place(design, cycle, wire + 1, low + width);
        if width == 1 {
            return Line::plain(bit_line(waveform.bit(cycle, low), wire), next);
        }
        Line {
            before: Short::of("b"),
            middle: Middle::Bits(cycle, low, width),
            after: bits_end(wire),
            next,
        }
    }

    // The line that begins at a place.
    pub fn at<V: Waveform>(design: &'a Design, waveform: &V, place: Place) -> Line<'a>
        requires shown { IsShownOf design.now (V.rows waveform.now) }
        requires place { IsPlace design.now (V.rows waveform.now) place }
        ensures line { IsLine (V.rows waveform.now) result }
        ensures next { IsPlace design.now (V.rows waveform.now) result.next }
        ensures text { rest_of design.now (V.rows waveform.now) result ≡ text_from design.now (V.rows waveform.now) place }
        ensures ends { line_text (V.rows waveform.now) result ≡ [] → text_from design.now (V.rows waveform.now) place ≡ [] }
    {
        match place {
            Place::Scope => Line::scope(design),
            Place::Declaration(wire) => Line::declaration(design, wire),
            Place::HeadEnd => Line::head_end(),
            Place::Time(cycle) => Line::time(design, waveform, cycle),
            Place::Change(cycle, wire, low) => Line::change(design, waveform, cycle, wire, low),
            Place::End => Line::plain(Short::of(""), Place::End),
        }
    }

    // Before all lines.
    pub fn first() -> Line<'a>
        ensures line { (rows : List Row) → IsLine rows result }
        ensures text { (rows : List Row) → line_text rows result ≡ [] }
        ensures next { result.next ≡ Scope }
    {
        Line::plain(Short::of(""), Place::Scope)
    }

    // Gives of the part that is at hand, and answers how many bytes.
    pub fn give<V: Waveform>(&mut self, waveform: &V, buffer: &mut [u8]) -> usize
        requires { IsLine (V.rows waveform.now) self.old }
        ensures line { IsLine (V.rows waveform.now) self.new }
        ensures next { self.new.next ≡ self.old.next }
        ensures fits { result ≤ length buffer.new }
        ensures piece { line_text (V.rows waveform.now) self.old ≡ take result buffer.new ++ line_text (V.rows waveform.now) self.new }
        ensures ends { result ≡ 0 → 0 < length buffer.new → line_text (V.rows waveform.now) self.old ≡ [] }
    {
        let count = self.before.give(buffer);
        if count > 0 {
            return count;
        }
        let count = self.middle.give(waveform, buffer);
        if count > 0 {
            return count;
        }
        self.after.give(buffer)
    }
}

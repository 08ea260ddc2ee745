// The parts of a line of a trace file, as far as they are still to come.

ghost use Rattle.std.specs.Prelude.{◌≡◌, ◌+◌, ◌-◌, ◌^◌, ◌<◌, ◌≤◌, ◌++◌, ◌∷◌, [], codes, drop, length, slice_index_or, take};
ghost use Rattle.std.specs.Fmt.{decimal};
ghost use Rattle.arrayvec.specs.ArrayString.{array_string_len};
ghost use Rattle.design_trace.specs.Changes.{identifier, time_line};
ghost use Rattle.design_trace.specs.Coming.{IsMiddle, IsShort, middle_text, short_text};
ghost use Rattle.design_trace.specs.Trace.{digit, value_text};

use crate::waveform::Waveform;
use crate::writing::digit;
use arrayvec::ArrayString;
use itoa::Buffer;

// A few bytes, and how many of them have been given. The longest, `$var wire W wN `, has 43.
#[derive(Clone, Copy, Drop)]
pub struct Short {
    pub text: ArrayString<48>,
    pub given: usize,
}

// A name or a value.
#[derive(Clone, Copy, Drop)]
pub enum Middle<'a> {
    Name(&'a [u8]),
    // Of this cycle, from this place of its row on, this many bits. The highest is given first.
    Bits(usize, u32, u32),
}

// Writes bytes to the front of a buffer, as many as there is room for, and answers how many.
fn give(bytes: &[u8], buffer: &mut [u8]) -> usize
    ensures within { result ≤ length bytes.now }
    ensures fits { result ≤ length buffer.new }
    ensures piece { take result buffer.new ≡ take result bytes.now }
    ensures ends { result ≡ 0 → 0 < length buffer.new → bytes.now ≡ [] }
{
    let count = bytes.len().min(buffer.len());
    buffer[..count].copy_from_slice(&bytes[..count]);
    count
}

// Writes bits of a cycle to the front of a buffer, the highest first, as many as there is room for, and answers how many.
fn give_bits<V: Waveform>(
    waveform: &V,
    cycle: usize,
    low: u32,
    count: u32,
    buffer: &mut [u8],
) -> usize
    requires cycle { cycle < length (V.rows waveform.now) }
    requires bits { low + count ≤ length (slice_index_or (V.rows waveform.now) cycle []) }
    requires few { low + count < 2 ^ 32 }
    ensures within { result ≤ count }
    ensures fits { result ≤ length buffer.new }
    ensures piece { value_text (take count (drop low (slice_index_or (V.rows waveform.now) cycle [])))
        ≡ take result buffer.new ++ value_text (take (count - result) (drop low (slice_index_or (V.rows waveform.now) cycle []))) }
    ensures ends { result ≡ 0 → 0 < length buffer.new → count ≡ 0 }
{
    let many = buffer.len().min(count as usize);
    for place in 0..many {
        let left = count - 1 - place as u32;
        buffer[place] = digit(waveform.bit(cycle, low + left));
    }
    many
}

impl Short {
    // These bytes.
    fn new(text: ArrayString<48>) -> Short
        ensures short { IsShort result }
        ensures text { short_text result ≡ text.bytes }
    {
        Short { text, given: 0 }
    }

    // This text.
    pub fn of(word: &str) -> Short
        requires { length word.now ≤ 48 }
        ensures short { IsShort result }
        ensures text { short_text result ≡ word.now }
    {
        let mut text = ArrayString::new();
        text.push_str(word);
        Short::new(text)
    }

    // Gives what there is room for, and answers how many bytes.
    pub fn give(&mut self, buffer: &mut [u8]) -> usize
        requires { IsShort self.old }
        ensures short { IsShort self.new }
        ensures fits { result ≤ length buffer.new }
        ensures piece { short_text self.old ≡ take result buffer.new ++ short_text self.new }
        ensures ends { result ≡ 0 → 0 < length buffer.new → short_text self.old ≡ [] }
    {
        let count = give(&self.text.as_str().as_bytes()[self.given..], buffer);
        self.given += count;
        count
    }
}

impl<'a> Middle<'a> {
    // Gives what there is room for, and answers how many bytes.
    pub fn give<V: Waveform>(&mut self, waveform: &V, buffer: &mut [u8]) -> usize
        requires { IsMiddle (V.rows waveform.now) self.old }
        ensures middle { IsMiddle (V.rows waveform.now) self.new }
        ensures fits { result ≤ length buffer.new }
        ensures piece { middle_text (V.rows waveform.now) self.old ≡ take result buffer.new ++ middle_text (V.rows waveform.now) self.new }
        ensures ends { result ≡ 0 → 0 < length buffer.new → middle_text (V.rows waveform.now) self.old ≡ [] }
    {
        match *self {
            Middle::Name(name) => {
                let count = give(name, buffer);
                *self = Middle::Name(&name[count..]);
                count
            }
            Middle::Bits(cycle, low, left) => {
                let count = give_bits(waveform, cycle, low, left, buffer);
                *self = Middle::Bits(cycle, low, left - count as u32);
                count
            }
        }
    }
}

fn push_number(text: &mut ArrayString<48>, number: u64)
    requires { array_string_len text.old + 20 ≤ 48 }
    ensures bytes { text.new.bytes ≡ text.old.bytes ++ decimal number }
    ensures few { array_string_len text.new ≤ array_string_len text.old + 20 }
{
    let mut digits = Buffer::new();
    text.push_str(digits.format(number));
}

fn push_identifier(text: &mut ArrayString<48>, wire: usize)
    requires { array_string_len text.old + 21 ≤ 48 }
    ensures bytes { text.new.bytes ≡ text.old.bytes ++ identifier wire }
    ensures few { array_string_len text.new ≤ array_string_len text.old + 21 }
{
    text.push_str("w");
    push_number(text, wire as u64);
}

// What stands before a wire's name in its declaration.
pub fn declared(width: u32, wire: usize) -> Short
    ensures short { IsShort result }
    ensures text { short_text result ≡ codes "$var wire " ++ (decimal width ++ (32 ∷ (identifier wire ++ 32 ∷ []))) }
{
    let mut text = ArrayString::new();
    text.push_str("$var wire ");
    let mut digits = Buffer::new();
    text.push_str(digits.format(width));
    text.push_str(" ");
    push_identifier(&mut text, wire);
    text.push_str(" ");
    Short::new(text)
}

// The line of a time.
pub fn time_line(time: usize) -> Short
    ensures short { IsShort result }
    ensures text { short_text result ≡ time_line time }
{
    let mut text = ArrayString::new();
    text.push_str("#");
    push_number(&mut text, time as u64);
    text.push_str("\n");
    Short::new(text)
}

// The line of a wire of one bit.
pub fn bit_line(bit: bool, wire: usize) -> Short
    ensures short { IsShort result }
    ensures text { short_text result ≡ digit bit ∷ (identifier wire ++ 10 ∷ []) }
{
    let mut text = ArrayString::new();
    text.push_str(if bit { "1" } else { "0" });
    push_identifier(&mut text, wire);
    text.push_str("\n");
    Short::new(text)
}

// What stands after the value of a wire of several bits.
pub fn bits_end(wire: usize) -> Short
    ensures short { IsShort result }
    ensures text { short_text result ≡ 32 ∷ (identifier wire ++ 10 ∷ []) }
{
    let mut text = ArrayString::new();
    text.push_str(" ");
    push_identifier(&mut text, wire);
    text.push_str("\n");
    Short::new(text)
}

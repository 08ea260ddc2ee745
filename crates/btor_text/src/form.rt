// What a line says by its words, its width and its place in the table of constants left out.

ghost use Rattle.std.specs.Prelude.{◌≡◌, ◌↔◌, List, Bool, IfSome, Some, bytes_eq, codes};
ghost use Rattle.btor_core.specs.declared.line.Line.{Line};
ghost use Rattle.btor_text.specs.Grammar.{Spells, words_of};
ghost use Rattle.btor_text.specs.Form.{seen};
ghost use Rattle.btor_text.specs.Reading.{bare, bits_back, line_said, said_with, binary_of, body_said, comparison_of, five_words, four_words, is_bits, is_empty, number_of, with_four, with_one, with_three, open_words, sort_words, const_words, unary_words, three_words, two_words, unary_of, word_at};

use crate::number::number;
use crate::scan::next_word;
use btor_core::line::{Binary, Body, Node, Unary};

// What a line says by its words: its nid, its body without a width and a place of bits, and the digits of a constant.
#[derive(Clone, Copy)]
pub(crate) struct Said<'a> {
    pub(crate) nid: u32,
    pub(crate) body: Body,
    pub(crate) digits: &'a [u8],
}

// The first words of a line, empty where there are fewer.
#[derive(Clone, Copy)]
struct Words<'a> {
    nid: &'a [u8],
    key: &'a [u8],
    first: &'a [u8],
    second: &'a [u8],
    third: &'a [u8],
    fourth: &'a [u8],
    more: &'a [u8],
}

fn line_words(line: &[u8]) -> Words<'_>
    ensures nid { result.nid.now ≡ word_at (words_of line.now) 0 }
    ensures key { result.key.now ≡ word_at (words_of line.now) 1 }
    ensures first { result.first.now ≡ word_at (words_of line.now) 2 }
    ensures second { result.second.now ≡ word_at (words_of line.now) 3 }
    ensures third { result.third.now ≡ word_at (words_of line.now) 4 }
    ensures fourth { result.fourth.now ≡ word_at (words_of line.now) 5 }
    ensures more { result.more.now ≡ word_at (words_of line.now) 6 }
{
    let nid = next_word(line);
    let key = next_word(nid.rest);
    let first = next_word(key.rest);
    let second = next_word(first.rest);
    let third = next_word(second.rest);
    let fourth = next_word(third.rest);
    let more = next_word(fourth.rest);
    Words {
        nid: nid.first,
        key: key.first,
        first: first.first,
        second: second.first,
        third: third.first,
        fourth: fourth.first,
        more: more.first,
    }
}

fn is_bits(word: &[u8]) -> bool
    ensures { result ≡ is_bits word.now }
{
    for b in word {
        if !(*b == b'0' || *b == b'1') {
            return false;
        }
    }
    true
}

fn is_empty(word: &[u8]) -> bool
    ensures { result ≡ is_empty word.now }
{
    word.is_empty()
}

fn is(word: &[u8], text: &[u8]) -> bool
    ensures { result ≡ bytes_eq word.now text.now }
{
    word == text
}

fn unary_of(word: &[u8]) -> Option<Unary>
    ensures { result ≡ unary_of word.now }
{
    if is(word, b"not") {
        Some(Unary::Not)
    } else if is(word, b"neg") {
        Some(Unary::Neg)
    } else if is(word, b"redand") {
        Some(Unary::Redand)
    } else if is(word, b"redor") {
        Some(Unary::Redor)
    } else if is(word, b"redxor") {
        Some(Unary::Redxor)
    } else {
        None
    }
}

fn comparison_of(word: &[u8]) -> Option<Binary>
    ensures { result ≡ comparison_of word.now }
{
    if is(word, b"eq") {
        Some(Binary::Eq)
    } else if is(word, b"neq") {
        Some(Binary::Neq)
    } else if is(word, b"ult") {
        Some(Binary::Ult)
    } else if is(word, b"ulte") {
        Some(Binary::Ulte)
    } else if is(word, b"slt") {
        Some(Binary::Slt)
    } else if is(word, b"slte") {
        Some(Binary::Slte)
    } else if is(word, b"concat") {
        Some(Binary::Concat)
    } else {
        None
    }
}

fn binary_of(word: &[u8]) -> Option<Binary>
    ensures { result ≡ binary_of word.now }
{
    if is(word, b"and") {
        Some(Binary::And)
    } else if is(word, b"or") {
        Some(Binary::Or)
    } else if is(word, b"xor") {
        Some(Binary::Xor)
    } else if is(word, b"add") {
        Some(Binary::Add)
    } else if is(word, b"sub") {
        Some(Binary::Sub)
    } else if is(word, b"mul") {
        Some(Binary::Mul)
    } else if is(word, b"udiv") {
        Some(Binary::Udiv)
    } else if is(word, b"urem") {
        Some(Binary::Urem)
    } else if is(word, b"sdiv") {
        Some(Binary::Sdiv)
    } else if is(word, b"srem") {
        Some(Binary::Srem)
    } else if is(word, b"sll") {
        Some(Binary::Sll)
    } else if is(word, b"srl") {
        Some(Binary::Srl)
    } else if is(word, b"sra") {
        Some(Binary::Sra)
    } else {
        comparison_of(word)
    }
}

fn two_words(key: &[u8], a: u32) -> Option<Body>
    ensures { result ≡ two_words key.now a }
{
    if is(key, b"bad") {
        Some(Body::Bad(a))
    } else if is(key, b"constraint") {
        Some(Body::Constraint(a))
    } else if is(key, b"input") {
        Some(Body::Value(a, 0, Node::Input))
    } else if is(key, b"state") {
        Some(Body::Value(a, 0, Node::State))
    } else if is(key, b"zero") {
        Some(Body::Value(a, 0, Node::Zero))
    } else if is(key, b"one") {
        Some(Body::Value(a, 0, Node::One))
    } else if is(key, b"ones") {
        Some(Body::Value(a, 0, Node::Ones))
    } else {
        None
    }
}

fn sort_words(a: &[u8], b: &[u8]) -> Option<Body>
    ensures { result ≡ sort_words a.now b.now }
{
    if !is(a, b"bitvec") {
        return None;
    }
    let width = number(b)?;
    Some(Body::Sort(width))
}

fn const_words(a: &[u8], b: &[u8]) -> Option<Body>
    ensures { result ≡ const_words a.now b.now }
{
    if !is_bits(b) {
        return None;
    }
    let sort = number(a)?;
    Some(Body::Value(sort, 0, Node::Const(0)))
}

fn open_words(a: &[u8], node: Node) -> Option<Body>
    ensures { result ≡ open_words a.now node }
{
    let sort = number(a)?;
    Some(Body::Value(sort, 0, node))
}

fn unary_words(key: Option<Unary>, a: &[u8], b: &[u8]) -> Option<Body>
    ensures { result ≡ unary_words key a.now b.now }
{
    let key = key?;
    let sort = number(a)?;
    let operand = number(b)?;
    Some(Body::Value(sort, 0, Node::Unary(key, operand)))
}

fn three_words(key: &[u8], a: &[u8], b: &[u8]) -> Option<Body>
    ensures { result ≡ three_words key.now a.now b.now }
{
    if is(key, b"sort") {
        sort_words(a, b)
    } else if is(key, b"const") {
        const_words(a, b)
    } else if is(key, b"input") {
        open_words(a, Node::Input)
    } else if is(key, b"state") {
        open_words(a, Node::State)
    } else {
        unary_words(unary_of(key), a, b)
    }
}

fn four_words(key: &[u8], a: u32, b: u32, c: u32) -> Option<Body>
    ensures { result ≡ four_words key.now a b c }
{
    if is(key, b"init") {
        Some(Body::Init(a, b, c))
    } else if is(key, b"next") {
        Some(Body::Next(a, b, c))
    } else if is(key, b"uext") {
        Some(Body::Value(a, 0, Node::Uext(b, c)))
    } else if is(key, b"sext") {
        Some(Body::Value(a, 0, Node::Sext(b, c)))
    } else {
        let key = binary_of(key)?;
        Some(Body::Value(a, 0, Node::Binary(key, b, c)))
    }
}

fn five_words(key: &[u8], a: u32, b: u32, c: u32, d: u32) -> Option<Body>
    ensures { result ≡ five_words key.now a b c d }
{
    if is(key, b"slice") {
        Some(Body::Value(a, 0, Node::Slice(b, c, d)))
    } else if is(key, b"ite") {
        Some(Body::Value(a, 0, Node::Ite(b, c, d)))
    } else {
        None
    }
}

fn one_number(key: &[u8], a: &[u8]) -> Option<Body>
    ensures { result ≡ with_one (two_words key.now) (number_of a.now) }
{
    let a = number(a)?;
    two_words(key, a)
}

fn three_numbers(key: &[u8], a: &[u8], b: &[u8], c: &[u8]) -> Option<Body>
    ensures { result ≡ with_three (four_words key.now) (number_of a.now) (number_of b.now) (number_of c.now) }
{
    let a = number(a)?;
    let b = number(b)?;
    let c = number(c)?;
    four_words(key, a, b, c)
}

fn four_numbers(key: &[u8], a: &[u8], b: &[u8], c: &[u8], d: &[u8]) -> Option<Body>
    ensures { result ≡ with_four (five_words key.now) (number_of a.now) (number_of b.now) (number_of c.now) (number_of d.now) }
{
    let a = number(a)?;
    let b = number(b)?;
    let c = number(c)?;
    let d = number(d)?;
    five_words(key, a, b, c, d)
}

// What the words after a line's nid say.
fn body_said(words: &Words<'_>) -> Option<Body>
    ensures { result ≡ body_said words.now.key.now words.now.first.now words.now.second.now words.now.third.now words.now.fourth.now words.now.more.now }
{
    let Words {
        key,
        first,
        second,
        third,
        fourth,
        ..
    } = *words;
    if is_empty(second) {
        one_number(key, first)
    } else if is_empty(third) {
        three_words(key, first, second)
    } else if is_empty(fourth) {
        three_numbers(key, first, second, third)
    } else if is_empty(words.more) {
        four_numbers(key, first, second, third, fourth)
    } else {
        None
    }
}

// What words say, where they are those of some line.
fn words_said<'a>(words: &Words<'a>) -> Option<Said<'a>>
    ensures said { seen result ≡ said_with (bits_back words.now.second.now) (number_of words.now.nid.now) (body_said words.now.key.now words.now.first.now words.now.second.now words.now.third.now words.now.fourth.now words.now.more.now) }
    ensures bare { IfSome result (λ x. bare x.body ≡ x.body) }
{
    let digits = words.second;
    let nid = number(words.nid)?;
    let body = body_said(words)?;
    Some(Said { nid, body, digits })
}

// What a line says, where its words are those of some line.
pub(crate) fn read_line(line: &[u8]) -> Option<Said<'_>>
    ensures spelt { (constants : List Bool) (l : Line) → (seen result ≡ Some (line_said constants l)) ↔ Spells constants (words_of line.now) l }
    ensures bare { IfSome result (λ x. bare x.body ≡ x.body) }
{
    let words = line_words(line);
    words_said(&words)
}

// DIMACS text is read.

ghost use Rattle.std.specs.Prelude.{◌≡◌, ◌↔◌, ℕ, ◌≤◌, true, List, [], length, IfOk, IfErr, IsTrue};
ghost use Rattle.cnf_form.specs.Cnf.{FormulaOf};
ghost use Rattle.cnf_form.specs.declared.reader.DimacsFaultKind.{DimacsFaultKind};
ghost use Rattle.cnf_form.specs.Dimacs.{IsDimacs, IsNumber};
ghost use Rattle.cnf_form.specs.Reading.{HasHeader, HeaderFails, header_words, BodyEnds, EndsWithin, IsFault};
ghost use Rattle.cnf_form.specs.declared.literal.TheConstants.{MAX_VARS};

use crate::formula::Formula;
use crate::scan::{is_number, is_word, literal_of, next_word, vars_of};
use std::alloc::{AllocError, Global};

/// Why a text is no formula in DIMACS: its header, a word of its clauses, or the number of these.
#[derive(Clone, Copy, Debug, PartialEq, Eq)]
pub enum DimacsFaultKind {
    Header,
    Literal,
    Count,
}

/// A fault of a text, and the number of the byte at which it shows.
#[derive(Clone, Copy, Debug, PartialEq, Eq)]
pub struct DimacsFault {
    pub byte: usize,
    pub kind: DimacsFaultKind,
}

// The numbers of variables and of clauses, the latter as it is written, and what follows.
#[derive(Clone, Copy)]
struct HeaderRead<'a> {
    vars: u32,
    count: &'a [u8],
    body: &'a [u8],
}

// The header, or the text from the first word with which there is none.
fn read_header(bytes: &[u8]) -> Result<HeaderRead<'_>, &[u8]>
    ensures header { IfOk result (λ h. (n : ℕ) → IsNumber h.count.now n → HasHeader bytes.now h.vars n h.body.now) }
    ensures ok { IfOk result (λ h. (h.vars ≤ MAX_VARS) × (length h.body.now ≤ length bytes.now)) }
    ensures count { IfOk result (λ h. (n : ℕ) × IsNumber h.count.now n) }
    ensures fails { IfErr result (λ at. HeaderFails true header_words bytes.now at.now) }
    ensures within { IfErr result (λ at. length at.now ≤ length bytes.now) }
{
    let p = next_word(bytes, true, true);
    if !is_word(p.word, b"p") {
        return Err(p.front);
    }
    let cnf = next_word(p.rest, false, false);
    if !is_word(cnf.word, b"cnf") {
        return Err(cnf.front);
    }
    let size = next_word(cnf.rest, false, false);
    let vars = match vars_of(size.word) {
        Some(vars) => vars,
        None => {
            return Err(size.front);
        }
    };
    let count = next_word(size.rest, false, false);
    if !is_number(count.word) {
        return Err(count.front);
    }
    Ok(HeaderRead {
        vars,
        count: count.word,
        body: count.rest,
    })
}

// How a body ends.
#[derive(Clone, Copy)]
enum BodyEnd<'a> {
    Whole,
    Cut,
    Bad(&'a [u8]),
}

// Reads the clauses after the header into a formula that has none yet.
fn read_body<'a>(
    alloc: Global,
    formula: &mut Formula,
    body: &'a [u8],
) -> Result<BodyEnd<'a>, AllocError>
    requires { formula.old.clauses ≡ [] }
    ensures vars { formula.new.vars ≡ formula.old.vars }
    ensures body { IfOk result (BodyEnds formula.old.vars body.now formula.new.clauses) }
    ensures within { IfOk result (EndsWithin body.now) }
{
    let vars = formula.vars();
    let mut rest = body;
    let mut clause = Vec::new(alloc);
    let mut between = true;
    'words: loop {
        let found = next_word(rest, between, false);
        if found.word.is_empty() {
            if between {
                return Ok(BodyEnd::Whole);
            }
            return Ok(BodyEnd::Cut);
        }
        if is_word(found.word, b"0") {
            formula.push(&clause)?;
            clause.clear();
            between = true;
        } else {
            match literal_of(found.word, vars) {
                Some(l) => {
                    clause.push(l)?;
                    between = false;
                }
                None => {
                    return Ok(BodyEnd::Bad(found.front));
                }
            }
        }
        rest = found.rest;
    }
}

// Whether the word is the number of clauses.
fn is_count(alloc: Global, word: &[u8], count: usize) -> Result<bool, AllocError>
    requires { (n : ℕ) × IsNumber word.now n }
    ensures { IfOk result (λ b. IsTrue b ↔ IsNumber word.now count) }
{
    let text = format!(in alloc; "{count}")?;
    Ok(is_word(word, text.as_bytes()))
}

/// Reads a formula in DIMACS, or tells the first fault: `Header` at the first byte of the first word with which no header
/// can go on, `Literal` at the first byte of a word of the clauses that is no literal up to V, `Count` at the end, where
/// there are not C clauses or the last one is unfinished.
pub fn read_dimacs(alloc: Global, bytes: &[u8]) -> Result<Result<Formula, DimacsFault>, AllocError>
    ensures formula { IfOk result (λ answer. IfOk answer (IsDimacs bytes.now)) }
    ensures fault { IfOk result (λ answer. IfErr answer (λ fault. IsFault bytes.now fault.kind fault.byte)) }
{
    let header = match read_header(bytes) {
        Ok(header) => header,
        Err(at) => {
            return Ok(Err(DimacsFault {
                byte: bytes.len() - at.len(),
                kind: DimacsFaultKind::Header,
            }));
        }
    };
    let mut formula = Formula::new(alloc, header.vars);
    let end = read_body(alloc, &mut formula, header.body)?;
    match end {
        BodyEnd::Whole => {}
        BodyEnd::Cut => {
            return Ok(Err(DimacsFault {
                byte: bytes.len(),
                kind: DimacsFaultKind::Count,
            }));
        }
        BodyEnd::Bad(at) => {
            return Ok(Err(DimacsFault {
                byte: bytes.len() - at.len(),
                kind: DimacsFaultKind::Literal,
            }));
        }
    }
    let exact = is_count(alloc, header.count, formula.clauses().len())?;
    if !exact {
        return Ok(Err(DimacsFault {
            byte: bytes.len(),
            kind: DimacsFaultKind::Count,
        }));
    }
    Ok(Ok(formula))
}

/// A text that is a formula has no fault, and another has at most one: what `read_dimacs` answers is decided.
pub fn dimacs_faults_are_decided()
    ensures formula { (bytes : List ℕ) (f : FormulaOf) (kind : DimacsFaultKind) (byte : ℕ) → IsDimacs bytes f
        → IsFault bytes kind byte → ⊥ }
    ensures one { (bytes : List ℕ) (k l : DimacsFaultKind) (m n : ℕ) → IsFault bytes k m
        → IsFault bytes l n → (k ≡ l) × (m ≡ n) }
{}

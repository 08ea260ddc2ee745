// A model's text, read.

ghost use Rattle.std.specs.Prelude.{◌≡◌, ◌<◌, ◌≤◌, ◌↔◌, All, Err, IfErr, IfNone, IfOk, IfSome, IsTrue, Ok, OnOk};
ghost use Rattle.std.specs.BTreeSet as tree;
ghost use Rattle.std.specs.Ordering.{nat_cmp};
ghost use Rattle.btor_core.specs.Shape.{BtorOf};
ghost use Rattle.btor_text.specs.Form.{saying};
ghost use Rattle.btor_text.specs.Grammar.{words_of};
ghost use Rattle.btor_text.specs.Reading.{bare, bits_back};
ghost use Rattle.btor_text.specs.Refusals.{BodyHasRoom, IsFault, IsModel, IsPlaced, IsRefused, IsWithin, MayFollow, MayStand, NodeHasRoom, Refuses};
ghost use Rattle.btor_text.specs.Steps.{AddsTie, GoesOn, with_said};
ghost use Rattle.btor_text.specs.Ties.{KeepsTies};
ghost use Rattle.btor_core.specs.declared.line.Body.TheVariants.{Value};
ghost use Rattle.btor_text.specs.declared.reading.BtorFault.{BtorFault};

use crate::find::sort_width;
use crate::form::{Said, read_line};
use crate::scan::{next_line, next_word};
use crate::widths::line_matches;
use btor_core::line::{Body, Line, Node};
use btor_core::model::BtorModel;
use std::alloc::{AllocError, Global};
use std::collections::BTreeSet;

/// Why a line can't come after those before it: the first reason in this order.
#[derive(Clone, Copy, Debug, PartialEq, Eq)]
pub enum BtorKind {
    /// The words are no line's; or the nid is 0, or not above those before it; or a sort has no bit; or a state has a second `init` or
    /// `next`, or an `init` after its `next`.
    Syntax,
    /// No line before has the nid, or none that is a sort, a value or a state where it must be one.
    UnknownNid,
    /// Widths don't fit.
    Sort,
    /// A width is above 4,096, the nid above 2^32 - 2, or there are 2^32 bits of constants before this one.
    Limit,
}

/// The first line at which a text is no model's.
#[derive(Clone, Copy, Debug, PartialEq, Eq)]
pub struct BtorFault {
    /// Counted from 1.
    pub line: usize,
    pub kind: BtorKind,
}

// The model so far, and its states that have an `init` and a `next`.
#[derive(Drop)]
struct Reader {
    model: BtorModel,
    started: BTreeSet<u32>,
    followed: BTreeSet<u32>,
}

// Whether a nid is above those of the model's lines.
fn is_above(model: &BtorModel, nid: u32) -> bool
    ensures { IsTrue result ↔ ((1 ≤ nid) × All (λ k. k.nid < nid) model.now.lines) }
{
    model.promise();
    match model.lines().last() {
        Some(line) => line.nid < nid,
        None => 0 < nid,
    }
}

// Whether a node is within the limits.
fn node_has_room(model: &BtorModel, node: Node) -> bool
    ensures { IsTrue result ↔ NodeHasRoom model.now.constants node }
{
    match node {
        Node::Const(_) => model.constants().len() <= u32::MAX as usize,
        _ => true,
    }
}

// Whether a body is within the limits.
fn body_has_room(model: &BtorModel, body: Body) -> bool
    ensures { IsTrue result ↔ BodyHasRoom model.now.constants body }
{
    match body {
        Body::Sort(width) => width <= 4096,
        Body::Value(_, _, node) => node_has_room(model, node),
        Body::Init(_, _, _) => true,
        Body::Next(_, _, _) => true,
        Body::Bad(_) => true,
        Body::Constraint(_) => true,
    }
}

// Whether a line is within the limits.
fn is_within(model: &BtorModel, said: &Said<'_>) -> bool
    ensures { IsTrue result ↔ IsWithin model.now.constants (saying said.now) }
{
    said.nid < u32::MAX && body_has_room(model, said.body)
}

// The bits that digits write, the lowest first.
fn bits_of(alloc: Global, digits: &[u8]) -> Result<Vec<bool>, AllocError>
    ensures { IfOk result (λ bits. bits.items ≡ bits_back digits.now) }
{
    let mut bits = Vec::new(alloc);
    let mut place = digits.len();
    while place > 0 {
        place -= 1;
        bits.push(digits[place] == b'1')?;
    }
    Ok(bits)
}

// Adds a value of a sort, which may come after the model's lines.
fn push_value(
    model: &mut BtorModel,
    alloc: Global,
    said: &Said<'_>,
    sort: u32,
    node: Node,
) -> Result<(), AllocError>
    requires says { said.now.body ≡ Value sort 0 node }
    requires follows { MayFollow model.old (saying said.now) }
    ensures { OnOk result (model.new ≡ with_said model.old (saying said.now)) }
{
    model.promise();
    match node {
        Node::Const(_) => {
            let bits = bits_of(alloc, said.digits)?;
            model.push_constant(said.nid, sort, &bits)
        }
        // Its sort is known.
        _ => {
            let width = sort_width(model, sort).unwrap_or(0);
            let body = Body::Value(sort, width, node);
            model.push(Line {
                nid: said.nid,
                body,
            })
        }
    }
}

// Adds a line, which may come after the model's.
fn push_line(model: &mut BtorModel, alloc: Global, said: &Said<'_>) -> Result<(), AllocError>
    requires bare { bare said.now.body ≡ said.now.body }
    requires follows { MayFollow model.old (saying said.now) }
    ensures { OnOk result (model.new ≡ with_said model.old (saying said.now)) }
{
    match said.body {
        Body::Value(sort, _, node) => push_value(model, alloc, said, sort, node),
        _ => model.push(Line {
            nid: said.nid,
            body: said.body,
        }),
    }
}

// Puts a state into a set.
fn insert(states: &mut BTreeSet<u32>, state: u32) -> Result<(), AllocError>
    ensures { OnOk result (AddsTie (tree.contains nat_cmp states.old) (tree.contains nat_cmp states.new) state) }
{
    states.insert(state)?;
    Ok(())
}

impl Reader {
    // Whether a body may stand after the model's lines.
    fn may_stand(&self, body: Body) -> bool
        requires { KeepsTies self.now }
        ensures { IsTrue result ↔ MayStand self.now.model.lines body }
    {
        match body {
            Body::Sort(width) => width > 0,
            Body::Value(_, _, _) => true,
            Body::Init(_, state, _) => {
                !self.started.contains(&state) && !self.followed.contains(&state)
            }
            Body::Next(_, state, _) => !self.followed.contains(&state),
            Body::Bad(_) => true,
            Body::Constraint(_) => true,
        }
    }

    // Whether a line stands where it may.
    fn is_placed(&self, said: &Said<'_>) -> bool
        requires { KeepsTies self.now }
        ensures { IsTrue result ↔ IsPlaced self.now.model.lines (saying said.now) }
    {
        is_above(&self.model, said.nid) && self.may_stand(said.body)
    }

    // Why a line can't come after the model's, if it can't.
    fn refusal(&self, said: &Said<'_>) -> Option<BtorKind>
        requires { KeepsTies self.now }
        ensures none { IfNone result (MayFollow self.now.model (saying said.now)) }
        ensures some { IfSome result (Refuses self.now.model (saying said.now)) }
    {
        if !self.is_placed(said) {
            return Some(BtorKind::Syntax);
        }
        let Some(fits) = line_matches(&self.model, said) else {
            return Some(BtorKind::UnknownNid);
        };
        if !fits {
            return Some(BtorKind::Sort);
        }
        if !is_within(&self.model, said) {
            return Some(BtorKind::Limit);
        }
        None
    }

    // Adds a line, which may come after the model's.
    fn push(&mut self, alloc: Global, said: &Said<'_>) -> Result<(), AllocError>
        requires ties { KeepsTies self.old }
        requires bare { bare said.now.body ≡ said.now.body }
        requires follows { MayFollow self.old.model (saying said.now) }
        ensures model { OnOk result (self.new.model ≡ with_said self.old.model (saying said.now)) }
        ensures ties { OnOk result (KeepsTies self.new) }
    {
        push_line(&mut self.model, alloc, said)?;
        match said.body {
            Body::Init(_, state, _) => insert(&mut self.started, state),
            Body::Next(_, state, _) => insert(&mut self.followed, state),
            _ => Ok(()),
        }
    }

    // Reads a line, which may have no words.
    fn read(&mut self, alloc: Global, text: &[u8]) -> Result<Result<(), BtorKind>, AllocError>
        requires { KeepsTies self.old }
        ensures read { IfOk result (λ r. OnOk r (GoesOn self.old.model (words_of text.now) self.new.model)) }
        ensures ties { IfOk result (λ r. OnOk r (KeepsTies self.new)) }
        ensures fault { IfOk result (λ r. IfErr r (IsRefused self.old.model (words_of text.now))) }
    {
        if next_word(text).first.is_empty() {
            return Ok(Ok(()));
        }
        let Some(said) = read_line(text) else {
            return Ok(Err(BtorKind::Syntax));
        };
        if let Some(kind) = self.refusal(&said) {
            return Ok(Err(kind));
        }
        self.push(alloc, &said)?;
        Ok(Ok(()))
    }
}

// The model of a text, or the first line at which it is none.
fn read_lines(alloc: Global, bytes: &[u8]) -> Result<Result<BtorModel, BtorFault>, AllocError>
    ensures model { IfOk result (λ r. IfOk r (IsModel bytes.now)) }
    ensures fault { IfOk result (λ r. IfErr r (IsFault bytes.now)) }
{
    let mut reader = Reader {
        model: BtorModel::new(alloc),
        started: BTreeSet::new(alloc),
        followed: BTreeSet::new(alloc),
    };
    let mut rest = bytes;
    let mut line = 0;
    while !rest.is_empty() {
        let cut = next_line(rest);
        line += 1;
        rest = cut.rest;
        if let Err(kind) = reader.read(alloc, cut.first)? {
            return Ok(Err(BtorFault { line, kind }));
        }
        reader.model.promise();
    }
    let Reader { model, .. } = reader;
    Ok(Ok(model))
}

/// The model of a text; or the first line that can't come after those before it, and the first reason why.
pub fn read(alloc: Global, bytes: &[u8]) -> Result<Result<BtorModel, BtorFault>, AllocError>
    ensures model { IfOk result (λ r. (m : BtorOf) → (r ≡ Ok m) ↔ IsModel bytes.now m) }
    ensures fault { IfOk result (λ r. (f : BtorFault) → (r ≡ Err f) ↔ IsFault bytes.now f) }
{
    read_lines(alloc, bytes)
}

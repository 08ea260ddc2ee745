// Whether a line's widths fit what it reads.

ghost use Rattle.std.specs.Prelude.{◌≡◌, ◌+◌, ◌↔◌, IfNone, IfSome, IsTrue, length};
ghost use Rattle.btor_core.specs.Fits.{BinaryFits, HasValue, IteFits, SliceFits, UnaryFits};
ghost use Rattle.btor_core.specs.Shape.{sort_at, state_at, width_at};
ghost use Rattle.btor_core.specs.declared.line.Body.TheVariants.{Next, Value};
ghost use Rattle.btor_text.specs.Form.{saying};
ghost use Rattle.btor_text.specs.Reading.{bits_back, node_digits};
ghost use Rattle.btor_text.specs.Refusals.{IsKnown, Matches, NodeKnown, NodeMatches};

use crate::find::{sort_width, state_width, value_width};
use crate::form::Said;
use btor_core::line::{Binary, Body, Node, Unary};
use btor_core::model::BtorModel;

fn unary_fits(k: Unary, w: u32, a: u32) -> bool
    ensures { IsTrue result ↔ UnaryFits k w a }
{
    match k {
        Unary::Not => w == a,
        Unary::Neg => w == a,
        Unary::Redand => w == 1,
        Unary::Redor => w == 1,
        Unary::Redxor => w == 1,
    }
}

fn are_same(w: u32, a: u32, b: u32) -> bool
    ensures { IsTrue result ↔ ((w ≡ a) × (b ≡ a)) }
{
    w == a && b == a
}

fn is_comparison(w: u32, a: u32, b: u32) -> bool
    ensures { IsTrue result ↔ ((w ≡ 1) × (b ≡ a)) }
{
    w == 1 && b == a
}

fn is_longer(w: u32, a: u32, by: u32) -> bool
    ensures { IsTrue result ↔ (w ≡ a + by) }
{
    a <= w && by == w - a
}

fn binary_fits(k: Binary, w: u32, a: u32, b: u32) -> bool
    ensures { IsTrue result ↔ BinaryFits k w a b }
{
    match k {
        Binary::And => are_same(w, a, b),
        Binary::Or => are_same(w, a, b),
        Binary::Xor => are_same(w, a, b),
        Binary::Add => are_same(w, a, b),
        Binary::Sub => are_same(w, a, b),
        Binary::Mul => are_same(w, a, b),
        Binary::Udiv => are_same(w, a, b),
        Binary::Urem => are_same(w, a, b),
        Binary::Sdiv => are_same(w, a, b),
        Binary::Srem => are_same(w, a, b),
        Binary::Sll => are_same(w, a, b),
        Binary::Srl => are_same(w, a, b),
        Binary::Sra => are_same(w, a, b),
        Binary::Eq => is_comparison(w, a, b),
        Binary::Neq => is_comparison(w, a, b),
        Binary::Ult => is_comparison(w, a, b),
        Binary::Ulte => is_comparison(w, a, b),
        Binary::Slt => is_comparison(w, a, b),
        Binary::Slte => is_comparison(w, a, b),
        Binary::Concat => is_longer(w, a, b),
    }
}

fn slice_fits(w: u32, a: u32, upper: u32, lower: u32) -> bool
    ensures { IsTrue result ↔ SliceFits w a upper lower }
{
    lower <= upper && upper < a && w == upper - lower + 1
}

fn ite_fits(w: u32, s: u32, a: u32, b: u32) -> bool
    ensures { IsTrue result ↔ IteFits w s a b }
{
    s == 1 && a == w && b == w
}

// Whether a binary operator's widths fit; none where an operand isn't known.
fn binary_matches(model: &BtorModel, w: u32, k: Binary, a: u32, b: u32) -> Option<bool>
    ensures known { IfSome result (λ fits. HasValue model.now.lines a × HasValue model.now.lines b × (IsTrue fits ↔ BinaryFits k w (width_at model.now.lines a) (width_at model.now.lines b))) }
    ensures unknown { IfNone result (HasValue model.now.lines a × HasValue model.now.lines b → ⊥) }
{
    let a = value_width(model, a)?;
    let b = value_width(model, b)?;
    Some(binary_fits(k, w, a, b))
}

// Whether the widths of a choice fit; none where an operand isn't known.
fn ite_matches(model: &BtorModel, w: u32, s: u32, a: u32, b: u32) -> Option<bool>
    ensures known { IfSome result (λ fits. HasValue model.now.lines s × HasValue model.now.lines a × HasValue model.now.lines b × (IsTrue fits ↔ IteFits w (width_at model.now.lines s) (width_at model.now.lines a) (width_at model.now.lines b))) }
    ensures unknown { IfNone result (HasValue model.now.lines s × HasValue model.now.lines a × HasValue model.now.lines b → ⊥) }
{
    let s = value_width(model, s)?;
    let a = value_width(model, a)?;
    let b = value_width(model, b)?;
    Some(ite_fits(w, s, a, b))
}

// Whether a longer word's width fits; none where the operand isn't known.
fn extension_matches(model: &BtorModel, w: u32, a: u32, by: u32) -> Option<bool>
    ensures known { IfSome result (λ fits. HasValue model.now.lines a × (IsTrue fits ↔ (w ≡ width_at model.now.lines a + by))) }
    ensures unknown { IfNone result (HasValue model.now.lines a → ⊥) }
{
    let a = value_width(model, a)?;
    Some(is_longer(w, a, by))
}

// Whether a slice's width and places fit; none where the operand isn't known.
fn slice_matches(model: &BtorModel, w: u32, a: u32, upper: u32, lower: u32) -> Option<bool>
    ensures known { IfSome result (λ fits. HasValue model.now.lines a × (IsTrue fits ↔ SliceFits w (width_at model.now.lines a) upper lower)) }
    ensures unknown { IfNone result (HasValue model.now.lines a → ⊥) }
{
    let a = value_width(model, a)?;
    Some(slice_fits(w, a, upper, lower))
}

// Whether a unary operator's widths fit; none where the operand isn't known.
fn unary_matches(model: &BtorModel, w: u32, k: Unary, a: u32) -> Option<bool>
    ensures known { IfSome result (λ fits. HasValue model.now.lines a × (IsTrue fits ↔ UnaryFits k w (width_at model.now.lines a))) }
    ensures unknown { IfNone result (HasValue model.now.lines a → ⊥) }
{
    let a = value_width(model, a)?;
    Some(unary_fits(k, w, a))
}

// Whether there are as many digits as the sort has bits.
fn has_digits(digits: &[u8], w: u32) -> bool
    ensures { IsTrue result ↔ (length (bits_back digits.now) ≡ w) }
{
    digits.len() == w as usize
}

// Whether the widths of a value fit; none where an operand isn't known.
fn node_matches(model: &BtorModel, digits: &[u8], w: u32, node: Node) -> Option<bool>
    ensures known { IfSome result (λ fits. NodeKnown model.now.lines node × (IsTrue fits ↔ NodeMatches (node_digits node (bits_back digits.now)) model.now.lines w node)) }
    ensures unknown { IfNone result (NodeKnown model.now.lines node → ⊥) }
{
    match node {
        Node::Input => Some(true),
        Node::State => Some(true),
        Node::Const(_) => Some(has_digits(digits, w)),
        Node::Zero => Some(true),
        Node::One => Some(true),
        Node::Ones => Some(true),
        Node::Unary(k, a) => unary_matches(model, w, k, a),
        Node::Binary(k, a, b) => binary_matches(model, w, k, a, b),
        Node::Slice(a, upper, lower) => slice_matches(model, w, a, upper, lower),
        Node::Uext(a, by) => extension_matches(model, w, a, by),
        Node::Sext(a, by) => extension_matches(model, w, a, by),
        Node::Ite(s, a, b) => ite_matches(model, w, s, a, b),
    }
}

// Whether a value's widths fit; none where its sort or an operand isn't known.
fn value_matches(model: &BtorModel, digits: &[u8], sort: u32, node: Node) -> Option<bool>
    ensures known { IfSome result (λ fits. IsKnown model.now.lines (Value sort 0 node) × (IsTrue fits ↔ NodeMatches (node_digits node (bits_back digits.now)) model.now.lines (sort_at model.now.lines sort) node)) }
    ensures unknown { IfNone result (IsKnown model.now.lines (Value sort 0 node) → ⊥) }
{
    let width = sort_width(model, sort)?;
    node_matches(model, digits, width, node)
}

// Whether a state and a value are as wide as the sort; none where one of the three isn't known.
fn tie_matches(model: &BtorModel, sort: u32, state: u32, value: u32) -> Option<bool>
    ensures known { IfSome result (λ fits. IsKnown model.now.lines (Next sort state value) × (IsTrue fits ↔ ((state_at model.now.lines state ≡ sort_at model.now.lines sort) × (width_at model.now.lines value ≡ sort_at model.now.lines sort)))) }
    ensures unknown { IfNone result (IsKnown model.now.lines (Next sort state value) → ⊥) }
{
    let width = sort_width(model, sort)?;
    let state = state_width(model, state)?;
    let value = value_width(model, value)?;
    Some(state == width && value == width)
}

// Whether the value has one bit; none where it isn't known.
fn bit_matches(model: &BtorModel, of: u32) -> Option<bool>
    ensures known { IfSome result (λ fits. HasValue model.now.lines of × (IsTrue fits ↔ (width_at model.now.lines of ≡ 1))) }
    ensures unknown { IfNone result (HasValue model.now.lines of → ⊥) }
{
    let width = value_width(model, of)?;
    Some(width == 1)
}

// Whether a line's widths fit; none where what it reads isn't known.
pub(crate) fn line_matches(model: &BtorModel, said: &Said<'_>) -> Option<bool>
    ensures known { IfSome result (λ fits. IsKnown model.now.lines said.now.body × (IsTrue fits ↔ Matches (saying said.now).bits model.now.lines said.now.body)) }
    ensures unknown { IfNone result (IsKnown model.now.lines said.now.body → ⊥) }
{
    match said.body {
        Body::Sort(_) => Some(true),
        Body::Value(sort, _, node) => value_matches(model, said.digits, sort, node),
        Body::Init(sort, state, value) => tie_matches(model, sort, state, value),
        Body::Next(sort, state, value) => tie_matches(model, sort, state, value),
        Body::Bad(of) => bit_matches(model, of),
        Body::Constraint(of) => bit_matches(model, of),
    }
}

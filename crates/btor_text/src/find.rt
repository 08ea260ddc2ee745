// Lines of a model, found by their nids.

ghost use Rattle.std.specs.Prelude.{◌≡◌, ◌≢◌, ◌<◌, ◌≤◌, ℕ, All, IfNone, IfSome, length, slice_index_or};
ghost use Rattle.btor_core.specs.Shape.{at_nid, sort_at, state_at, width_at};
ghost use Rattle.btor_core.specs.declared.line.Body.{Body};
ghost use Rattle.btor_core.specs.declared.line.Line.{Line};
ghost use Rattle.btor_text.specs.Find.{IsSized, read_of};

use btor_core::line::{Body, Line, Node};
use btor_core::model::BtorModel;

// The place of the line with this nid, looked for by halving, as nids rise.
fn place_of(model: &BtorModel, nid: u32) -> Option<usize>
    ensures some { IfSome result (λ k. (k < length model.now.lines) × ((d : Line) → (slice_index_or model.now.lines k d).nid ≡ nid)) }
    ensures none { IfNone result (All (λ l. l.nid ≢ nid) model.now.lines) }
{
    model.promise();
    match model.lines().binary_search_by_key(&nid, |l: &Line| l.nid) {
        Ok(place) => Some(place),
        Err(_) => None,
    }
}

// What the line with this nid says.
fn body_at(model: &BtorModel, nid: u32) -> Option<Body>
    ensures read { (read : Body → ℕ) → at_nid read model.now.lines nid ≡ read_of read result }
    ensures sized { IfSome result IsSized }
{
    model.promise();
    match place_of(model, nid) {
        Some(place) => Some(model.lines()[place].body),
        None => None,
    }
}

// The width of the sort with this nid.
pub(crate) fn sort_width(model: &BtorModel, nid: u32) -> Option<u32>
    ensures some { IfSome result (λ w. (1 ≤ w) × (sort_at model.now.lines nid ≡ w)) }
    ensures none { IfNone result (sort_at model.now.lines nid ≡ 0) }
{
    match body_at(model, nid) {
        Some(Body::Sort(width)) => Some(width),
        _ => None,
    }
}

// The width of the value with this nid.
pub(crate) fn value_width(model: &BtorModel, nid: u32) -> Option<u32>
    ensures some { IfSome result (λ w. (1 ≤ w) × (width_at model.now.lines nid ≡ w)) }
    ensures none { IfNone result (width_at model.now.lines nid ≡ 0) }
{
    match body_at(model, nid) {
        Some(Body::Value(_, width, _)) => Some(width),
        _ => None,
    }
}

// The width of the state with this nid.
pub(crate) fn state_width(model: &BtorModel, nid: u32) -> Option<u32>
    ensures some { IfSome result (λ w. (1 ≤ w) × (state_at model.now.lines nid ≡ w)) }
    ensures none { IfNone result (state_at model.now.lines nid ≡ 0) }
{
    match body_at(model, nid) {
        Some(Body::Value(_, width, Node::State)) => Some(width),
        _ => None,
    }
}

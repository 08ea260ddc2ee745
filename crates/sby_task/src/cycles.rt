// The cycles at which a task looks.

ghost use Rattle.std.specs.Prelude.{◌≡◌, ℕ};
ghost use Rattle.sby_task.specs.Cycles.{fits, may_slice, span_of};

use sby_terms::{MAX_SLICES, Mode, Span};

const DEFAULT_DEPTH: u32 = 20;

fn may_slice(mode: Mode, skip: Option<u32>, stride: Option<u32>) -> bool
    ensures { result ≡ may_slice mode skip stride }
{
    match mode {
        Mode::Bmc => true,
        Mode::Prove | Mode::ProveInv | Mode::Cover => !(skip.is_some() || stride.is_some()),
    }
}

// Whether some cycle is left, and the slices are no more than they may be.
fn fits(span: &Span) -> bool
    ensures { result ≡ fits span.now }
{
    if span.skip >= span.depth {
        return false;
    }
    match span.stride {
        None => true,
        Some(stride) => {
            u64::from(span.depth - span.skip) <= u64::from(MAX_SLICES) * u64::from(stride)
        }
    }
}

/// The cycles that the options of a task give, where a task of this mode may have them.
pub fn span_of(
    mode: Mode,
    skip: Option<u32>,
    depth: Option<u32>,
    stride: Option<u32>,
) -> Option<Span>
    ensures { result ≡ span_of mode skip depth stride }
{
    let span = Span {
        skip: skip.unwrap_or(0),
        depth: depth.unwrap_or(DEFAULT_DEPTH),
        stride,
    };
    if may_slice(mode, skip, stride) && fits(&span) {
        Some(span)
    } else {
        None
    }
}

//! Jobs as encodings.

ghost use Rattle.std.specs.Prelude.{◌≡◌, ◌↔◌, ◌^◌, ◌<◌, ◌≤◌, IfErr, IfOk, true};
ghost use Rattle.sby_terms.specs.Span.{IsSpan};
ghost use Rattle.net_unroll.specs.Counting.{most_made};
ghost use Rattle.net_jobs.specs.Jobs.{IsOfSpan, asked_of as job_asked, cycles_of as job_cycles, job_encoding, job_made};

use bit_net::Net;
use net_unroll::{Asked, Cycles, Encoded, TooMany};
use sby_terms::{JobName, Span};
use std::alloc::{AllocError, Global};

// What a job asks of a net.
fn asked_of(job: JobName) -> Asked
    ensures { result ≡ job_asked job }
{
    match job {
        JobName::Base(_) | JobName::Step | JobName::Inv => Asked::Asserts,
        JobName::Cover(number) => Asked::Cover(number),
    }
}

/// Over which cycles a job asks a net.
pub fn cycles_of(job: JobName, span: Span) -> Cycles
    requires span { IsSpan span }
    requires job { IsOfSpan job span }
    requires high { span.depth ≤ 100000 }
    ensures { result ≡ job_cycles job span }
{
    match job {
        JobName::Base(slice) => Cycles {
            start: true,
            first: span.first(slice),
            end: span.first(slice),
            count: span.last(slice),
        },
        JobName::Step => Cycles {
            start: false,
            first: 0,
            end: span.depth,
            count: span.depth + 1,
        },
        JobName::Inv => unreachable!(),
        JobName::Cover(_) => Cycles {
            start: true,
            first: 0,
            end: 0,
            count: span.depth,
        },
    }
}

/// Whether counting alone tells that a job takes no more than 2^27 variables. Where it doesn't, a job may fit all the same: `encode` tells.
pub fn surely_fits(net: &Net, job: JobName, span: Span) -> bool
    requires span { IsSpan span }
    requires job { IsOfSpan job span }
    requires high { span.depth ≤ 100000 }
    ensures counted { (result ≡ true) ↔ (most_made net.now (job_cycles job span).count ≤ 2 ^ 27) }
    ensures fits { result ≡ true → job_made net.now job span ≤ 2 ^ 27 }
{
    net_unroll::what_is_made_is_counted();
    net_unroll::bound(net, cycles_of(job, span).count) <= 1 << 27
}

/// A job of a net, encoded: the value of a function of the net, the job and the span. Refused exactly where the gates of all cycles, shared
/// and folded, would take more than 2^27 variables.
pub fn encode(
    alloc: Global,
    net: &Net,
    job: JobName,
    span: Span,
) -> Result<Result<Encoded, TooMany>, AllocError>
    requires span { IsSpan span }
    requires job { IsOfSpan job span }
    requires high { span.depth ≤ 100000 }
    ensures encoded { IfOk result (λ r. IfOk r (λ e. e ≡ job_encoding net.now job span)) }
    ensures fits { IfOk result (λ r. IfOk r (λ _. job_made net.now job span ≤ 2 ^ 27)) }
    ensures too_many { IfOk result (λ r. IfErr r (λ _. 2 ^ 27 < job_made net.now job span)) }
{
    net_unroll::encode(alloc, net, asked_of(job), cycles_of(job, span))
}

/// Encodes a job again that is known to fit, as from an earlier call. It fails only where memory runs out.
pub fn encode_again(
    alloc: Global,
    net: &Net,
    job: JobName,
    span: Span,
) -> Result<Encoded, AllocError>
    requires span { IsSpan span }
    requires job { IsOfSpan job span }
    requires high { span.depth ≤ 100000 }
    requires fits { job_made net.now job span ≤ 2 ^ 27 }
    ensures { IfOk result (λ e. e ≡ job_encoding net.now job span) }
{
    net_unroll::encode_again(alloc, net, asked_of(job), cycles_of(job, span))
}

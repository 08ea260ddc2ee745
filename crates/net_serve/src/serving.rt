// Serving one connection.

ghost use Rattle.std.specs.Prelude.{◌≡◌, ◌≢◌, ◌⊎◌, ◌≤◌, [], List, ℕ, IfSome};
ghost use Rattle.sby_edge.specs.Cause.{Rose};
ghost use Rattle.net_link.specs.Frame.{CanAsk, Pieces, Unframed};
ghost use Rattle.net_serve.specs.Serving.{IsAnswer, IsServed, fault_line};
ghost use Rattle.net_serve.specs.declared.serving.Served.TheVariants as served;

use crate::answers::Answers;
use net_answer::{FramedSink, write_answer};
use net_link::Link;
use net_request::{Request, RequestFault, read_request};
use sby_edge::{Fail, Failed};
use std::alloc::Global;

/// What came of a connection.
#[derive(Clone, Copy, Debug, PartialEq, Eq)]
pub enum Served {
    /// The request was answered.
    Answered,
    /// The bytes are no request, and the answer `c fault: frame` and a line feed says so.
    BadFrame,
    /// A call of the link failed; its count of faults rose.
    Failed,
    /// Out of memory.
    Memory,
}

// Says that the bytes are no request.
#[tactic(auto, using(crate::proofs::Written::wrote_first))]
fn refuse<L: Link>(link: &mut L) -> Served
    requires { IfSome (L.written link.old) (λ bytes. bytes ≡ []) }
    ensures bad_frame { result ≡ served.BadFrame → IfSome (L.written link.new) (Pieces fault_line) }
    ensures failed { result ≡ served.Failed → Rose (L.faults link.old) (L.faults link.new) }
    ensures refused { (result ≡ served.BadFrame) ⊎ (result ≡ served.Failed) }
    ensures later { L.faults link.old ≤ L.faults link.new }
{
    match write_answer(link, b"c fault: frame\n") {
        Ok(()) => Served::BadFrame,
        Err(Failed) => Served::Failed,
    }
}

// Answers a request.
#[tactic(auto, using(crate::proofs::Written::answered_so))]
fn answer_request<L: Link + Drop, A: Answers>(
    alloc: Global,
    link: L,
    request: Request,
    answers: &A,
) -> (L, Served)
    requires can_ask { CanAsk request.budget request.job.items }
    requires written { IfSome (L.written link) (λ bytes. bytes ≡ []) }
    ensures answered { result.1 ≡ served.Answered → IfSome (L.written result.0) (IsAnswer (A.may_answer answers.now request.budget request.job.items)) }
    ensures failed { result.1 ≡ served.Failed → Rose (L.faults link) (L.faults result.0) }
    ensures framed { result.1 ≢ served.BadFrame }
    ensures later { L.faults link ≤ L.faults result.0 }
{
    let mut sink = match FramedSink::new(alloc, link) {
        Ok(sink) => sink,
        Err(link) => return (link, Served::Memory),
    };
    match answers.answer(alloc, request.job, request.budget, &mut sink) {
        Ok(()) => match sink.finish() {
            (link, Ok(())) => (link, Served::Answered),
            (link, Err(Failed)) => (link, Served::Failed),
        },
        Err(Fail::Failed) => (sink.into_link(), Served::Failed),
        Err(Fail::Memory) => (sink.into_link(), Served::Memory),
    }
}

/// Serves a connection to which nothing was written: reads its request and writes the answer. Gives the link back, for its end.
#[tactic(auto, using(crate::proofs::Written::served_so))]
pub fn serve_conn<L: Link + Drop, A: Answers>(
    alloc: Global,
    mut link: L,
    answers: &A,
) -> (L, Served)
    requires { IfSome (L.written link) (λ bytes. bytes ≡ []) }
    ensures answered { result.1 ≡ served.Answered → IsServed (A.may_answer answers.now) (L.left link) (L.written result.0) }
    ensures bad_frame { result.1 ≡ served.BadFrame → IfSome (L.left link) Unframed × IfSome (L.written result.0) (Pieces fault_line) }
    ensures failed { result.1 ≡ served.Failed → Rose (L.faults link) (L.faults result.0) }
    ensures later { L.faults link ≤ L.faults result.0 }
{
    match read_request(alloc, &mut link) {
        Ok(request) => answer_request(alloc, link, request, answers),
        Err(RequestFault::BadFrame) => {
            let served = refuse(&mut link);
            (link, served)
        }
        Err(RequestFault::Failed) => (link, Served::Failed),
        Err(RequestFault::Memory) => (link, Served::Memory),
    }
}

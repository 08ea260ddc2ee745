// Serving connections.

ghost use Rattle.std.specs.Prelude.{◌≡◌, ◌≢◌, ◌<◌, IfOk, OnErr, Err};
ghost use Rattle.sby_edge.specs.Cause.{Rose};
ghost use Rattle.sby_edge.specs.declared.outside.Fail.TheVariants as fail;
ghost use Rattle.net_serve.specs.declared.serving.Served.TheVariants as came;
ghost use Rattle.cdcl_run.specs.Serving.{Connection, IsServing, Passes};
ghost use Rattle.cdcl_run.specs.Stream.{exit_of};

use crate::run::{OUT_OF_MEMORY, write_stream};
use net_link::Door;
use net_serve::{Answers, Served, serve_conn};
use sby_edge::{Fail, Sink};
use std::alloc::Global;

// Answers a job with the stream that a file of its bytes gives, without hints.
struct Engine;

impl Answers for Engine {
    ghost use Rattle.std.specs.Prelude.{false};
    ghost use Rattle.cdcl_run.specs.Stream.{IsStream};

    ghost may_answer = { λ _. IsStream false };

    fn answer<S: Sink>(
        &self,
        alloc: Global,
        job: Vec<u8>,
        budget: u64,
        sink: &mut S,
    ) -> Result<(), Fail> {
        match write_stream(alloc, job, false, budget, sink) {
            Ok(_) => Ok(()),
            Err(fault) => Err(fault),
        }
    }
}

// Serves the next connection.
#[tactic(auto, using(crate::proofs::Connections::stands_as))]
fn serve_next<D: Door>(alloc: Global, door: &mut D) -> Result<Served, Fail>
    ensures passes { IfOk result (λ served. (c : Connection) × (c.served ≡ served) × Passes
        (record { listens_at = D.listens_at door.old; coming = D.coming door.old; came_back = D.came_back door.old; backs = D.backs door.old; faults = D.faults door.old })
        (record { listens_at = D.listens_at door.new; coming = D.coming door.new; came_back = D.came_back door.new; backs = D.backs door.new; faults = D.faults door.new }) c) }
    ensures listens { OnErr result (D.listens_at door.new ≡ D.listens_at door.old) }
    ensures came_back { OnErr result (D.came_back door.new ≡ D.came_back door.old) }
    ensures backs { OnErr result (D.backs door.new ≡ D.backs door.old) }
    ensures failed { result ≡ Err fail.Failed → Rose (D.faults door.old) (D.faults door.new) }
    ensures memory { result ≡ Err fail.Memory → D.faults door.new ≡ D.faults door.old }
{
    let link = door.next(alloc)?;
    let (link, served) = serve_conn(alloc, link, &Engine);
    match door.back(link) {
        Ok(()) => Ok(served),
        Err(_) => Err(Fail::Memory),
    }
}

// The exit status after one more connection.
fn status_after(status: u8, served: Served) -> u8
    ensures memory { served ≡ came.Memory → result ≡ 32 }
    ensures other { served ≢ came.Memory → result ≡ status }
{
    match served {
        Served::Memory => OUT_OF_MEMORY,
        _ => status,
    }
}

// Serves that many connections that come to an address. Returns the exit status.
#[tactic(auto, using(crate::proofs::Connections::passed_push, crate::proofs::Connections::exit_push, crate::proofs::Connections::no_exit, crate::proofs::Connections::shut, crate::proofs::Connections::unopened))]
pub(crate) fn serve_all<D: Door>(
    alloc: Global,
    address: &str,
    count: u32,
    door: &mut D,
) -> Result<u8, Fail>
    requires { 0 < count }
    ensures { IsServing
        (record { listens_at = D.listens_at door.old; coming = D.coming door.old; came_back = D.came_back door.old; backs = D.backs door.old; faults = D.faults door.old })
        (record { listens_at = D.listens_at door.new; coming = D.coming door.new; came_back = D.came_back door.new; backs = D.backs door.new; faults = D.faults door.new }) address.now count (exit_of result) }
{
    door.listen(alloc, address)?;
    let mut status = 0;
    for _ in 0..count {
        let served = serve_next(alloc, door)?;
        status = status_after(status, served);
    }
    Ok(status)
}

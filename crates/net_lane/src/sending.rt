// A job's file on its way to an engine: it is read once to count its bytes, and again to send them.

ghost use Rattle.std.specs.Prelude.{◌≡◌, ◌≤◌, IfOk, OnErr, OnOk, Err, length};
ghost use Rattle.sby_edge.specs.Cause.{Rose};
ghost use Rattle.net_link.specs.Frame.{request};
ghost use Rattle.net_link.specs.Link.{Grew};
ghost use Rattle.net_lane.specs.Asked.{IsCount};
ghost use Rattle.sby_edge.specs.declared.outside.Fail.TheVariants as fail;

use net_link::Link;
use net_request::write_request;
use sby_edge::{Fail, Failed, FileReader, JobFile, Source, fill};
use std::alloc::{AllocError, Global};

// The most bytes of a job.
const MAX_JOB: u64 = 1 << 32;

// How many bytes of a job are counted at once.
const PIECE: usize = 4096;

// How many bytes a source gives, if a job may have that many.
fn count_source<S: Source>(source: &mut S) -> Option<u64>
    ensures { IsCount (S.rest source.old) result }
{
    let mut buffer = [0u8; PIECE];
    let mut count = 0u64;
    loop {
        let given = fill(source, &mut buffer);
        count += given as u64;
        if count > MAX_JOB {
            return None;
        }
        if given < buffer.len() {
            return Some(count);
        }
    }
}

// Counts the bytes of a file.
#[derive(Drop)]
struct Counter {
    count: Option<u64>,
}

impl FileReader for Counter {
    ghost has_read = { λ _ bytes counter. IsCount bytes counter.count };

    fn read<S: Source>(&mut self, source: &mut S) {
        self.count = count_source(source);
    }
}

// How many bytes a file has, if a job may have that many.
pub(crate) fn count_file<F: JobFile>(alloc: Global, file: &F) -> Result<Option<u64>, AllocError>
    ensures { IfOk result (IsCount (F.bytes file.now)) }
{
    let mut counter = Counter { count: None };
    file.read_by(alloc, &mut counter)?;
    Ok(counter.count)
}

// Writes the request of a job to a link while the job's file is read.
#[derive(Drop)]
struct Sender<L: Link + Drop> {
    link: L,
    budget: u64,
    // How many bytes the job has.
    count: u64,
    sent: Result<(), Failed>,
}

impl<L: Link + Drop> FileReader for Sender<L> {
    ghost has_read = { λ before bytes now. (before.count ≡ length bytes → OnOk now.sent (Grew (L.written before.link) (L.written now.link) (request before.budget bytes)))
        × OnOk now.sent (L.faults now.link ≡ L.faults before.link)
        × OnErr now.sent (Rose (L.faults before.link) (L.faults now.link))
        × (L.left now.link ≡ L.left before.link) };

    fn read<S: Source>(&mut self, source: &mut S) {
        self.sent = write_request(&mut self.link, self.budget, self.count, source);
    }
}

// Writes the request of a job of `count` bytes, which its file gives, and answers the link. Where that fails, a call of the link did.
pub(crate) fn send_file<L: Link + Drop, F: JobFile>(
    alloc: Global,
    link: L,
    budget: u64,
    count: u64,
    file: &F,
) -> Result<L, Fail>
    requires { count ≡ length (F.bytes file.now) }
    ensures written { IfOk result (λ now. Grew (L.written link) (L.written now) (request budget (F.bytes file.now))) }
    ensures left { IfOk result (λ now. L.left now ≡ L.left link) }
    ensures still { IfOk result (λ now. L.faults now ≡ L.faults link) }
    ensures failed { result ≡ Err fail.Failed → (now : L) × (L.left now ≡ L.left link) × Rose (L.faults link) (L.faults now) }
{
    let mut sender = Sender {
        link,
        budget,
        count,
        sent: Ok(()),
    };
    file.read_by(alloc, &mut sender)?;
    match sender.sent {
        Ok(()) => Ok(sender.link),
        Err(Failed) => Err(Fail::Failed),
    }
}

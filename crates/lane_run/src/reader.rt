// The reader of a job: it takes what the child writes, and has it judged.

ghost use Rattle.std.specs.Prelude.{◌≡◌, ◌≢◌, ◌⊎◌, ◌+◌, ◌<◌, ◌≤◌, ◌^◌, [], ◌++◌, length, vec_len, IfOk, Option};
ghost use Rattle.lane_run.specs.Judging.{Says, Within};
ghost use Rattle.lane_run.specs.Reading.{Comes, EnteredAs, HasRead, NoneLeft, ReadSoFar, ReadsOn, bytes_filed, bytes_read, empty_read, empty_reads, no_byte};
ghost use Rattle.race_core.specs.Parts.{by_of, reader_of, reader_from};
ghost use Rattle.race_core.specs.declared.event.Judged.TheVariants as judged;
ghost use Rattle.race_core.specs.declared.part.By.TheVariants as by;
ghost use Rattle.race_core.specs.declared.part.Reader.TheVariants as reader;
ghost use Rattle.sby_edge.specs.Child.{PipeOf};

use crate::child_judge::ChildJudge;
use crate::entering::enter;
use race_core::{By, EventList, Judged, LaneEvent, Reader};
use sby_edge::Pipe;
use sby_terms::Settled;
use std::alloc::{AllocError, Global};
use std::sync::Wait;

// How many bytes a read asks for.
const PIECE: usize = 65536;

// How many entries a read may make: its own, a settle, and out of memory.
const ROOM: usize = 3;

fn by_bytes(bytes: u64) -> By
    ensures by { result ≡ by_of bytes }
    ensures output { result ≢ by.File }
{
    if bytes == 0 { By::Close } else { By::Bytes }
}

// A finding that was read, with a copy for the list.
#[tactic(auto, using(crate::proofs::Readers::read_on))]
fn enter_found<T: Settled + Drop>(events: &mut EventList<T>, bytes: u64, value: T) -> Reader<T>
    requires room { 3 ≤ events.old.room }
    requires reads { ReadsOn (reader_from reader.Fresh events.old.events) }
    ensures part { result ≡ reader_from reader.Fresh events.new.events }
    ensures ended { HasRead result }
    ensures entered { EnteredAs (by_of bytes) (judged.Found value) result }
    ensures bytes { bytes_read events.new.events ≡ bytes_read events.old.events + bytes }
    ensures filed { bytes_filed events.new.events ≡ bytes_filed events.old.events }
    ensures empty { empty_reads events.new.events ≡ empty_reads events.old.events + no_byte bytes }
    ensures room { 1 ≤ events.new.room }
{
    let by = by_bytes(bytes);
    match value.copy() {
        Ok(copied) => {
            enter(
                events,
                LaneEvent::Read {
                    bytes,
                    progress: Judged::Found(copied),
                },
            );
            Reader::Holding { value, by }
        }
        Err(_) => enter_unjudged(events, bytes),
    }
}

// A read that wasn't judged because memory ran out.
#[tactic(auto, using(crate::proofs::Readers::read_on))]
fn enter_unjudged<T: Drop>(events: &mut EventList<T>, bytes: u64) -> Reader<T>
    requires room { 3 ≤ events.old.room }
    requires reads { ReadsOn (reader_from reader.Fresh events.old.events) }
    ensures part { result ≡ reader_from reader.Fresh events.new.events }
    ensures ended { HasRead result }
    ensures entered { result ≡ reader.Short }
    ensures bytes { bytes_read events.new.events ≡ bytes_read events.old.events + bytes }
    ensures filed { bytes_filed events.new.events ≡ bytes_filed events.old.events }
    ensures empty { empty_reads events.new.events ≡ empty_reads events.old.events + no_byte bytes }
    ensures room { 1 ≤ events.new.room }
{
    enter(
        events,
        LaneEvent::Read {
            bytes,
            progress: Judged::Unjudged,
        },
    );
    enter(events, LaneEvent::ReaderMemory);
    Reader::Short
}

// A read, and what it was judged as.
#[tactic(auto, using(crate::proofs::Readers::read_on))]
fn enter_read<T: Settled + Drop>(
    events: &mut EventList<T>,
    bytes: u64,
    progress: Judged<T>,
) -> Reader<T>
    requires room { 3 ≤ events.old.room }
    requires reads { ReadsOn (reader_from reader.Fresh events.old.events) }
    ensures part { result ≡ reader_from reader.Fresh events.new.events }
    ensures ended { ReadsOn result ⊎ HasRead result }
    ensures entered { EnteredAs (by_of bytes) progress result }
    ensures bytes { bytes_read events.new.events ≡ bytes_read events.old.events + bytes }
    ensures filed { bytes_filed events.new.events ≡ bytes_filed events.old.events }
    ensures empty { empty_reads events.new.events ≡ empty_reads events.old.events + empty_read bytes progress }
    ensures unended { ReadsOn result → empty_read bytes progress ≡ 0 }
    ensures room { 1 ≤ events.new.room }
{
    let by = by_bytes(bytes);
    let (entry, part) = match progress {
        Judged::Found(value) => return enter_found(events, bytes, value),
        Judged::Unjudged => return enter_unjudged(events, bytes),
        Judged::More if bytes == 0 => (Judged::More, Reader::Asking),
        Judged::More => (Judged::More, Reader::Reading),
        Judged::Unknown => (Judged::Unknown, Reader::Unknown { by }),
        Judged::Bad { no, at } => (Judged::Bad { no, at }, Reader::Bad { no, at, by }),
        Judged::Failed => (Judged::Failed, Reader::Failed),
    };
    enter(
        events,
        LaneEvent::Read {
            bytes,
            progress: entry,
        },
    );
    part
}

// One read.
fn read_once<P: Pipe, S: ChildJudge<T>, T: Settled + Drop>(
    alloc: Global,
    pipe: &mut P,
    judge: &mut S,
    buffer: &mut [u8],
    events: &mut EventList<T>,
) -> Reader<T>
    requires buffer { (0 < length buffer.old) × (length buffer.old < 2 ^ 32) }
    requires room { 3 ≤ events.old.room }
    requires reads { ReadsOn (reader_from reader.Fresh events.old.events) }
    requires goes_on { S.goes_on judge.old }
    requires unended { empty_reads events.old.events ≡ 0 }
    ensures part { result ≡ reader_from reader.Fresh events.new.events }
    ensures unended { ReadsOn result → empty_reads events.new.events ≡ 0 }
    ensures ended { ReadsOn result ⊎ HasRead result }
    ensures room { 1 ≤ events.new.room }
    ensures goes_on { ReadsOn result → S.goes_on judge.new × Within (S.stands judge.new) (S.stands judge.old) × Within (S.ends judge.new) (S.ends judge.old) }
    ensures awaits { result ≡ reader.Asking → S.awaits judge.new }
    ensures proves { Within (S.proves judge.new) (S.proves judge.old) }
    ensures most { (S.most judge.new ≡ S.most judge.old) × (ReadsOn result → length (S.taken judge.new) ≤ S.most judge.old) }
    ensures piece { length (S.taken judge.new) ≤ length (S.taken judge.old) + length buffer.old }
    ensures buffer { length buffer.new ≡ length buffer.old }
    ensures so_far { (start : Option PipeOf) → ReadSoFar start (P.told pipe.old) (S.taken judge.old) events.old.events
        → ReadSoFar start (P.told pipe.new) (S.taken judge.new) events.new.events }
    ensures failed { result ≡ reader.Failed → 0 < P.faults pipe.new }
    ensures comes { Comes (S.stands judge.old) (S.ends judge.old) (S.proves judge.old) (NoneLeft (P.told pipe.new)) (S.taken judge.new) [] result }
{
    let Ok(count) = pipe.read(buffer) else {
        return enter_read(events, 0, Judged::Failed);
    };
    let progress = if count == 0 {
        judge.end(alloc)
    } else {
        judge.feed(alloc, buffer.split_at(count).0)
    };
    enter_read(events, count as u64, progress)
}

// A buffer of this many bytes.
fn buffer_of(alloc: Global, size: usize) -> Result<Vec<u8>, AllocError>
    ensures { IfOk result (λ buffer. vec_len buffer ≡ size) }
{
    Vec::from_elem(alloc, 0u8, size)
}

// One read, with the room for what it may enter.
fn read_within<P: Pipe, S: ChildJudge<T>, T: Settled + Drop>(
    alloc: Global,
    pipe: &mut P,
    judge: &mut S,
    buffer: &mut [u8],
    events: &mut EventList<T>,
) -> Reader<T>
    requires buffer { (0 < length buffer.old) × (length buffer.old < 2 ^ 32) }
    requires room { 1 ≤ events.old.room }
    requires reads { ReadsOn (reader_from reader.Fresh events.old.events) }
    requires goes_on { S.goes_on judge.old }
    requires unended { empty_reads events.old.events ≡ 0 }
    ensures part { result ≡ reader_from reader.Fresh events.new.events }
    ensures unended { ReadsOn result → empty_reads events.new.events ≡ 0 }
    ensures ended { ReadsOn result ⊎ HasRead result }
    ensures room { (result ≡ reader.Short) ⊎ (1 ≤ events.new.room) }
    ensures goes_on { ReadsOn result → S.goes_on judge.new × Within (S.stands judge.new) (S.stands judge.old) × Within (S.ends judge.new) (S.ends judge.old) }
    ensures awaits { result ≡ reader.Asking → S.awaits judge.new }
    ensures proves { Within (S.proves judge.new) (S.proves judge.old) }
    ensures most { (S.most judge.new ≡ S.most judge.old) × (ReadsOn result → length (S.taken judge.new) ≤ S.most judge.old) }
    ensures piece { length (S.taken judge.new) ≤ length (S.taken judge.old) + length buffer.old }
    ensures buffer { length buffer.new ≡ length buffer.old }
    ensures so_far { (start : Option PipeOf) → ReadSoFar start (P.told pipe.old) (S.taken judge.old) events.old.events
        → ReadSoFar start (P.told pipe.new) (S.taken judge.new) events.new.events }
    ensures failed { result ≡ reader.Failed → 0 < P.faults pipe.new }
    ensures comes { Comes (S.stands judge.old) (S.ends judge.old) (S.proves judge.old) (NoneLeft (P.told pipe.new)) (S.taken judge.new) [] result }
{
    if events.take_room(ROOM).is_err() {
        enter(events, LaneEvent::ReaderMemory);
        return Reader::Short;
    }
    read_once(alloc, pipe, judge, buffer, events)
}

// Reads until the output is judged, ends or can't be read, or memory runs out.
pub(crate) fn read_out<R: Wait, P: Pipe, S: ChildJudge<T>, T: Settled + Drop>(
    rt: &R,
    alloc: Global,
    pipe: &mut P,
    judge: &mut S,
    events: &mut EventList<T>,
) -> Reader<T>
    requires fresh { (S.taken judge.old ≡ []) × (events.old.events ≡ []) }
    requires room { 1 ≤ events.old.room }
    requires goes_on { S.goes_on judge.old }
    ensures part { result ≡ reader_of (record { reader = events.new.events; keeper = [] }) }
    ensures room { (result ≡ reader.Short) ⊎ (1 ≤ events.new.room) }
    ensures has_read { HasRead result }
    ensures awaits { result ≡ reader.Asking → S.awaits judge.new }
    ensures proves { Within (S.proves judge.new) (S.proves judge.old) }
    ensures most { length (S.taken judge.new) ≤ S.most judge.old + 2 ^ 16 }
    ensures so_far { ReadSoFar (P.told pipe.old) (P.told pipe.new) (S.taken judge.new) events.new.events }
    ensures failed { result ≡ reader.Failed → 0 < P.faults pipe.new }
    ensures comes { Comes (S.stands judge.old) (S.ends judge.old) (S.proves judge.old) (NoneLeft (P.told pipe.new)) (S.taken judge.new) [] result }
{
    let Ok(mut buffer) = buffer_of(alloc, PIECE) else {
        enter(events, LaneEvent::ReaderMemory);
        return Reader::Short;
    };
    for _ in rt.forever() {
        let part = read_within(alloc, pipe, judge, &mut buffer, events);
        match part {
            Reader::Fresh | Reader::Reading => {}
            part => return part,
        }
    }
    unreachable!()
}

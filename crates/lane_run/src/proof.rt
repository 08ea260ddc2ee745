// The proof file of a child that is over: it is judged piece by piece, with the keeper beside it.

ghost use Rattle.std.specs.Prelude.{◌≡◌, ◌≢◌, ◌⊎◌, ◌+◌, ◌<◌, ◌≤◌, [], ◌++◌, Some, IfNone, IfSome, IsSome, length, true};
ghost use Rattle.std.specs.Option.{MatchOption};
ghost use Rattle.std.specs.Result.{MatchResult};
ghost use Rattle.lane_run.specs.Judging.{Says, Within};
ghost use Rattle.lane_run.specs.Keeping.{EndsChild, IsOfCell, Keeps, TakesTurns};
ghost use Rattle.lane_run.specs.Reading.{FiledAs, bytes_filed, bytes_read, empty_reads, got_bytes};
ghost use Rattle.lane_run.specs.Sides.{Asks, JudgedFile, JudgedOn};
ghost use Rattle.race_cells.specs.Notes.{AreNotesOf};
ghost use Rattle.race_core.specs.Asking.{terms_of};
ghost use Rattle.race_core.specs.Parts.{keeper_from, place_from, reader_from};
ghost use Rattle.race_core.specs.declared.event.Judged.TheVariants as judged;
ghost use Rattle.race_core.specs.declared.part.Keeper.TheVariants as keeper;
ghost use Rattle.race_core.specs.declared.part.Place.TheVariants.{Away};
ghost use Rattle.race_core.specs.declared.part.Reader.TheVariants as reader;
ghost use Rattle.race_core.specs.declared.part.Reason.TheVariants as reason;
ghost use Rattle.sby_edge.specs.Cause.{Rose};

use crate::child_judge::{ChildJudge, ForJob};
use crate::entering::enter;
use crate::keeper::Watch;
use crate::life::{Side, run_beside};
use crate::over::{Asked, enter_memory};
use lane_berth::Berth;
use race_cells::Notes;
use race_core::{By, EventList, Judged, LaneEvent, Reader, Reason};
use sby_edge::{Clock, Exit, Fail, Failed, Got, Hold, Launch};
use sby_terms::Settled;
use std::alloc::Global;
use std::sync::Wait;
use std::sync::atomic::{AtomicBool, Ordering};
use std::thread::Threads;

// How many bytes are judged between two looks at whether the keeper has ended.
const PIECE: usize = 65536;

// The hold of a child that is over: nothing is left to poll or to kill.
#[derive(Drop)]
struct OverHold;

impl Hold for OverHold {
    ghost use Rattle.std.specs.Prelude.{Some, true};
    ghost use Rattle.sby_edge.specs.declared.script.Exit.TheVariants.{Code};

    ghost killed = { λ _. Some 0 };

    ghost is_reaped = { λ _. true };

    ghost exit = { λ _. Some (Code 0) };

    ghost faults = { λ _. 0 };

    fn poll(&mut self) -> Result<Option<Exit>, Failed> {
        Ok(None)
    }

    fn kill(&mut self) -> Result<(), Failed> {
        Ok(())
    }

    fn reap(&mut self) -> Result<Exit, Failed> {
        Ok(Exit::Code(0))
    }
}

// Judges a proof file from here to its end. Answers what is left of it where the keeper has ended.
fn judge_pieces<'p, S: ChildJudge<T>, T: Settled>(
    alloc: Global,
    has_ended: &AtomicBool,
    judge: &mut S,
    proof: &'p [u8],
) -> Result<Judged<T>, &'p [u8]>
    requires { S.proving judge.old }
    ensures { MatchResult result (λ p. (p ≢ judged.More) × Says (S.proves judge.old) (S.proved judge.old ++ proof.now) p)
        (λ left. S.proving judge.new × (S.proved judge.new ++ left.now ≡ S.proved judge.old ++ proof.now) × Within (S.proves judge.new) (S.proves judge.old)) }
{
    let mut left = proof;
    while !left.is_empty() {
        if has_ended.load(Ordering::SeqCst) {
            return Err(left);
        }
        let (piece, rest) = left.split_at(left.len().min(PIECE));
        match judge.feed_proof(alloc, piece) {
            Judged::More => left = rest,
            said => return Ok(said),
        }
    }
    Ok(judge.end_proof(alloc))
}

// The judging of a proof file.
struct ProofSide<'f, 'p, S, T> {
    alloc: Global,
    has_ended: &'f AtomicBool,
    judge: S,
    left: &'p [u8],
    said: Option<Judged<T>>,
}

impl<'f, 'p, S: ChildJudge<T>, T: Settled + Drop> Side for ProofSide<'f, 'p, S, T> {
    type Output = ();

    ghost can_run = { λ s. S.proving s.judge };

    ghost runs = { λ before _ now. JudgedOn (S.proves before.judge) (S.proves now.judge) (S.proving now.judge) (S.proved before.judge ++ before.left.now) (S.proved now.judge ++ now.left.now) now.said };

    fn run(&mut self) {
        self.said = match judge_pieces(self.alloc, self.has_ended, &mut self.judge, self.left) {
            Ok(said) => Some(said),
            Err(left) => {
                self.left = left;
                None
            }
        };
        self.has_ended.store(true, Ordering::SeqCst);
    }
}

// The result of a stint of judging: what the file is judged as, or what is left of it; and why the keeper ended the job, if it did.
struct Stint<'p, S, T> {
    judge: S,
    left: &'p [u8],
    said: Option<Judged<T>>,
    why: Option<Reason<T>>,
}

// Judges the rest of a proof file with the keeper beside it.
fn judge_stint<
    'p,
    R: Threads + Wait + Sync,
    S: ChildJudge<T>,
    J: ForJob<T> + Sync,
    T: Settled + Drop + Send + Sync,
    C: Clock,
>(
    rt: &R,
    alloc: Global,
    watch: &Watch<'_, J, T, C>,
    proof: &'p [u8],
    judge: S,
    notes: &mut Notes<T>,
    keeper_events: &mut EventList<T>,
) -> Stint<'p, S, T>
    requires proving { S.proving judge }
    requires cell { watch.now.terms.now.cell < length watch.now.cells.now }
    requires other { IfSome watch.now.other (λ o. o.0 < length watch.now.cells.now) }
    requires notes { AreNotesOf watch.now.cells.now notes.old }
    requires keeper_room { 2 ≤ keeper_events.old.room }
    requires turns { TakesTurns (keeper_from (terms_of T.job T.answer watch.now.terms.now) keeper.Fresh keeper_events.old.events) }
    ensures judged { JudgedOn (S.proves judge) (S.proves result.judge) (S.proving result.judge) (S.proved judge ++ proof.now) (S.proved result.judge ++ result.left.now) result.said }
    ensures keeper_room { IfNone result.why (2 ≤ keeper_events.new.room) }
    ensures kept { MatchOption result.why (TakesTurns (keeper_from (terms_of T.job T.answer watch.now.terms.now) keeper.Fresh keeper_events.new.events)) (λ why. keeper_from (terms_of T.job T.answer watch.now.terms.now) keeper.Fresh keeper_events.new.events ≡ keeper.Killed why) }
    ensures place { place_from Away keeper_events.new.events ≡ place_from Away keeper_events.old.events }
    ensures keeps { Keeps (IsOfCell T.problem T.job (J.problem watch.now.problem.now) watch.now.terms.now watch.now.other) (C.may_read watch.now.clock.now) notes.old notes.new keeper_events.old.events keeper_events.new.events }
    ensures reason { IfSome result.why (λ why. EndsChild why × (why ≢ reason.Fault)) }
{
    let has_ended = AtomicBool::new(false);
    let mut side = ProofSide {
        alloc,
        has_ended: &has_ended,
        judge,
        left: proof,
        said: None,
    };
    let ((), kept) = run_beside(
        rt,
        &mut side,
        watch,
        &has_ended,
        &mut OverHold,
        notes,
        keeper_events,
        0,
    );
    let ProofSide {
        alloc: _,
        has_ended: _,
        judge,
        left,
        said,
    } = side;
    Stint {
        judge,
        left,
        said,
        why: kept.why,
    }
}

// What a proof file is judged as, unless its keeper ended the judging first; and why the keeper did, if it did.
#[derive(Drop)]
struct Beside<T> {
    said: Option<Judged<T>>,
    why: Option<Reason<T>>,
}

// Judges a proof file with the keeper beside it. A stint ends with the file or by the keeper.
fn judge_beside<
    R: Threads + Wait + Sync,
    S: ChildJudge<T> + Drop,
    J: ForJob<T> + Sync,
    T: Settled + Drop + Send + Sync,
    C: Clock,
>(
    rt: &R,
    alloc: Global,
    watch: &Watch<'_, J, T, C>,
    proof: &[u8],
    judge: S,
    notes: &mut Notes<T>,
    keeper_events: &mut EventList<T>,
) -> Beside<T>
    requires proving { S.proving judge × (S.proved judge ≡ []) }
    requires cell { watch.now.terms.now.cell < length watch.now.cells.now }
    requires other { IfSome watch.now.other (λ o. o.0 < length watch.now.cells.now) }
    requires notes { AreNotesOf watch.now.cells.now notes.old }
    requires keeper_room { 2 ≤ keeper_events.old.room }
    requires turns { TakesTurns (keeper_from (terms_of T.job T.answer watch.now.terms.now) keeper.Fresh keeper_events.old.events) }
    ensures said { MatchOption result.said (IsSome result.why) (λ p. (p ≢ judged.More) × Says (S.proves judge) proof.now p) }
    ensures kept { MatchOption result.why (TakesTurns (keeper_from (terms_of T.job T.answer watch.now.terms.now) keeper.Fresh keeper_events.new.events)) (λ why. keeper_from (terms_of T.job T.answer watch.now.terms.now) keeper.Fresh keeper_events.new.events ≡ keeper.Killed why) }
    ensures place { place_from Away keeper_events.new.events ≡ place_from Away keeper_events.old.events }
    ensures keeps { Keeps (IsOfCell T.problem T.job (J.problem watch.now.problem.now) watch.now.terms.now watch.now.other) (C.may_read watch.now.clock.now) notes.old notes.new keeper_events.old.events keeper_events.new.events }
    ensures reason { IfSome result.why (λ why. EndsChild why × (why ≢ reason.Fault)) }
{
    let mut on = judge;
    let mut rest = proof;
    for _ in rt.forever() {
        let Stint {
            judge,
            left,
            said,
            why,
        } = judge_stint(rt, alloc, watch, rest, on, notes, keeper_events);
        if said.is_some() || why.is_some() {
            return Beside { said, why };
        }
        on = judge;
        rest = left;
    }
    unreachable!()
}

// What the proof file was judged as.
fn enter_file<T: Settled + Drop>(
    events: &mut EventList<T>,
    bytes: u64,
    progress: Judged<T>,
) -> Reader<T>
    requires room { 2 ≤ events.old.room }
    requires part { reader_from reader.Fresh events.old.events ≡ reader.Asking }
    requires whole { progress ≢ judged.More }
    ensures part { result ≡ reader_from reader.Fresh events.new.events }
    ensures room { (result ≡ reader.Short) ⊎ (1 ≤ events.new.room) }
    ensures entered { FiledAs progress result }
    ensures read { bytes_read events.new.events ≡ bytes_read events.old.events }
    ensures empty { empty_reads events.new.events ≡ empty_reads events.old.events }
    ensures filed { bytes_filed events.new.events ≡ bytes_filed events.old.events + bytes }
{
    let by = By::File;
    let (entry, part) = match progress {
        Judged::Found(value) => match value.copy() {
            Ok(copied) => (Judged::Found(copied), Reader::Holding { value, by }),
            Err(_) => return enter_unjudged(events, bytes),
        },
        Judged::Unjudged => return enter_unjudged(events, bytes),
        Judged::More => unreachable!(),
        Judged::Unknown => (Judged::Unknown, Reader::Unknown { by }),
        Judged::Bad { no, at } => (Judged::Bad { no, at }, Reader::Bad { no, at, by }),
        Judged::Failed => (Judged::Failed, Reader::Failed),
    };
    enter(
        events,
        LaneEvent::File {
            bytes,
            progress: entry,
        },
    );
    part
}

// A proof file that wasn't judged because memory ran out.
fn enter_unjudged<T: Drop>(events: &mut EventList<T>, bytes: u64) -> Reader<T>
    requires room { 2 ≤ events.old.room }
    requires part { reader_from reader.Fresh events.old.events ≡ reader.Asking }
    ensures part { result ≡ reader_from reader.Fresh events.new.events }
    ensures short { result ≡ reader.Short }
    ensures read { bytes_read events.new.events ≡ bytes_read events.old.events }
    ensures empty { empty_reads events.new.events ≡ empty_reads events.old.events }
    ensures filed { bytes_filed events.new.events ≡ bytes_filed events.old.events + bytes }
{
    enter(
        events,
        LaneEvent::File {
            bytes,
            progress: Judged::Unjudged,
        },
    );
    enter(events, LaneEvent::ReaderMemory);
    Reader::Short
}

fn bytes_of(got: Got) -> Vec<u8>
    ensures { result.items ≡ got_bytes got }
{
    match got {
        Got::All(bytes) | Got::Long(bytes) => bytes,
    }
}

// The state of a reader after the proof file, and why the keeper ended the job, if it did.
#[derive(Drop)]
pub(crate) struct Filed<T> {
    pub(crate) part: Reader<T>,
    pub(crate) why: Option<Reason<T>>,
}

// Has the proof file judged.
fn judge_proof<
    R: Threads + Wait + Sync,
    S: ChildJudge<T> + Drop,
    J: ForJob<T> + Sync,
    T: Settled + Drop + Send + Sync,
    C: Clock,
>(
    rt: &R,
    alloc: Global,
    watch: &Watch<'_, J, T, C>,
    proof: &[u8],
    judge: S,
    notes: &mut Notes<T>,
    events: &mut EventList<T>,
    keeper_events: &mut EventList<T>,
) -> Filed<T>
    requires room { 2 ≤ events.old.room }
    requires part { reader_from reader.Fresh events.old.events ≡ reader.Asking }
    requires awaits { S.awaits judge }
    requires cell { watch.now.terms.now.cell < length watch.now.cells.now }
    requires other { IfSome watch.now.other (λ o. o.0 < length watch.now.cells.now) }
    requires notes { AreNotesOf watch.now.cells.now notes.old }
    requires keeper_room { 2 ≤ keeper_events.old.room }
    requires turns { TakesTurns (keeper_from (terms_of T.job T.answer watch.now.terms.now) keeper.Fresh keeper_events.old.events) }
    ensures part { result.part ≡ reader_from reader.Fresh events.new.events }
    ensures room { (result.part ≡ reader.Short) ⊎ (1 ≤ events.new.room) }
    ensures judged { JudgedFile (S.proves judge) proof.now (bytes_filed events.old.events) (bytes_filed events.new.events) result.part result.why }
    ensures read { bytes_read events.new.events ≡ bytes_read events.old.events }
    ensures empty { empty_reads events.new.events ≡ empty_reads events.old.events }
    ensures unfailed { result.part ≢ reader.Failed }
    ensures kept { MatchOption result.why (TakesTurns (keeper_from (terms_of T.job T.answer watch.now.terms.now) keeper.Fresh keeper_events.new.events)) (λ why. keeper_from (terms_of T.job T.answer watch.now.terms.now) keeper.Fresh keeper_events.new.events ≡ keeper.Killed why) }
    ensures place { place_from Away keeper_events.new.events ≡ place_from Away keeper_events.old.events }
    ensures keeps { Keeps (IsOfCell T.problem T.job (J.problem watch.now.problem.now) watch.now.terms.now watch.now.other) (C.may_read watch.now.clock.now) notes.old notes.new keeper_events.old.events keeper_events.new.events }
    ensures reason { IfSome result.why (λ why. EndsChild why × (why ≢ reason.Fault)) }
{
    let mut judge = judge;
    if judge.open_proof(alloc).is_err() {
        return Filed {
            part: enter_memory(events),
            why: None,
        };
    }
    let Beside { said, why } = judge_beside(rt, alloc, watch, proof, judge, notes, keeper_events);
    let part = match said {
        Some(said) => enter_file(events, proof.len() as u64, said),
        None => Reader::Asking,
    };
    Filed { part, why }
}

// Asks for the proof file, and has it judged.
pub(crate) fn read_proof<
    R: Threads + Wait + Sync,
    L: Launch,
    S: ChildJudge<T> + Drop,
    J: ForJob<T> + Sync,
    T: Settled + Drop + Send + Sync,
    C: Clock,
>(
    rt: &R,
    alloc: Global,
    berth: &mut Berth<'_, L>,
    asked: &Asked<'_>,
    watch: &Watch<'_, J, T, C>,
    judge: S,
    notes: &mut Notes<T>,
    events: &mut EventList<T>,
    keeper_events: &mut EventList<T>,
) -> Filed<T>
    requires room { 1 ≤ events.old.room }
    requires part { reader_from reader.Fresh events.old.events ≡ reader.Asking }
    requires awaits { S.awaits judge }
    requires unfiled { bytes_filed events.old.events ≡ 0 }
    requires cell { watch.now.terms.now.cell < length watch.now.cells.now }
    requires other { IfSome watch.now.other (λ o. o.0 < length watch.now.cells.now) }
    requires notes { AreNotesOf watch.now.cells.now notes.old }
    requires keeper_room { 2 ≤ keeper_events.old.room }
    requires turns { TakesTurns (keeper_from (terms_of T.job T.answer watch.now.terms.now) keeper.Fresh keeper_events.old.events) }
    ensures part { result.part ≡ reader_from reader.Fresh events.new.events }
    ensures room { (result.part ≡ reader.Short) ⊎ (1 ≤ events.new.room) }
    ensures asks { Asks (S.proves judge) (L.told berth.old.bay) asked.now.job asked.now.most result.why reader.Asking result.part (bytes_filed events.new.events) }
    ensures read { bytes_read events.new.events ≡ bytes_read events.old.events }
    ensures empty { empty_reads events.new.events ≡ empty_reads events.old.events }
    ensures failed { result.part ≡ reader.Failed → Rose (L.read_faults berth.old.bay) (L.read_faults berth.new.bay) }
    ensures same { berth.new ≡ record berth.old { bay = berth.new.bay } }
    ensures told { L.told berth.new.bay ≡ L.told berth.old.bay }
    ensures counts { (L.start_faults berth.new.bay ≡ L.start_faults berth.old.bay) × (L.hold_faults berth.new.bay ≡ L.hold_faults berth.old.bay) × (L.read_faults berth.old.bay ≤ L.read_faults berth.new.bay) }
    ensures kept { MatchOption result.why (TakesTurns (keeper_from (terms_of T.job T.answer watch.now.terms.now) keeper.Fresh keeper_events.new.events)) (λ why. keeper_from (terms_of T.job T.answer watch.now.terms.now) keeper.Fresh keeper_events.new.events ≡ keeper.Killed why) }
    ensures place { place_from Away keeper_events.new.events ≡ place_from Away keeper_events.old.events }
    ensures keeps { Keeps (IsOfCell T.problem T.job (J.problem watch.now.problem.now) watch.now.terms.now watch.now.other) (C.may_read watch.now.clock.now) notes.old notes.new keeper_events.old.events keeper_events.new.events }
    ensures reason { IfSome result.why (λ why. EndsChild why × (why ≢ reason.Fault)) }
{
    if events.take_room(2).is_err() {
        return Filed {
            part: enter_memory(events),
            why: None,
        };
    }
    match berth.proof(alloc, asked.job, asked.proof, asked.most) {
        Err(Fail::Failed) => Filed {
            part: enter_file(events, 0, Judged::Failed),
            why: None,
        },
        Err(Fail::Memory) => Filed {
            part: enter_memory(events),
            why: None,
        },
        Ok(got) => {
            let bytes = bytes_of(got);
            judge_proof(
                rt,
                alloc,
                watch,
                bytes.as_slice(),
                judge,
                notes,
                events,
                keeper_events,
            )
        }
    }
}

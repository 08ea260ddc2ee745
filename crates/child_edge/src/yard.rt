// A yard of the system's children, and its bays.

ghost use Rattle.std.specs.Prelude.{◌≡◌, cond, false, true, None, Some, IfOk};
ghost use Rattle.sby_edge.specs.Cause.{RisesBy};
ghost use Rattle.child_edge.specs.Either.{of_either};

use crate::child::{Errors, RealHold, RealPipe};
use crate::command::{find_program, guarded_command, plain_command};
use crate::either::Either;
use crate::files::open_and_read;
use crate::log::Log;
use crate::tcp_dial::{TcpDial, TcpHost};
use crate::tcp_link::TcpCut;
use net_answer::NetPipe;
use net_lane::NetHold;
use sby_edge::{Fail, Failed, Got, Hold, JobFile, Launch, Memory, Pipe, Yard};
use sby_terms::JobName;
use std::alloc::{AllocError, Global};
use std::env::Env;
use std::io::ErrorKind;
use std::net::{Net, TcpStream};
use std::process::{Child, Command, Processes, Stdio, SystemProcess};
use std::rt::Files as SystemFiles;
use std::sync::Arc;
use std::sync::atomic::AtomicBool;
use std::time::Clock as SystemClock;

// The first word of what is reached over a connection.
const NET: &str = "net";

/// The output of what a bay started.
pub type LanePipe<'a, R> = Either<RealPipe<'a, R>, NetPipe<TcpHost>>;

/// The hold of what a bay started.
pub type LaneHold<'a, R> = Either<RealHold<'a, R>, NetHold<TcpCut>>;

/// Starts the children of one lane, and connects to its engines elsewhere. Contracts see its counts.
#[derive(Drop)]
pub struct RealBay<'a, R> {
    rt: &'a R,
    log: &'a Log<'a, R>,
    task: u32,
    lane: u32,
    start_faults: u64,
    read_faults: u64,
    hold_faults: u64,
}

// Starts a command, whose error output goes to the log where there is one; nothing where its program isn't there.
fn spawn<R: Processes<Started = SystemProcess>>(
    rt: &R,
    log: &Log<'_, R>,
    command: &mut Command,
) -> Result<Option<Child<SystemProcess>>, Fail> {
    if log.is_silent() {
        command.stderr(Stdio::null());
    } else {
        command.stderr(Stdio::piped());
    }
    match command.spawn(rt) {
        Ok(child) => Ok(Some(child)),
        Err(e) if e.kind() == ErrorKind::NotFound => Ok(None),
        Err(_) => Err(Fail::Failed),
    }
}

// Starts a program: by the guard, or alone on a system that hasn't what the guard needs.
fn spawn_program<R: Processes<Started = SystemProcess> + SystemFiles + SystemClock>(
    rt: &R,
    log: &Log<'_, R>,
    alloc: Global,
    program: &str,
    words: &[String],
) -> Result<Child<SystemProcess>, Fail> {
    let mut command = guarded_command(alloc, program, words)?;
    if let Some(child) = spawn(rt, log, &mut command)? {
        return Ok(child);
    }
    log.say(
        alloc,
        &"there is no setsid: what a child starts is not killed with it",
    );
    let mut command = plain_command(alloc, program, words)?;
    match spawn(rt, log, &mut command)? {
        Some(child) => Ok(child),
        None => Err(Fail::Failed),
    }
}

// The words with a blank between them.
fn joined(alloc: Global, words: &[String]) -> Result<String, AllocError> {
    let mut text = String::new(alloc);
    for word in words {
        if !text.is_empty() {
            text.push_str(" ")?;
        }
        text.push_str(word.as_str())?;
    }
    Ok(text)
}

fn start<'a, R>(
    rt: &'a R,
    log: &'a Log<'a, R>,
    alloc: Global,
    words: &[String],
) -> Result<(RealPipe<'a, R>, RealHold<'a, R>), Fail>
where
    R: Processes<Started = SystemProcess> + SystemFiles + SystemClock + Env + Alloc<A = Global>,
    ensures { IfOk result (λ child. (child.1.is_killed ≡ false) × (child.1.is_reaped ≡ false) × (child.1.exit ≡ None)
        × (child.0.faults ≡ 0) × (child.1.faults ≡ 0)) }
{
    if words.is_empty() {
        return Err(Fail::Failed);
    }
    let Some(program) = find_program(rt, alloc, words[0].as_str())? else {
        return Err(Fail::Failed);
    };
    let is_killed = Arc::new(alloc, AtomicBool::new(false))?;
    let kills = Arc::try_clone(&is_killed)?;
    let mut child = spawn_program(rt, log, alloc, program.as_str(), &words[1..])?;
    let guard = child.stdin.take();
    let id = child.id();
    let errors = child.stderr.take().map(|output| Errors::new(output, id));
    let Some(output) = child.stdout.take() else {
        return Err(Fail::Failed);
    };
    let pipe = RealPipe::new(alloc, log, id, output, errors, is_killed);
    let hold = RealHold::new(alloc, rt, log, child, guard, kills);
    Ok((pipe, hold))
}

// The count after a part with this many faults is spent.
fn risen(count: u64, part: u64) -> u64
    ensures { RisesBy part count result }
{
    if part > 0 {
        count.saturating_add(1)
    } else {
        count
    }
}

impl<'a, R: SystemFiles + SystemClock> RealBay<'a, R> {
    // Tells the log of a start, or that there is none.
    fn say_start(
        &self,
        alloc: Global,
        words: &[String],
        answer: &Result<(LanePipe<'a, R>, LaneHold<'a, R>), Fail>,
    ) {
        if self.log.is_silent() {
            return;
        }
        let Ok(text) = joined(alloc, words) else {
            return;
        };
        let (task, lane) = (self.task, self.lane);
        match answer {
            Ok((_, Either::Child(hold))) => {
                let id = hold.child.id();
                self.log.say(
                    alloc,
                    &format_args!("task {task}, lane {lane}: child {id} is {text}"),
                );
            }
            Ok((_, Either::Net(_))) => self.log.say(
                alloc,
                &format_args!("task {task}, lane {lane}: connected for {text}"),
            ),
            Err(_) => self.log.say(
                alloc,
                &format_args!("task {task}, lane {lane}: no start of {text}"),
            ),
        }
    }
}

// Lets go of the output; answers how often a read failed.
fn pipe_faults<R: SystemFiles + SystemClock>(pipe: LanePipe<'_, R>) -> u64
    ensures { result ≡ of_either (λ p. p.faults) (λ p. p.faults) pipe.entry }
{
    match pipe {
        Either::Child(mut pipe) => {
            pipe.close();
            pipe.into_faults()
        }
        Either::Net(pipe) => pipe.faults(),
    }
}

// Lets go of what was started and reaped; answers how often a call failed.
fn hold_faults<R>(hold: LaneHold<'_, R>) -> u64
    requires { of_either (λ h. h.is_reaped) (λ h. h.is_reaped) hold ≡ true }
    ensures { result ≡ of_either (λ h. h.faults) (λ h. h.faults) hold.entry }
{
    match hold {
        Either::Child(hold) => hold.into_faults(),
        Either::Net(hold) => {
            let faults = hold.faults();
            hold.end();
            faults
        }
    }
}

// Whether the words are those of an engine that is reached over a connection.
fn is_net(words: &[String]) -> bool {
    match words.first() {
        Some(word) => word.as_str() == NET,
        None => false,
    }
}

impl<'a, R> RealBay<'a, R>
where
    R: Processes<Started = SystemProcess>
        + SystemFiles
        + SystemClock
        + Env
        + Net<Stream = TcpStream>
        + Alloc<A = Global>,
{
    // Starts a child, or connects to an engine elsewhere and sends it the job.
    fn open<F: JobFile>(
        &self,
        alloc: Global,
        words: &[String],
        file: &F,
    ) -> Result<(LanePipe<'a, R>, LaneHold<'a, R>), Fail>
        ensures pipe { IfOk result (λ started. of_either (λ p. p.faults) (λ p. p.faults) started.0 ≡ 0) }
        ensures hold { IfOk result (λ started. (of_either (λ h. cond h.is_killed (Some 0) None) (λ h. h.killed) started.1 ≡ None)
            × (of_either (λ h. h.is_reaped) (λ h. h.is_reaped) started.1 ≡ false) × (of_either (λ h. h.exit) (λ h. h.exit) started.1 ≡ None)
            × (of_either (λ h. h.faults) (λ h. h.faults) started.1 ≡ 0)) }
    {
        if is_net(words) {
            let mut dial = TcpDial::new(self.rt);
            let (pipe, hold) = net_lane::open(&mut dial, alloc, words, file, None)?;
            return Ok((Either::Net(pipe), Either::Net(hold)));
        }
        let (pipe, hold) = start(self.rt, self.log, alloc, words)?;
        Ok((Either::Child(pipe), Either::Child(hold)))
    }
}

impl<'a, R> Launch for RealBay<'a, R>
where
    R: Processes<Started = SystemProcess>
        + SystemFiles
        + SystemClock
        + Env
        + Net<Stream = TcpStream>
        + Alloc<A = Global>
        + Sync,
{
    type Pipe = LanePipe<'a, R>;

    type Hold = LaneHold<'a, R>;

    ghost told = { λ _. None };

    ghost start_faults = { λ b. b.start_faults };

    ghost read_faults = { λ b. b.read_faults };

    ghost hold_faults = { λ b. b.hold_faults };

    fn start<F: JobFile>(
        &mut self,
        alloc: Global,
        _job: JobName,
        words: &[String],
        file: &F,
    ) -> Result<(LanePipe<'a, R>, LaneHold<'a, R>), Fail> {
        let answer = self.open(alloc, words, file);
        self.say_start(alloc, words, &answer);
        if matches!(answer, Err(Fail::Failed)) {
            self.start_faults = self.start_faults.saturating_add(1);
        }
        answer
    }

    fn proof(&mut self, alloc: Global, _job: JobName, path: &str, most: u64) -> Result<Got, Fail> {
        let answer = open_and_read(self.rt, alloc, path, most);
        if matches!(answer, Err(Fail::Failed)) {
            self.read_faults = self.read_faults.saturating_add(1);
        }
        answer
    }

    fn kill(&self, _pipe: &LanePipe<'a, R>, hold: &mut LaneHold<'a, R>) -> Result<(), Failed> {
        hold.kill()
    }

    fn finish(&mut self, pipe: LanePipe<'a, R>, hold: LaneHold<'a, R>) {
        let reads = pipe_faults(pipe);
        let holds = hold_faults(hold);
        self.read_faults = risen(self.read_faults, reads);
        self.hold_faults = risen(self.hold_faults, holds);
    }
}

/// Engines elsewhere, and the children of the system, each of these with the guard that kills all it has started where it is killed, or where this process ends.
#[derive(Drop)]
pub struct RealYard<'a, R> {
    rt: &'a R,
    log: &'a Log<'a, R>,
    pub(crate) start_faults: u64,
    read_faults: u64,
    hold_faults: u64,
}

impl<'a, R> RealYard<'a, R> {
    /// Nothing was started yet; the log is told of each child.
    pub fn new(rt: &'a R, log: &'a Log<'a, R>) -> Self
        ensures { (result.start_faults ≡ 0) × (result.read_faults ≡ 0) × (result.hold_faults ≡ 0) }
    {
        RealYard {
            rt,
            log,
            start_faults: 0,
            read_faults: 0,
            hold_faults: 0,
        }
    }
}

impl<'a, R> Yard for RealYard<'a, R>
where
    R: Processes<Started = SystemProcess>
        + SystemFiles
        + SystemClock
        + Env
        + Net<Stream = TcpStream>
        + Alloc<A = Global>
        + Sync,
{
    type Bay = RealBay<'a, R>;

    ghost told = { λ _. None };

    ghost started = { λ _. None };

    ghost start_faults = { λ y. y.start_faults };

    ghost read_faults = { λ y. y.read_faults };

    ghost hold_faults = { λ y. y.hold_faults };

    fn bay(&mut self, _alloc: Global, task: u32, lane: u32) -> Result<RealBay<'a, R>, Memory> {
        Ok(RealBay {
            rt: self.rt,
            log: self.log,
            task,
            lane,
            start_faults: 0,
            read_faults: 0,
            hold_faults: 0,
        })
    }

    fn back(&mut self, bay: RealBay<'a, R>) {
        let RealBay {
            rt: _,
            log: _,
            task: _,
            lane: _,
            start_faults: starts,
            read_faults: reads,
            hold_faults: holds,
        } = bay;
        self.start_faults = risen(self.start_faults, starts);
        self.read_faults = risen(self.read_faults, reads);
        self.hold_faults = risen(self.hold_faults, holds);
    }
}

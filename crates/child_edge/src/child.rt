// A child of the system, its output and its end.

ghost use Rattle.std.specs.Prelude.{cond, Some, ◌≡◌, ◌≤◌, ◌<◌, false, true, None, length, IfOk};

use crate::log::Log;
use libc::net::POLLIN;
use libc::types::pollfd;
use sby_edge::{Exit, Failed, Hold, Pipe};
use std::alloc::Global;
use std::io::{ErrorKind, Read};
use std::os::fd::{AsRawFd, RawFd};
use std::process::{Child, ChildStderr, ChildStdin, ChildStdout, ExitStatus, SystemProcess};
use std::rt::Files as SystemFiles;
use std::sync::Arc;
use std::sync::atomic::{AtomicBool, Ordering};
use std::thread;
use std::time::{Clock as SystemClock, Duration};

// How much is read at once.
const PIECE: usize = 65536;

// How long a wait for output takes before the reader looks whether the child was killed, in milliseconds.
const WAIT: i32 = 100;

// How many pieces are taken of what a killed child left: the most that a pipe holds.
const LEFT: u32 = 16;

// How often the log is told how many bytes came, in milliseconds.
const REPORT: u64 = 10_000;

// How much of the error output is read at once.
const ERRORS: usize = 4096;

// A guard tells by a status above this that a signal ended the engine.
const SIGNALLED: i32 = 128;

// How long a kill waits for the guard to end before the guard is killed too, in turns of a millisecond.
const GRACE: u32 = 1000;

/// What a child writes to its error output: the log gets it line by line.
#[derive(Drop)]
pub(crate) struct Errors {
    output: ChildStderr,
    id: u32,
}

impl Errors {
    pub(crate) fn new(output: ChildStderr, id: u32) -> Self {
        Errors { output, id }
    }

    // Tells the log what is there to be read; answers whether more may come.
    fn tell<R: SystemFiles + SystemClock>(&mut self, alloc: Global, log: &Log<'_, R>) -> bool {
        let mut buffer = [0u8; ERRORS];
        let count = match self.output.read(&mut buffer) {
            Ok(count) => count,
            Err(e) => return e.kind() == ErrorKind::Interrupted,
        };
        for line in buffer[..count].split(|b| *b == b'\n') {
            if !line.is_empty() {
                let id = self.id;
                let Ok(text) = String::from_utf8_lossy(alloc, line) else {
                    continue;
                };
                log.say(alloc, &format_args!("child {id} says: {text}"));
            }
        }
        count > 0
    }
}

// Whether each of two descriptors has something to be read, or has ended, within this many milliseconds. A negative one never has.
fn ready(first: RawFd, second: RawFd, wait: i32) -> (bool, bool) {
    let events = POLLIN;
    let mut fds = [
        pollfd {
            fd: first,
            events,
            revents: 0,
        },
        pollfd {
            fd: second,
            events,
            revents: 0,
        },
    ];
    let _count = libc::net::poll(&mut fds, wait);
    (fds[0].revents != 0, fds[1].revents != 0)
}

/// The output of a child. It ends once all that have it have closed it, or soon after the child was killed, whoever still has it.
pub struct RealPipe<'a, R> {
    pub(crate) output: ChildStdout,
    errors: Option<Errors>,
    log: &'a Log<'a, R>,
    alloc: Global,
    id: u32,
    is_killed: Arc<AtomicBool>,
    // Pieces that are still taken once the child was killed.
    left: u32,
    // The bytes so far, and when the log was told of them.
    taken: u64,
    told: u64,
    pub(crate) faults: u64,
}

impl<'a, R> RealPipe<'a, R> {
    pub(crate) fn new(
        alloc: Global,
        log: &'a Log<'a, R>,
        id: u32,
        output: ChildStdout,
        errors: Option<Errors>,
        is_killed: Arc<AtomicBool>,
    ) -> Self
        ensures { result.faults ≡ 0 }
    {
        RealPipe {
            output,
            errors,
            log,
            alloc,
            id,
            is_killed,
            left: LEFT,
            taken: 0,
            told: 0,
            faults: 0,
        }
    }
}

impl<'a, R> RealPipe<'a, R> {
    // Lets go of the output; answers how often a call failed.
    pub(crate) fn into_faults(self) -> u64
        ensures { result ≡ self.entry.faults }
    {
        let RealPipe {
            output,
            errors,
            log: _,
            alloc: _,
            id: _,
            is_killed,
            left: _,
            taken: _,
            told: _,
            faults,
        } = self;
        drop(output);
        drop(errors);
        drop(is_killed);
        faults
    }
}

impl<'a, R: SystemFiles + SystemClock> RealPipe<'a, R> {
    // Looks for output, or for its end, and tells the log what the child complains of.
    fn look(&mut self, wait: i32) -> bool
        ensures { self.new.faults ≡ self.old.faults }
    {
        let errors = match &self.errors {
            Some(errors) => errors.output.as_raw_fd(),
            None => -1,
        };
        let (output, complains) = ready(self.output.as_raw_fd(), errors, wait);
        if complains {
            if let Some(mut errors) = self.errors.take() {
                if errors.tell(self.alloc, self.log) {
                    self.errors = Some(errors);
                }
            }
        }
        output
    }

    // Waits for output or its end. Answers false where the child was killed and left nothing more that is taken.
    fn wait(&mut self) -> bool
        ensures { self.new.faults ≡ self.old.faults }
    {
        for _ in 0..u64::MAX {
            let is_killed = self.is_killed.load(Ordering::SeqCst);
            if is_killed && self.left == 0 {
                return false;
            }
            let wait = if is_killed { 0 } else { WAIT };
            if self.look(wait) {
                self.left = self.left.saturating_sub(is_killed as u32);
                return true;
            }
            if is_killed {
                return false;
            }
        }
        false
    }

    // Counts bytes, and tells the log of them now and then.
    fn count(&mut self, count: usize)
        ensures { self.new.faults ≡ self.old.faults }
    {
        self.taken = self.taken.saturating_add(count as u64);
        if self.log.is_silent() {
            return;
        }
        let now = self.log.now();
        if now.saturating_sub(self.told) >= REPORT {
            self.told = now;
            let (id, taken) = (self.id, self.taken);
            self.log.say(
                self.alloc,
                &format_args!("child {id}: {taken} bytes so far"),
            );
        }
    }

    /// Tells the log what came in all.
    pub(crate) fn close(&mut self)
        ensures { self.new.faults ≡ self.old.faults }
    {
        if self.errors.is_some() {
            let _more = self.look(0);
        }
        let (id, taken) = (self.id, self.taken);
        self.log.say(
            self.alloc,
            &format_args!("child {id}: {taken} bytes in all"),
        );
    }
}

impl<'a, R: SystemFiles + SystemClock> Pipe for RealPipe<'a, R> {
    ghost told = { λ _. None };

    ghost faults = { λ p. p.faults };

    fn read(&mut self, buf: &mut [u8]) -> Result<usize, Failed> {
        let most = buf.len().min(PIECE);
        for _ in 0..u64::MAX {
            if !self.wait() {
                return Ok(0);
            }
            match self.output.read(&mut buf[..most]) {
                Ok(count) => {
                    self.count(count);
                    return Ok(count);
                }
                Err(e) if e.kind() == ErrorKind::Interrupted => {}
                Err(_) => break,
            }
        }
        self.faults = self.faults.saturating_add(1);
        Err(Failed)
    }
}

/// A child: the guard and what it runs, or a program alone. Its exit is kept once a call gave it.
pub struct RealHold<'a, R> {
    pub(crate) child: Child<SystemProcess>,
    // The guard's input: the guard kills what it runs where this ends.
    guard: Option<ChildStdin>,
    is_guarded: bool,
    rt: &'a R,
    log: &'a Log<'a, R>,
    alloc: Global,
    // For the reader of its output.
    kills: Arc<AtomicBool>,
    pub(crate) is_killed: bool,
    pub(crate) is_reaped: bool,
    pub(crate) exit: Option<Exit>,
    pub(crate) faults: u64,
}

fn exit_of(status: &ExitStatus, is_guarded: bool) -> Exit {
    match status.code() {
        Some(code) if is_guarded && code > SIGNALLED => Exit::Signal,
        Some(code) => Exit::Code(u8::try_from(code).unwrap_or(u8::MAX)),
        None => Exit::Signal,
    }
}

impl<'a, R> RealHold<'a, R> {
    pub(crate) fn new(
        alloc: Global,
        rt: &'a R,
        log: &'a Log<'a, R>,
        child: Child<SystemProcess>,
        guard: Option<ChildStdin>,
        kills: Arc<AtomicBool>,
    ) -> Self
        ensures { (result.is_killed ≡ false) × (result.is_reaped ≡ false) × (result.exit ≡ None) × (result.faults ≡ 0) }
    {
        let is_guarded = guard.is_some();
        RealHold {
            child,
            guard,
            is_guarded,
            rt,
            log,
            alloc,
            kills,
            is_killed: false,
            is_reaped: false,
            exit: None,
            faults: 0,
        }
    }
}

impl<'a, R> RealHold<'a, R> {
    // Lets go of the child; answers how often a call failed.
    pub(crate) fn into_faults(self) -> u64
        ensures { result ≡ self.entry.faults }
    {
        let RealHold {
            child,
            guard,
            is_guarded: _,
            rt: _,
            log: _,
            alloc: _,
            kills,
            is_killed: _,
            is_reaped: _,
            exit: _,
            faults,
        } = self;
        drop(child);
        drop(guard);
        drop(kills);
        faults
    }
}

impl<'a, R: SystemFiles + SystemClock> RealHold<'a, R> {
    // Tells the log how the child ended.
    fn say_exit(&self, exit: Exit) {
        let id = self.child.id();
        match exit {
            Exit::Code(code) => self.log.say(
                self.alloc,
                &format_args!("child {id}: exit status {code}"),
            ),
            Exit::Signal => self
                .log
                .say(self.alloc, &format_args!("child {id}: ended by a signal")),
        }
    }

    // Waits a second at most until the guard, whose input has ended, has ended too; answers whether it has.
    fn has_ended(&mut self) -> bool
        ensures killed { self.new.is_killed ≡ self.old.is_killed }
        ensures reaped { self.new.is_reaped ≡ self.old.is_reaped }
        ensures exit { self.new.exit ≡ self.old.exit }
        ensures faults { self.new.faults ≡ self.old.faults }
    {
        for _ in 0..GRACE {
            match self.child.try_wait() {
                Ok(Some(_)) => return true,
                Ok(None) => thread::sleep(self.rt, Duration::from_millis(1)),
                Err(_) => return false,
            }
        }
        false
    }
}

impl<'a, R: SystemFiles + SystemClock> Hold for RealHold<'a, R> {
    // How many bytes the pipe had given isn't told.
    ghost killed = { λ h. cond h.is_killed (Some 0) None };

    ghost is_reaped = { λ h. h.is_reaped };

    ghost exit = { λ h. h.exit };

    ghost faults = { λ h. h.faults };

    fn poll(&mut self) -> Result<Option<Exit>, Failed> {
        if self.exit.is_some() {
            return Ok(self.exit);
        }
        match self.child.try_wait() {
            Ok(Some(status)) => {
                let exit = exit_of(&status, self.is_guarded);
                self.say_exit(exit);
                self.exit = Some(exit);
                Ok(Some(exit))
            }
            Ok(None) => Ok(None),
            Err(_) => {
                self.faults = self.faults.saturating_add(1);
                Err(Failed)
            }
        }
    }

    fn kill(&mut self) -> Result<(), Failed> {
        self.is_killed = true;
        self.kills.store(true, Ordering::SeqCst);
        if self.exit.is_none() {
            let id = self.child.id();
            self.log
                .say(self.alloc, &format_args!("child {id}: killed"));
        }
        if let Some(guard) = self.guard.take() {
            drop(guard);
            if self.has_ended() {
                return Ok(());
            }
        }
        match self.child.kill() {
            Ok(()) => Ok(()),
            Err(_) => {
                self.faults = self.faults.saturating_add(1);
                Err(Failed)
            }
        }
    }

    fn reap(&mut self) -> Result<Exit, Failed> {
        self.is_reaped = true;
        if let Some(exit) = self.exit {
            return Ok(exit);
        }
        match self.child.wait() {
            Ok(status) => {
                let exit = exit_of(&status, self.is_guarded);
                self.say_exit(exit);
                self.exit = Some(exit);
                Ok(exit)
            }
            Err(_) => {
                self.faults = self.faults.saturating_add(1);
                Err(Failed)
            }
        }
    }
}

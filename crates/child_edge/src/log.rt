// What the real forms tell of a run while it goes on.

use crate::clock::millis;
use std::alloc::{AllocError, Global};
use std::env::{self, Env, VarError};
use std::fmt::Display;
use std::fs::OpenOptions;
use std::io::Write;
use std::rt::Files as SystemFiles;
use std::time::Clock as SystemClock;

// The variable that names the file.
const VARIABLE: &str = "SBY_LOG";

// The path of standard error, for which the variable has a `-`.
const STANDARD_ERROR: &str = "/dev/stderr";

/// Lines of the real forms, each with the seconds since the log was made, appended to a file as they come. A line that can't be
/// written is lost; nothing else rests on it.
#[derive(Drop)]
pub struct Log<'a, R> {
    rt: &'a R,
    path: Option<String>,
    start: u64,
}

impl<'a, R> Log<'a, R> {
    /// A log that tells nothing.
    pub fn silent(rt: &'a R) -> Self {
        Log {
            rt,
            path: None,
            start: 0,
        }
    }

    /// Whether lines go anywhere.
    pub fn is_silent(&self) -> bool {
        self.path.is_none()
    }
}

impl<'a, R: SystemFiles + SystemClock + Env + Alloc<A = Global>> Log<'a, R> {
    /// The log that the variable `SBY_LOG` asks for: at the end of the file that it names, on standard error for `-`, or nowhere
    /// where it isn't set or is empty. Fails only where memory is out.
    pub fn asked(rt: &'a R, alloc: Global) -> Result<Self, AllocError> {
        let path = match env::var(rt, VARIABLE) {
            Ok(path) if path.is_empty() => None,
            Ok(path) if path.as_str() == "-" => Some(String::from_str(alloc, STANDARD_ERROR)?),
            Ok(path) => Some(path),
            Err(VarError::OutOfMemory) => return Err(AllocError),
            Err(_) => None,
        };
        Ok(Log {
            rt,
            path,
            start: millis(rt),
        })
    }
}

impl<'a, R: SystemFiles + SystemClock> Log<'a, R> {
    /// Milliseconds since the log was made.
    pub fn now(&self) -> u64 {
        millis(self.rt).saturating_sub(self.start)
    }

    /// Appends a line.
    pub fn say<D: Display>(&self, alloc: Global, text: &D) {
        let Some(path) = &self.path else {
            return;
        };
        let now = self.now();
        let (seconds, rest) = (now / 1000, now % 1000);
        let Ok(line) = format!(in alloc; "{seconds:>6}.{rest:03} {text}\n") else {
            return;
        };
        let file = OpenOptions::new()
            .append(true)
            .create(true)
            .open(self.rt, path.as_str());
        if let Ok(mut file) = file {
            let _written = file.write_all(line.as_bytes());
        }
    }
}

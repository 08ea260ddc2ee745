// Files and output. They tell no content; they count each error, and files tell the path of the last.

ghost use Rattle.std.specs.Prelude.{◌≡◌, ◌+◌, ◌<◌, ◌≤◌, ◌++◌, [], None, IfOk, IfSome, OnOk, length, option_map, string_bytes, take};
ghost use Rattle.std.specs.Io.KnownBytes.{Appends};
ghost use Rattle.sby_edge.specs.Cause.{Rose, greatest};
ghost use Rattle.sby_edge.specs.Files.{GotFits};

use crate::log::Log;
use sby_edge::{Bytes, Fail, Failed, Files, Got, Sink, Source, fill};
use std::alloc::Global;
use std::fs;
use std::io::{ErrorKind, Read, Seek, SeekFrom, Write};
use std::rt::Files as SystemFiles;
use std::time::Clock as SystemClock;

// What the name of a file has after it while the file is written.
const PART: &str = ".part";

// How many bytes of a file are written at a time, and stand in memory.
const PIECE: usize = 65536;

// A file that is read piece by piece.
#[derive(Drop)]
struct Reading<S: Drop> {
    file: S,
    path: String,
    // The place from which it goes on.
    place: u64,
}

/// The files of the system. One whose pieces are got one after the other stays open between them, so that a pipe can be read too.
#[derive(Drop)]
pub struct RealFiles<'a, R: SystemFiles> {
    rt: &'a R,
    log: Option<&'a Log<'a, R>>,
    pub(crate) faults: u64,
    pub(crate) blamed: Option<String>,
    reading: Option<Reading<R::File>>,
}

impl<'a, R: SystemFiles> RealFiles<'a, R> {
    pub fn new(rt: &'a R) -> Self
        ensures faults { result.faults ≡ 0 }
        ensures blamed { result.blamed ≡ None }
    {
        RealFiles {
            rt,
            log: None,
            faults: 0,
            blamed: None,
            reading: None,
        }
    }

    /// Files of which the log is told when they are put.
    pub fn logged(rt: &'a R, log: &'a Log<'a, R>) -> Self
        ensures faults { result.faults ≡ 0 }
        ensures blamed { result.blamed ≡ None }
    {
        RealFiles {
            rt,
            log: Some(log),
            faults: 0,
            blamed: None,
            reading: None,
        }
    }

    // The file at a path, from which `from` bytes were read: the open one, where it stands there.
    fn reading_at(&mut self, alloc: Global, path: &str, from: u64) -> Result<Reading<R::File>, Fail>
        ensures faults { self.new.faults ≡ self.old.faults }
        ensures blamed { self.new.blamed ≡ self.old.blamed }
    {
        match self.reading.take() {
            Some(reading) if from > 0 && reading.place == from && reading.path.as_str() == path => {
                Ok(reading)
            }
            _ => open_at(self.rt, alloc, path, from),
        }
    }

    // A piece of a file, which stays open where the content may go on.
    fn read_piece(
        &mut self,
        alloc: Global,
        path: &str,
        from: u64,
        most: usize,
    ) -> Result<Vec<u8>, Fail>
        ensures fits { IfOk result (λ piece. length piece.items ≤ most) }
        ensures faults { self.new.faults ≡ self.old.faults }
        ensures blamed { self.new.blamed ≡ self.old.blamed }
    {
        let mut reading = self.reading_at(alloc, path, from)?;
        let piece = read_some(alloc, &mut reading.file, most as u64)?;
        if piece.len() == most {
            reading.place = from.saturating_add(most as u64);
            self.reading = Some(reading);
        }
        Ok(piece)
    }

    // Writes all that a source gives as a file, and tells the log.
    fn write_file<S: Source>(
        &mut self,
        alloc: Global,
        path: &str,
        source: &mut S,
    ) -> Result<(), Fail>
    where
        R: SystemClock,
        ensures spent { OnOk result (S.rest source.new ≡ []) }
        ensures faults { self.new.faults ≡ self.old.faults }
        ensures blamed { self.new.blamed ≡ self.old.blamed }
    {
        self.reading = None;
        let mut buffer = vec![in alloc; 0u8; PIECE]?;
        let first = fill(source, &mut buffer);
        let header = String::from_str(alloc, header(&buffer[..first])).ok();
        let written = make_and_write(self.rt, alloc, path, source, &mut buffer, first);
        self.say(alloc, path, &written, header.as_deref().unwrap_or(""));
        match written {
            Ok(_) => Ok(()),
            Err(fail) => Err(fail),
        }
    }

    // Tells the log of a file that was put, how many bytes it has, and the first line of a formula.
    fn say(&self, alloc: Global, path: &str, written: &Result<u64, Fail>, header: &str)
    where
        R: SystemClock,
    {
        let Some(log) = self.log else {
            return;
        };
        match written {
            Ok(count) => log.say(alloc, &format_args!("{path}: put, {count} bytes {header}")),
            Err(_) => log.say(alloc, &format_args!("{path}: not put {header}")),
        }
    }

    // A call at this path failed.
    fn fail(&mut self, alloc: Global, path: &str)
        ensures rose { Rose self.old.faults self.new.faults }
        ensures later { self.old.faults ≤ self.new.faults }
        ensures stays { self.old.faults ≡ greatest → self.new.faults ≡ self.old.faults }
        ensures blamed { IfSome (option_map string_bytes self.new.blamed) (λ blamed. blamed ≡ path.now) }
    {
        self.blamed = String::from_str(alloc, path).ok();
        self.faults = self.faults.saturating_add(1);
    }
}

// Reads up to `most` bytes: fewer where the reader ends before.
fn read_some<R: Read>(alloc: Global, reader: &mut R, most: u64) -> Result<Vec<u8>, Fail>
    ensures { IfOk result (λ v. length v.items ≤ most) }
{
    let mut bytes = Vec::new(alloc);
    let mut buffer = [0u8; 4096];
    for _ in 0..u64::MAX {
        let left = most - bytes.len() as u64;
        if left == 0 {
            break;
        }
        let want = left.min(4096) as usize;
        match reader.read(&mut buffer[..want]) {
            Ok(0) => break,
            Ok(count) => bytes.extend_from_slice(&buffer[..count])?,
            Err(e) if e.kind() == ErrorKind::Interrupted => {}
            Err(_) => return Err(Fail::Failed),
        }
    }
    Ok(bytes)
}

pub(crate) fn open_and_read<R: SystemFiles>(
    rt: &R,
    alloc: Global,
    path: &str,
    most: u64,
) -> Result<Got, Fail>
    ensures { IfOk result (λ got. GotFits most got) }
{
    match fs::open(rt, path) {
        Ok(mut file) => {
            let bytes = read_some(alloc, &mut file, most.saturating_add(1))?;
            if bytes.len() as u64 <= most {
                Ok(Got::All(bytes))
            } else {
                Ok(Got::Long(bytes))
            }
        }
        Err(_) => Err(Fail::Failed),
    }
}

// Opens a file to be read from a place on.
fn open_at<R: SystemFiles>(
    rt: &R,
    alloc: Global,
    path: &str,
    place: u64,
) -> Result<Reading<R::File>, Fail> {
    let path = String::from_str(alloc, path)?;
    let Ok(mut file) = fs::open(rt, path.as_str()) else {
        return Err(Fail::Failed);
    };
    if place > 0 && file.seek(SeekFrom::Start(place)).is_err() {
        return Err(Fail::Failed);
    }
    Ok(Reading { file, path, place })
}

// Writes the first bytes of a buffer, and then what a source still gives, a full buffer at a time. Answers how many bytes these were.
fn write_from<W: Write, S: Source>(
    writer: &mut W,
    source: &mut S,
    buffer: &mut [u8],
    first: usize,
) -> Result<u64, Failed>
    requires room { 0 < length buffer.old }
    requires fits { first ≤ length buffer.old }
    requires ends { first < length buffer.old → S.rest source.old ≡ [] }
    ensures written { OnOk result (Appends (W.contents writer.old) (W.contents writer.new) (take first buffer.old ++ S.rest source.old)) }
    ensures spent { OnOk result (S.rest source.new ≡ []) }
{
    let mut count = 0u64;
    let mut filled = first;
    while filled > 0 {
        match writer.write_all(&buffer[..filled]) {
            Ok(()) => {}
            Err(_) => return Err(Failed),
        }
        count = count.saturating_add(filled as u64);
        filled = fill(source, buffer);
    }
    Ok(count)
}

// Makes a file and writes it.
fn write_part<R: SystemFiles, S: Source>(
    rt: &R,
    path: &str,
    source: &mut S,
    buffer: &mut [u8],
    first: usize,
) -> Result<u64, Failed>
    requires room { 0 < length buffer.old }
    requires fits { first ≤ length buffer.old }
    requires ends { first < length buffer.old → S.rest source.old ≡ [] }
    ensures { OnOk result (S.rest source.new ≡ []) }
{
    match fs::create(rt, path) {
        Ok(mut file) => write_from(&mut file, source, buffer, first),
        Err(_) => Err(Failed),
    }
}

// Writes a file beside its place, and then puts it there: what stands at the path is the old content or the new one, whole.
fn make_and_write<R: SystemFiles, S: Source>(
    rt: &R,
    alloc: Global,
    path: &str,
    source: &mut S,
    buffer: &mut [u8],
    first: usize,
) -> Result<u64, Fail>
    requires room { 0 < length buffer.old }
    requires fits { first ≤ length buffer.old }
    requires ends { first < length buffer.old → S.rest source.old ≡ [] }
    ensures { OnOk result (S.rest source.new ≡ []) }
{
    if let Some((folder, _)) = path.rsplit_once('/') {
        if fs::create_dir_all(rt, folder).is_err() {
            return Err(Fail::Failed);
        }
    }
    let part = format!(in alloc; "{path}{PART}")?;
    let written = write_part(rt, part.as_str(), source, buffer, first);
    if let Ok(count) = written {
        if fs::rename(rt, part.as_str(), path).is_ok() {
            return Ok(count);
        }
    }
    let _removed = fs::remove_file(rt, part.as_str());
    Err(Fail::Failed)
}

// The first line of a formula's file.
fn header(bytes: &[u8]) -> &str {
    let end = bytes.iter().position(|b| *b == b'\n').unwrap_or(0);
    let line = str::from_utf8(&bytes[..end]).unwrap_or("");
    if line.starts_with("p cnf ") { line } else { "" }
}

impl<'a, R: SystemFiles + SystemClock> Files for RealFiles<'a, R> {
    ghost told = { λ _. None };

    ghost faults = { λ f. f.faults };

    ghost blamed = { λ f. option_map string_bytes f.blamed };

    fn get(&mut self, alloc: Global, path: &str, most: u64) -> Result<Got, Fail> {
        let answer = open_and_read(self.rt, alloc, path, most);
        if matches!(answer, Err(Fail::Failed)) {
            self.fail(alloc, path);
        }
        answer
    }

    fn get_piece(
        &mut self,
        alloc: Global,
        path: &str,
        from: u64,
        most: usize,
    ) -> Result<Vec<u8>, Fail> {
        let answer = self.read_piece(alloc, path, from, most);
        if matches!(answer, Err(Fail::Failed)) {
            self.fail(alloc, path);
        }
        answer
    }

    fn put(&mut self, alloc: Global, path: &str, bytes: &[u8]) -> Result<(), Fail> {
        let mut source = Bytes::new(bytes);
        self.put_from(alloc, path, &mut source)
    }

    fn put_from<S: Source>(
        &mut self,
        alloc: Global,
        path: &str,
        source: &mut S,
    ) -> Result<(), Fail> {
        let answer = self.write_file(alloc, path, source);
        if matches!(answer, Err(Fail::Failed)) {
            self.fail(alloc, path);
        }
        answer
    }
}

/// A writer as the output, as standard output is.
#[derive(Drop)]
pub struct StdSink<W: Write + Drop> {
    writer: W,
    pub(crate) faults: u64,
}

impl<W: Write + Drop> StdSink<W> {
    pub fn new(writer: W) -> Self
        ensures { result.faults ≡ 0 }
    {
        StdSink { writer, faults: 0 }
    }
}

impl<W: Write + Drop> Sink for StdSink<W> {
    ghost taken = { λ _. None };

    ghost faults = { λ s. s.faults };

    ghost ended = { λ _. None };

    fn write(&mut self, piece: &[u8]) -> Result<usize, Failed> {
        match self.writer.write(piece) {
            Ok(count) if count > 0 || piece.is_empty() => Ok(count),
            _ => {
                self.faults = self.faults.saturating_add(1);
                Err(Failed)
            }
        }
    }
}

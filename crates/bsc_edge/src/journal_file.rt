//! The files of a journal, each of which is made at its first line.
ghost use Rattle.std.specs.Prelude.{◌≡◌, ◌≢◌, ◌++◌, false, codes, decimal, string_bytes, None, Some, IsOk, IfOk};
ghost use Rattle.std.specs.Io.{WritesAtMost};

use crate::losses::Losses;
use bsc_octets::NoMemory;
use std::alloc::Global;
use std::fs::{self, File};
use std::io::{self, Eprint, ErrorKind, Write};
use std::sync::Arc;

/// The file of a journal: it is made anew as its first octets are written. Where it can't be made, none of them are, and the next
/// write tries again.
///
/// Where files are limited, and a line would take the file past its limit, the journal goes on in another file: behind the file
/// `PREFIX.7` in `PREFIX.7.1`, then in `PREFIX.7.2`. A line is never in two files, so one that is longer than the limit has a file
/// of its own. Each of these files is made anew as well.
///
/// Each write is handed what is left of a line. So one that takes all of it puts the line, and one that fails loses it. The first
/// line that is lost is told on standard error, and the first one that is put again, with the path of its file. Other journals
/// of the hub lose lines and put them by the same count.
#[derive(Drop)]
pub struct JournalFile<R: fs::Files> {
    rt: R,
    alloc: Global,
    /// The path of the first file.
    path: String,
    /// The path of the file that is written, where it isn't the first.
    newer: Option<String>,
    file: Option<R::File>,
    /// How many octets the file that is written has.
    octets: u64,
    /// Whether the last of them ended a line, or there are none.
    is_whole: bool,
    /// How many files were left behind.
    left: u64,
    limit: Option<u64>,
    losses: Arc<Losses>,
}

impl<R: fs::Files> JournalFile<R> {
    /// One at this path, limited to so many octets a file, if limited. With a file, that was made there; without one, it isn't made yet.
    pub(crate) fn new(
        rt: R,
        alloc: Global,
        path: String,
        file: Option<R::File>,
        limit: Option<u64>,
        losses: Arc<Losses>,
    ) -> JournalFile<R>
        ensures file { result.file ≡ file }
        ensures path { result.path ≡ path }
        ensures newer { result.newer ≡ None }
        ensures limit { result.limit ≡ limit }
    {
        JournalFile {
            rt,
            alloc,
            path,
            newer: None,
            file,
            octets: 0,
            is_whole: true,
            left: 0,
            limit,
            losses,
        }
    }
}

/// Some octets were taken, if that isn't none of some.
fn some_taken(taken: usize, of: usize) -> io::Result<usize>
    ensures { IsOk result → result ≡ Ok taken }
{
    if taken == 0 && of > 0 {
        return Err(io::Error::from(ErrorKind::WriteZero));
    }
    Ok(taken)
}

/// Writes into the file, which is made anew at this path where it isn't made yet.
fn write_into<R: fs::Files>(
    rt: &R,
    path: &str,
    file: &mut Option<R::File>,
    buf: &[u8],
) -> io::Result<usize>
    ensures bound { WritesAtMost result buf.now }

    // What was taken lies in a file that is made, and one that is made stays.
    ensures made { IsOk result → file.new ≢ None }
    ensures stays { file.old ≢ None → file.new ≢ None }
{
    if let Some(file) = file {
        return some_taken(file.write(buf)?, buf.len());
    }
    let mut made = File::create_new(rt, path)?;
    let answer = made.write(buf);
    *file = Some(made);
    some_taken(answer?, buf.len())
}

/// Whether a line is to go into another file: where it would take the one that is written past the limit, and that has a line.
fn is_past(octets: u64, line: usize, limit: Option<u64>) -> bool
    ensures unlimited { limit ≡ None → result ≡ false }
    ensures empty { octets ≡ 0 → result ≡ false }
{
    match limit {
        Some(limit) => octets > 0 && octets.saturating_add(line as u64) > limit,
        None => false,
    }
}

/// The path of the file behind so many others of the journal at this path.
fn path_behind(alloc: Global, path: &str, left: u64) -> Result<String, NoMemory>
    ensures { IfOk result (λ newer. string_bytes newer ≡ path.now ++ codes "." ++ decimal left) }
{
    Ok(format!(in alloc; "{path}.{left}")?)
}

/// Tells on standard error that a line of a journal was lost. Where nobody can be told, its session ends all the same.
fn tell_loss<R: Eprint>(rt: &R, path: &str, error: &io::Error) {
    let _ = eprintln!(rt; "bsc: the journal {path} loses lines: {error}");
}

/// Tells that a line was put again.
fn tell_end<R: Eprint>(rt: &R, path: &str) {
    let _ = eprintln!(rt; "bsc: the journal {path} takes lines again");
}

/// What the file that is written is called.
fn path_in<'a>(path: &'a str, newer: &'a Option<String>) -> &'a str {
    match newer {
        Some(newer) => newer.as_str(),
        None => path,
    }
}

impl<R: fs::Files + Eprint> JournalFile<R> {
    /// Leaves the file that is written, so that the next write makes another.
    fn leave(&mut self) -> io::Result<()> {
        let left = self.left.saturating_add(1);
        let Ok(newer) = path_behind(self.alloc, self.path.as_str(), left) else {
            return Err(io::Error::from(ErrorKind::OutOfMemory));
        };
        self.newer = Some(newer);
        self.file = None;
        self.octets = 0;
        self.left = left;
        Ok(())
    }

    /// Writes these octets, which are what is left of a line.
    fn write_line(&mut self, buf: &[u8]) -> io::Result<usize>
        ensures { WritesAtMost result buf.now }
    {
        if self.is_whole && is_past(self.octets, buf.len(), self.limit) {
            self.leave()?;
        }
        let path = path_in(self.path.as_str(), &self.newer);
        let taken = write_into(&self.rt, path, &mut self.file, buf)?;
        self.octets = self.octets.saturating_add(taken as u64);
        self.is_whole = taken == buf.len();
        Ok(taken)
    }

    /// Counts and tells a line that was put or lost, once it was tried.
    fn tell(&self, answer: &io::Result<usize>, line: usize, was_made: bool) {
        let path = path_in(self.path.as_str(), &self.newer);
        match answer {
            Ok(n) => {
                if *n == line && self.losses.end(!was_made) {
                    tell_end(&self.rt, path);
                }
            }
            Err(error) => {
                if self.losses.begin(self.file.is_some()) {
                    tell_loss(&self.rt, path, error);
                }
            }
        }
    }
}

impl<R: fs::Files + Eprint> Write for JournalFile<R> {
    fn write(&mut self, buf: &[u8]) -> io::Result<usize> {
        let was_made = self.file.is_some();
        let answer = self.write_line(buf);
        self.tell(&answer, buf.len(), was_made);
        answer
    }

    fn flush(&mut self) -> io::Result<()> {
        Ok(())
    }
}

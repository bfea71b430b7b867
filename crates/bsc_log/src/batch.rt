//! Lines that are written together.
ghost use Rattle.std.specs.Prelude.{◌≡◌, ◌++◌, List, flat_map, IfOk};
ghost use Rattle.bsc_log.specs.declared.line.Line.{Line};
ghost use Rattle.bsc_log.specs.Batches.{AllSay, ended_text};

use crate::line::Line;
use crate::log_record::LogRecord;
use crate::stamp::Day;
use bsc_lines::put_words;
use bsc_octets::NoMemory;
use std::alloc::Global;
use std::io::{Print, Stderr};

/// There is room for so many records and their lines beforehand.
pub(crate) const ROOM: usize = 512;

/// No line has so many octets.
const LINE: usize = 300;

/// Puts a line at the end of a text, and its end.
fn put_line(text: &mut Vec<u8>, line: &Line) -> Result<(), NoMemory>
    ensures { IfOk result (λ _. text.new.items ≡ text.old.items ++ ended_text line.now) }
{
    line.put(text)?;
    put_words(text, "\n")
}

/// Puts the lines that say what was told at the end of a text, in this order, with the day of the last line before. Where there
/// is no memory for one, those before it stay.
fn put_told(text: &mut Vec<u8>, told: &[LogRecord], day: &mut Day) -> Result<(), NoMemory>
    ensures { IfOk result (λ _. (lines : List Line) × AllSay told.now lines × (text.new.items ≡ text.old.items ++ flat_map ended_text lines)) }
{
    for one in told.iter() {
        put_line(text, &one.line(day))?;
    }
    Ok(())
}

/// What is written next, and where.
#[derive(Drop)]
pub(crate) struct Batch {
    /// What was told, in this order.
    pub(crate) told: Vec<LogRecord>,
    /// The day of the last line.
    day: Day,
    text: Vec<u8>,
    stderr: Stderr,
}

impl Batch {
    /// An empty one.
    pub(crate) fn new(alloc: Global, stderr: Stderr) -> Result<Batch, NoMemory> {
        Ok(Batch {
            told: Vec::with_capacity(alloc, ROOM)?,
            day: Day::new(0),
            text: Vec::with_capacity(alloc, ROOM * LINE)?,
            stderr,
        })
    }

    /// Writes the lines of what was told as one text, and is empty again. What can't be written is lost.
    pub(crate) fn write(&mut self) {
        let _ = put_told(&mut self.text, self.told.as_slice(), &mut self.day);
        if !self.text.is_empty() {
            let _ = Print::write_all(&self.stderr, self.text.as_slice());
        }
        self.told.clear();
        self.text.clear();
    }
}

//! What is kept of an input while it is read.
use bsc_octets::NoMemory;
use std::alloc::Global;
use std::mem;

/// So many octets are kept of an input at least, where it has as many: more than the longest line of a journal and one read
/// together.
const LEAST_KEPT: usize = 524_288;

/// The newest octets of an input: all of one of up to 512 KiB, and of a longer one at least so many.
#[derive(Debug, Drop)]
pub struct RecentInput {
    older: Vec<u8>,
    newer: Vec<u8>,
    is_whole: bool,
    has_ended: bool,
}

impl RecentInput {
    /// Nothing was read yet. No memory is taken.
    pub(crate) fn new(alloc: Global) -> RecentInput {
        RecentInput {
            older: Vec::new(alloc),
            newer: Vec::new(alloc),
            is_whole: true,
            has_ended: false,
        }
    }

    /// Keeps what was read; no octets are the end of the input.
    pub(crate) fn keep(&mut self, octets: &[u8]) {
        self.has_ended = octets.is_empty();
        if LEAST_KEPT <= self.newer.len() {
            self.is_whole = self.is_whole && self.older.is_empty();
            mem::swap(&mut self.older, &mut self.newer);
            self.newer.clear();
        }
        if self.newer.extend_from_slice(octets).is_err() {
            // What is kept has to be one piece.
            self.is_whole = false;
            self.older.clear();
            self.newer.clear();
        }
    }

    /// Whether all that was read is kept.
    pub fn is_whole(&self) -> bool {
        self.is_whole
    }

    /// Whether the input ended.
    pub fn has_ended(&self) -> bool {
        self.has_ended
    }

    /// What is kept, from the beginning of a line on.
    pub fn text(&self, alloc: Global) -> Result<Vec<u8>, NoMemory> {
        let mut text = Vec::with_capacity(
            alloc,
            self.older.len().saturating_add(self.newer.len()),
        )?;
        text.extend_from_slice(self.older.as_slice())?;
        text.extend_from_slice(self.newer.as_slice())?;
        if self.is_whole {
            return Ok(text);
        }
        match text.as_slice().iter().position(|c| *c == b'\n') {
            Some(n) => match text.as_slice().get(n.saturating_add(1)..) {
                Some(rest) => Ok(Vec::from_slice(alloc, rest)?),
                None => Ok(text),
            },
            None => Ok(text),
        }
    }
}

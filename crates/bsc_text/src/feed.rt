//! Lines of what was read, one at a time.
//!
//! A `Feed` reads a source a chunk at a time, and cuts what it has read into lines: a caller takes lines
//! until no whole one is left, and only then asks for the next chunk. It never holds more than one chunk and
//! one line. What a line is, and which lines are too big, stands in `specs/Lines.antt`.
ghost use Rattle.std.specs.Prelude.{◌≡◌, ◌≢◌, ◌+◌, ◌≤◌, if◌then◌else◌, ℕ, length, take, drop};
ghost use Rattle.std.specs.Prelude.{true, false, ◌⊎◌, ◌<◌};
ghost use Rattle.bsc_text.specs.declared.bounds.TheConstants.{CHUNK_LEN, MAX_INPUT_LEN, MAX_LINE_LEN};
ghost use Rattle.bsc_text.specs.Lines.{is_too_big, has_no_lf, BeginsLine};

use crate::bounds::{CHUNK_LEN, MAX_INPUT_LEN, MAX_LINE_LEN};
use crate::pieces::{first_lf, is_too_big, line_in};
use bsc_octets::{NoMemory, Octets};
use bsc_outside::{Failed, Source};
use std::alloc::Global;
use std::mem;

/// What was read and not given yet: the front of a line, and the octets of a chunk from `at` to `end`. No
/// octet of the front is an LF.
#[derive(Drop)]
pub struct Feed {
    /// The front of a line whose LF wasn't read yet.
    carry: Vec<u8>,
    /// Room for one chunk.
    chunk: Vec<u8>,
    at: usize,
    end: usize,
    /// How many octets the lines had that were given, with their ends.
    count: u64,
    /// Whether the last read found the end of the input.
    ended: bool,
    ghost in_order: { at ≤ end },
    ghost in_chunk: { end ≤ length chunk.items },
    ghost one_chunk: { length chunk.items ≡ CHUNK_LEN },
    ghost one_line: { has_no_lf carry.items ≡ true },
    ghost short_line: { length carry.items ≤ MAX_LINE_LEN + 1 },
    ghost in_script: { count + length carry.items ≤ MAX_INPUT_LEN },
}

/// What the next line is.
#[derive(Debug, Drop)]
pub enum NextLine {
    /// This line, without its LF and the one CR before it.
    Line(Octets),
    /// No whole line is left of what was read, and the next chunk may be read.
    More,
    /// There is none: the input ended, and all its lines were given.
    End,
    /// It is too long, or it goes past the longest input.
    Refused,
    /// Memory ran out.
    NoMemory,
}

/// Whether `len` octets without an LF are already too many: then each piece that begins with them is too big.
fn cannot_fit(before: u64, len: usize) -> bool
    requires { before ≤ MAX_INPUT_LEN }
    ensures cannot { result ≡ true → (MAX_LINE_LEN + 1 < len) ⊎ (MAX_INPUT_LEN < before + len) }
    ensures may { result ≡ false → (len ≤ MAX_LINE_LEN + 1) × (before + len ≤ MAX_INPUT_LEN) }
{
    len > MAX_LINE_LEN + 1 || MAX_INPUT_LEN - before < len as u64
}

/// The octets of a chunk from one place to another.
fn between(chunk: &[u8], at: usize, end: usize) -> &[u8]
    requires order { at ≤ end }
    requires within { end ≤ length chunk.now }
    ensures { result.now ≡ drop at (take end chunk.now) }
{
    &chunk[at..end]
}

impl Feed {
    ghost use Rattle.std.specs.Prelude.{◌≡◌, ◌≤◌, ◌<◌, ◌+◌, true, false, ℕ, List, [], ◌∷◌, ◌++◌, Option, Some, Ok, OnOk, OnErr, IfOk};
    ghost use Rattle.std.specs.Prelude.{IsErr, length, take, drop};
    ghost use Rattle.std.specs.Io.KnownBytes.{Keeps, IsAtEnd};
    ghost use Rattle.bsc_outside.specs.Faults.{HasRisen};
    ghost use Rattle.bsc_text.specs.Feeding.{unread, rest_of, IsUsedUp, Gives, Feeds, Fills, Takes, fuel};
    ghost use Rattle.bsc_text.specs.Gave.{Gave};

    /// A feed that has read nothing yet. It takes room for one chunk.
    pub fn make(alloc: Global) -> Result<Feed, NoMemory>
        ensures unread { IfOk result (λ feed. unread feed ≡ []) }
        ensures rest { IfOk result (λ feed. (left : Option (List ℕ)) → rest_of feed left ≡ left) }
        ensures count { IfOk result (λ feed. feed.count ≡ 0) }
        ensures used_up { IfOk result IsUsedUp }
    {
        Ok(Feed {
            carry: Vec::new(alloc),
            chunk: vec![in alloc; 0; CHUNK_LEN]?,
            at: 0,
            end: 0,
            count: 0,
            ended: false,
        })
    }

    /// Reads the next chunk, of up to 64 KiB; an empty one is the end of the input.
    pub fn fill<S: Source>(&mut self, source: &mut S) -> Result<(), Failed>
        requires { IsUsedUp self.old }
        ensures filled { OnOk result (Fills self.old self.new) }
        ensures kept { Keeps (rest_of self.old (S.left source.old)) (rest_of self.new (S.left source.new)) }
        ensures ended { self.new.ended ≡ true → IsAtEnd (S.left source.new) }

        // What the read gave is what came, where the source tells what it gave.
        ensures took { OnOk result (Takes self.old self.new (S.reads source.old) (S.reads source.new)) }
        ensures gave_none { OnErr result (Gave (S.reads source.old) (S.reads source.new) []) }

        // A fault leaves what was read as it was, and the chunk may be read once more.
        ensures failed { IsErr result → HasRisen (S.faults source.old) (S.faults source.new) }
        ensures later { S.faults source.old ≤ S.faults source.new }
        ensures unread { OnErr result (unread self.new ≡ unread self.old) }
        ensures count { OnErr result (self.new.count ≡ self.old.count) }
        ensures used_up { OnErr result (IsUsedUp self.new) }
    {
        self.at = 0;
        self.end = 0;
        self.end = source.read(self.chunk.as_mut_slice())?;
        self.ended = self.end == 0;
        Ok(())
    }

    /// The octets of the last chunk that were not given yet.
    fn rest(&self) -> &[u8]
        ensures { result.now ≡ drop self.now.at (take self.now.end self.now.chunk.items) }
    {
        between(self.chunk.as_slice(), self.at, self.end)
    }

    /// The line of a whole piece, which is next.
    #[tactic(auto, using(crate::proofs::Reading::take_line_in))]
    fn give(&mut self, mut piece: Vec<u8>) -> NextLine
        requires { self.old.carry.items ≡ [] }
        ensures given { (l : List ℕ) → result ≡ NextLine.Line l →
            Gives self.old.count (unread self.old) self.new piece.items l }
        ensures big { result ≡ NextLine.Refused → is_too_big self.old.count piece.items ≡ true }
        ensures ended { self.new.ended ≡ self.old.ended }
        ensures more { result ≢ NextLine.More }
        ensures end { result ≢ NextLine.End }
    {
        if is_too_big(self.count, piece.as_slice()) {
            return NextLine::Refused;
        }
        self.count += piece.len() as u64;
        piece.truncate(line_in(piece.as_slice()).len());
        NextLine::Line(Octets::from_vec(piece))
    }

    /// The next line, which ends with the LF after the first `n` octets of the rest.
    fn next_whole(&mut self, mut room: Vec<u8>, n: usize) -> NextLine
        requires { BeginsLine n (drop self.old.at (take self.old.end self.old.chunk.items)) }
        ensures fed { Feeds self.old self.new result }
        ensures ended { self.new.ended ≡ self.old.ended }
        ensures more { result ≢ NextLine.More }
    {
        if cannot_fit(self.count, self.carry.len() + n) {
            return NextLine::Refused;
        }
        room.clear();
        let mut piece = mem::replace(&mut self.carry, room);
        let (front, _) = self.rest().split_at(n + 1);
        if piece.extend_from_slice(front).is_err() {
            return NextLine::NoMemory;
        }
        self.at += n + 1;
        self.give(piece)
    }

    /// Keeps the rest, in which there is no LF; at the end of the input it is the last line.
    fn keep_rest(&mut self, mut room: Vec<u8>) -> NextLine
        requires { has_no_lf (drop self.old.at (take self.old.end self.old.chunk.items)) ≡ true }
        ensures fed { Feeds self.old self.new result }
        ensures ended { self.new.ended ≡ self.old.ended }
    {
        if cannot_fit(self.count, self.carry.len() + self.rest().len()) {
            return NextLine::Refused;
        }
        let rest = between(self.chunk.as_slice(), self.at, self.end);
        if self.carry.extend_from_slice(rest).is_err() {
            return NextLine::NoMemory;
        }
        self.at = self.end;
        if !self.ended {
            return NextLine::More;
        }
        if self.carry.is_empty() {
            return NextLine::End;
        }
        room.clear();
        let piece = mem::replace(&mut self.carry, room);
        self.give(piece)
    }

    /// The next line of what was read, without its LF and the one CR before it. A last line may have no LF,
    /// and is given once the end of the input was found.
    ///
    /// `room` is memory that the feed may use again, as that of the line before; what it holds is dropped.
    /// After a line that is refused, or when memory ran out, the feed has lost its place.
    pub fn next_line(&mut self, room: Vec<u8>) -> NextLine
        ensures fed { Feeds self.old self.new result }
        ensures ended { self.new.ended ≡ self.old.ended }

        // What source it may be, a line is short, and moves the count on, which stays at most `MAX_INPUT_LEN`.
        ensures short { (l : List ℕ) → result ≡ NextLine.Line l → length l ≤ MAX_LINE_LEN }
        ensures on { (l : List ℕ) → result ≡ NextLine.Line l → self.old.count < self.new.count }
        ensures less { (l : List ℕ) → result ≡ NextLine.Line l → fuel self.new < fuel self.old }
        ensures no_less { result ≡ NextLine.More → fuel self.new ≡ fuel self.old }
    {
        match first_lf(self.rest()) {
            Some(n) => self.next_whole(room, n),
            None => self.keep_rest(room),
        }
    }
}

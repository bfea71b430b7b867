//! Cutting an input into lines.
ghost use Rattle.std.specs.Prelude.{◌≡◌, ◌≢◌, ◌++◌, ◌∷◌, [], take, IfOk, OnErr, OnOk};
ghost use Rattle.bsc_text.specs.Lines.{line_in};
ghost use Rattle.bsc_input.specs.Lines.{handed, line_of_answer, lines_of};

use crate::bounds::MOST_KEPT;
use crate::cutter::Cutter;
use bsc_octets::{NoMemory, Octets};
use bsc_past::Past;
use bsc_text::{MAX_LINE_LEN, line_in};
use std::alloc::Global;
use std::mem;

/// The line of a piece, or so many octets of it.
#[tactic(auto, using(crate::proofs::Cut::line_take, crate::proofs::Cut::line_take_front))]
fn front_of_line(piece: Vec<u8>, most: usize) -> Octets
    ensures { result ≡ take most (line_in piece.items) }
{
    let mut piece = piece;
    let length = line_in(piece.as_slice()).len();
    if most < length {
        piece.truncate(most);
    } else {
        piece.truncate(length);
    }
    Octets::from_vec(piece)
}

/// The line of a piece, which is handed on: whole, or one octet more than a line may have.
#[tactic(auto, unfolding(crate::specs::Lines::handed))]
fn handed(piece: Vec<u8>) -> Octets
    ensures { result ≡ handed piece.items }
{
    front_of_line(piece, MAX_LINE_LEN + 1)
}

impl Cutter {
    /// Nothing was read yet.
    #[tactic(auto, using(crate::proofs::Cut::none_cut))]
    pub fn new(alloc: Global) -> Cutter
        ensures read { result.read.items ≡ [] }
        ensures lines { result.lines.items ≡ [] }
    {
        Cutter {
            front: Vec::new(alloc),
            begun: Past::new(),
            read: Past::new(),
            lines: Past::new(),
        }
    }

    /// Goes on with an octet that isn't an LF.

    fn keep(&mut self, octet: u8) -> Result<(), NoMemory>
        requires { octet ≢ 10 }
        ensures read { OnOk result (self.new.read.items ≡ self.old.read.items ++ octet ∷ []) }
        ensures lines { self.new.lines.items ≡ self.old.lines.items }
        ensures unread { OnErr result (self.new.read.items ≡ self.old.read.items) }
    {
        if self.front.len() < MOST_KEPT {
            self.front.push(octet)?;
            self.begun.add(&octet);
            self.read.add(&octet);
            return Ok(());
        }
        self.begun.add(&octet);
        self.read.add(&octet);
        Ok(())
    }

    /// Goes on with an LF, which ends a line.

    fn end_line(&mut self, alloc: Global) -> Result<Octets, NoMemory>
        ensures read { OnOk result (self.new.read.items ≡ self.old.read.items ++ 10 ∷ []) }
        ensures lines { IfOk result (λ line. self.new.lines.items ≡ self.old.lines.items ++ line ∷ []) }
        ensures unread { OnErr result ((self.new.read.items ≡ self.old.read.items) × (self.new.lines.items ≡ self.old.lines.items)) }
    {
        self.front.reserve(1)?;
        let mut piece = mem::replace(&mut self.front, Vec::new(alloc));
        piece.push_reserved(b'\n');
        let line = handed(piece);
        self.begun = Past::new();
        self.read.add(&b'\n');
        self.lines.add(&line);
        Ok(line)
    }

    /// Goes on with the next octet, and gives the line that it ends.
    pub fn octet(&mut self, alloc: Global, octet: u8) -> Result<Option<Octets>, NoMemory>
        ensures read { OnOk result (self.new.read.items ≡ self.old.read.items ++ octet ∷ []) }
        ensures lines { IfOk result (λ answer. self.new.lines.items ≡ self.old.lines.items ++ line_of_answer answer) }
        ensures unread { OnErr result ((self.new.read.items ≡ self.old.read.items) × (self.new.lines.items ≡ self.old.lines.items)) }
    {
        if octet == b'\n' {
            Ok(Some(self.end_line(alloc)?))
        } else {
            self.keep(octet)?;
            Ok(None)
        }
    }

    /// Ends behind what was read, and gives the last line, where it has no LF. Then the lines are all that the input has.
    #[tactic(auto, using(crate::proofs::Cut::last_cut, crate::proofs::Cut::no_more))]
    pub fn end(self) -> Option<Octets>
        ensures { lines_of self.read.items ≡ self.lines.items ++ line_of_answer result }
    {
        if self.front.is_empty() {
            return None;
        }
        Some(handed(self.front))
    }
}

//! Reading the script of a node.
ghost use Rattle.std.specs.Prelude.{◌≡◌, ◌≢◌, ◌+◌, ◌<◌, ◌≤◌, ◌++◌, ◌∷◌, [], length, map};
ghost use Rattle.std.specs.Prelude.{true, false, Ok, Err, IfOk, OnOk, ℕ, List};
ghost use Rattle.std.specs.List.{concat};
ghost use Rattle.bsc_text.specs.Lines.{pieces_of};
ghost use Rattle.bsc_node_run.specs.declared.line.Line.{Line as LineType};
ghost use Rattle.bsc_node_run.specs.declared.line.Line.TheVariants.{At, Ask};
ghost use Rattle.bsc_node_run.specs.declared.line.LineFault.TheVariants.{Refused as IsRefused};
ghost use Rattle.bsc_node_run.specs.Reading.{LinesKept, asks_octets};
ghost use Rattle.bsc_node_run.specs.Requests.{has_octets};
ghost use Rattle.bsc_node_run.specs.Scripts.{fits_behind, is_finish, lines_in, may_follow, script_of, wish_of};

use crate::due::Due;
use crate::line::{Line, LineFault};
use crate::saying::read_line;
use crate::script::{Script, ScriptFault};
use bsc_node::NodeEvent;
use bsc_text::{MAX_INPUT_LEN, is_too_big, lf_at, line_in};
use std::alloc::Global;

/// What stands behind some lines.
#[derive(Drop)]
struct Reading {
    /// The time of the newest `at`.
    at: u64,
    /// Whether `finish` came.
    ended: bool,
    lines: Vec<Due>,
}

/// The first piece, which ends with an LF or is all that there is, and what comes behind it.
fn first_piece(octets: &[u8]) -> (&[u8], &[u8])
    requires { 0 < length octets.now }
    ensures cut { pieces_of octets.now ≡ result.0.now ∷ pieces_of result.1.now }
    ensures some { 0 < length result.0.now }
    ensures all { length octets.now ≡ length result.0.now + length result.1.now }
{
    let n = lf_at(octets);
    if n < octets.len() {
        octets.split_at(n + 1)
    } else {
        (octets, &[])
    }
}

/// Adds one that is due.
fn add(lines: &mut Vec<Due>, due: Due) -> Result<(), LineFault>
    ensures added { OnOk result (lines.new.items ≡ lines.old.items ++ due ∷ []) }
    ensures refuses { result ≢ Err IsRefused }
{
    match lines.push(due) {
        Ok(()) => Ok(()),
        Err(_) => Err(LineFault::NoMemory),
    }
}

/// Whether the node is asked to end.
fn is_finish(event: &NodeEvent) -> bool
    ensures { result ≡ is_finish (Ask event.now) }
{
    match event {
        NodeEvent::Finish => true,
        _ => false,
    }
}

impl Reading {
    /// Goes on at a time.
    fn set_time(&mut self, ms: u64) -> Result<(), LineFault>
        ensures taken { OnOk result ((lines : List LineType) → LinesKept self.old.at self.old.ended (map wish_of self.old.lines.items) lines →
            (may_follow lines (At ms) ≡ true) × LinesKept self.new.at self.new.ended (map wish_of self.new.lines.items) (lines ++ At ms ∷ [])) }
        ensures refused { result ≡ Err IsRefused → (lines : List LineType) → LinesKept self.old.at self.old.ended (map wish_of self.old.lines.items) lines →
            may_follow lines (At ms) ≡ false }
    {
        if self.ended || ms < self.at {
            return Err(LineFault::Refused);
        }
        self.at = ms;
        Ok(())
    }

    /// Goes on with what is asked.
    fn ask(&mut self, event: NodeEvent) -> Result<(), LineFault>
        requires { has_octets event ≡ true }
        ensures taken { OnOk result ((lines : List LineType) → LinesKept self.old.at self.old.ended (map wish_of self.old.lines.items) lines →
            (may_follow lines (Ask event) ≡ true) × LinesKept self.new.at self.new.ended (map wish_of self.new.lines.items) (lines ++ Ask event ∷ [])) }
        ensures refused { result ≡ Err IsRefused → (lines : List LineType) → LinesKept self.old.at self.old.ended (map wish_of self.old.lines.items) lines →
            may_follow lines (Ask event) ≡ false }
    {
        if self.ended {
            return Err(LineFault::Refused);
        }
        self.ended = is_finish(&event);
        add(&mut self.lines, Due { at: self.at, event })
    }

    /// Goes on with a line, where it may stand there.
    fn take_in(&mut self, line: Line) -> Result<(), LineFault>
        requires { asks_octets line ≡ true }
        ensures taken { OnOk result ((lines : List LineType) → LinesKept self.old.at self.old.ended (map wish_of self.old.lines.items) lines →
            (may_follow lines line ≡ true) × LinesKept self.new.at self.new.ended (map wish_of self.new.lines.items) (lines ++ line ∷ [])) }
        ensures refused { result ≡ Err IsRefused → (lines : List LineType) → LinesKept self.old.at self.old.ended (map wish_of self.old.lines.items) lines →
            may_follow lines line ≡ false }
    {
        match line {
            Line::Nothing => Ok(()),
            Line::At { ms } => self.set_time(ms),
            Line::Ask { event } => self.ask(event),
        }
    }

    /// Goes on with a piece that stands behind so many octets, where it may stand there.
    fn read_piece(&mut self, alloc: Global, before: u64, piece: &[u8]) -> Result<(), LineFault>
        requires { before ≤ MAX_INPUT_LEN }
        ensures taken { OnOk result ((pieces : List (List ℕ)) → before ≡ length (concat pieces) →
            LinesKept self.old.at self.old.ended (map wish_of self.old.lines.items) (lines_in pieces) →
            (fits_behind pieces piece.now ≡ true)
            × LinesKept self.new.at self.new.ended (map wish_of self.new.lines.items) (lines_in (pieces ++ piece.now ∷ []))) }
        ensures fits { OnOk result (before + length piece.now ≤ MAX_INPUT_LEN) }
        ensures refused { result ≡ Err IsRefused → (pieces : List (List ℕ)) → before ≡ length (concat pieces) →
            LinesKept self.old.at self.old.ended (map wish_of self.old.lines.items) (lines_in pieces) → fits_behind pieces piece.now ≡ false }
    {
        if is_too_big(before, piece) {
            return Err(LineFault::Refused);
        }
        let line = read_line(alloc, line_in(piece))?;
        self.take_in(line)
    }

    /// Ends behind the last line, of which the next would have this number.
    fn end(self, line: u64) -> Result<Script, ScriptFault>
        ensures read { IfOk result (λ s. (self.ended ≡ true) × (s.lines.items ≡ self.lines.items)) }
        ensures refused { (n : ℕ) → result ≡ Err (ScriptFault.BadLine n) → (self.ended ≡ false) × (n ≡ line) }
    {
        if self.ended {
            Ok(Script { lines: self.lines })
        } else {
            Err(ScriptFault::BadLine { line })
        }
    }
}

/// Reads a whole script.
///
/// Lines end with an LF, and a CR before it is dropped; words are separated by spaces; a line without words, or whose
/// first word begins with `#`, does nothing. The others are `at MS`, `send VMAC OCTETS`, `resolve VMAC`, `direct VMAC`,
/// `solicit VMAC` and, as the last of them, `finish`. MS are milliseconds since the start, and never fewer than before.
pub fn read_script(alloc: Global, octets: &[u8]) -> Result<Script, ScriptFault>
    // What is read is what the script asks of a node; a line that is named as bad is the first bad one.
    ensures read { IfOk result (λ s. script_of octets.now ≡ Ok (map wish_of s.lines.items)) }
    ensures refused { (n : ℕ) → result ≡ Err (ScriptFault.BadLine n) → script_of octets.now ≡ Err n }
{
    let mut reading = Reading {
        at: 0,
        ended: false,
        lines: Vec::new(alloc),
    };
    let mut left = octets;
    let mut before: u64 = 0;
    let mut line: u64 = 1;
    while !left.is_empty() {
        let (piece, rest) = first_piece(left);
        match reading.read_piece(alloc, before, piece) {
            Ok(()) => (),
            Err(LineFault::Refused) => return Err(ScriptFault::BadLine { line }),
            Err(LineFault::NoMemory) => return Err(ScriptFault::NoMemory),
        }
        before += piece.len() as u64;
        line += 1;
        left = rest;
    }
    reading.end(line)
}

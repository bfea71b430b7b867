//! Reading a line of a node's script.
ghost use Rattle.std.specs.Prelude.{◌≡◌, ◌∷◌, [], true, IfOk, IfSome, IsErr, Some, None, Err, List, ℕ};
ghost use Rattle.bsc_text.specs.Words.{words_of};
ghost use Rattle.bsc_text.specs.Grammar.{octets_of_words, vmac_of_word};
ghost use Rattle.bsc_node.specs.declared.node_event.NodeEvent.{NodeEvent as NodeEventType};
ghost use Rattle.bsc_octets.specs.declared.vmac.Vmac.{Vmac as VmacType};
ghost use Rattle.bsc_node_run.specs.declared.line.Line.TheVariants.{Ask as AskLine};
ghost use Rattle.bsc_node_run.specs.Reading.{asks_octets};
ghost use Rattle.bsc_node_run.specs.Saying.{at_line, finish_line, line_of, node_line, one_node, other_line, send_line, send_to};

use crate::line::{Line, LineFault};
use bsc_node::NodeEvent;
use bsc_octets::{Octets, Vmac};
use bsc_text::{OctetsFault, begins_comment, next_word, read_number, read_octets, read_vmac};
use std::alloc::Global;

/// What `at` says, by the words behind it.
fn read_at(words: &[u8]) -> Option<Line>
    ensures read { result ≡ at_line (words_of words.now) }
    ensures octets { IfSome result (λ l. asks_octets l ≡ true) }
{
    let (word, rest) = next_word(words)?;
    if next_word(rest).is_some() {
        return None;
    }
    let ms = read_number(word)?;
    Some(Line::At { ms })
}

/// The octets that the words of a line write.
fn npdu_of(alloc: Global, words: &[u8]) -> Result<Octets, LineFault>
    ensures read { IfOk result (λ o. octets_of_words (words_of words.now) ≡ Some o) }
    ensures refused { result ≡ Err LineFault.Refused → octets_of_words (words_of words.now) ≡ None }
{
    match read_octets(alloc, words) {
        Ok(npdu) => Ok(npdu),
        Err(OctetsFault::Refused) => Err(LineFault::Refused),
        Err(OctetsFault::NoMemory) => Err(LineFault::NoMemory),
    }
}

/// What is asked where an NPDU is sent to this VMAC.
fn send_to(dest: Vmac, npdu: Octets) -> Option<Line>
    ensures read { result ≡ send_to (Some dest) (Some npdu) }
    ensures octets { IfSome result (λ l. asks_octets l ≡ true) }
{
    if dest == Vmac::ZERO || npdu.is_empty() {
        return None;
    }
    Some(Line::Ask {
        event: NodeEvent::Send { dest, npdu },
    })
}

/// What `send` asks, by the words behind it.
fn read_send(alloc: Global, words: &[u8]) -> Result<Line, LineFault>
    ensures read { IfOk result (λ l. send_line (words_of words.now) ≡ Some l) }
    ensures octets { IfOk result (λ l. asks_octets l ≡ true) }
    ensures refused { result ≡ Err LineFault.Refused → send_line (words_of words.now) ≡ None }
{
    let Some((word, rest)) = next_word(words) else {
        return Err(LineFault::Refused);
    };
    let Some(dest) = read_vmac(word) else {
        return Err(LineFault::Refused);
    };
    let npdu = npdu_of(alloc, rest)?;
    send_to(dest, npdu).ok_or(LineFault::Refused)
}

/// The VMAC of one node that a word is: neither zero nor the broadcast.
fn one_node(word: &[u8]) -> Option<Vmac>
    ensures { result ≡ one_node (vmac_of_word word.now) }
{
    let v = read_vmac(word)?;
    if v == Vmac::ZERO || v == Vmac::BROADCAST {
        None
    } else {
        Some(v)
    }
}

/// The VMAC of one node that words are, and nothing else.
fn only_node(words: &[u8]) -> Option<Vmac>
    ensures read { IfSome result (λ v. (asks : VmacType → NodeEventType) → node_line asks (words_of words.now) ≡ Some (AskLine (asks v))) }
    ensures refused { result ≡ None → (asks : VmacType → NodeEventType) → node_line asks (words_of words.now) ≡ None }
{
    let (word, rest) = next_word(words)?;
    if next_word(rest).is_some() {
        return None;
    }
    one_node(word)
}

/// What is asked of one node, by the words behind the first.
fn read_other(word: &[u8], words: &[u8]) -> Option<Line>
    ensures read { result ≡ other_line word.now (words_of words.now) }
    ensures octets { IfSome result (λ l. asks_octets l ≡ true) }
{
    if word == b"resolve".as_slice() {
        let v = only_node(words)?;
        return Some(Line::Ask {
            event: NodeEvent::Resolve(v),
        });
    }
    if word == b"direct".as_slice() {
        let v = only_node(words)?;
        return Some(Line::Ask {
            event: NodeEvent::DirectTo(v),
        });
    }
    if word == b"solicit".as_slice() {
        let v = only_node(words)?;
        return Some(Line::Ask {
            event: NodeEvent::Solicit(v),
        });
    }
    if word == b"finish".as_slice() && next_word(words).is_none() {
        return Some(Line::Ask {
            event: NodeEvent::Finish,
        });
    }
    None
}

/// What a line says, or that it has no form of a line.
#[tactic(auto, unfolding(crate::specs::Saying::line_of))]
pub fn read_line(alloc: Global, line: &[u8]) -> Result<Line, LineFault>
    ensures read { IfOk result (λ l. line_of line.now ≡ Some l) }
    ensures octets { IfOk result (λ l. asks_octets l ≡ true) }
    ensures refused { result ≡ Err LineFault.Refused → line_of line.now ≡ None }
{
    let Some((word, words)) = next_word(line) else {
        return Ok(Line::Nothing);
    };
    if begins_comment(word) {
        return Ok(Line::Nothing);
    }
    if word == b"at".as_slice() {
        return read_at(words).ok_or(LineFault::Refused);
    }
    if word == b"send".as_slice() {
        return read_send(alloc, words);
    }
    read_other(word, words).ok_or(LineFault::Refused)
}

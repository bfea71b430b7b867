//! Reading a line of a network's script.
ghost use Rattle.std.specs.Prelude.{◌≡◌, ◌≢◌, ℕ, List, ◌∷◌, codes, IfOk, IfErr, Some, None, Err};
ghost use Rattle.bsc_text.specs.Words.{words_of};
ghost use Rattle.bsc_text.specs.Grammar.{octets_of_words, vmac_of_word, device_of_word};
ghost use Rattle.bsc_network_script.specs.Lines.{index_of, only_index, hub_line, node_of, direct_of_words, node_line, at_line, send_event};
ghost use Rattle.bsc_network_script.specs.Lines.{only_vmac, bare_event, bare_event_of, other_event, event_of, node_step, step_of, line_of};

use crate::limits::{MAX_BVLC, MAX_NPDU};
use crate::line::Line;
use bsc_network::{Way, WorldStep};
use bsc_node::NodeEvent;
use bsc_octets::{Identity, Octets, Vmac};
use bsc_player::LineFault;
use bsc_text::{
    OctetsFault, begins_comment, next_word, read_device, read_identity_words, read_number,
    read_octets, read_vmac,
};
use std::alloc::Global;

// ---- numbers

/// The number of a hub, a node or a link that a word is.
fn read_index(word: &[u8]) -> Option<u32>
    ensures { result ≡ index_of word.now }
{
    let n = read_number(word)?;
    if n > 4_294_967_295 {
        return None;
    }
    Some(n as u32)
}

/// The number of a hub, a node or a link that is the only word.
fn only_index(words: &[u8]) -> Result<u32, LineFault>
    ensures read { IfOk result (λ n. only_index (words_of words.now) ≡ Some n) }
    ensures refused { IfErr result (λ fault. only_index (words_of words.now) ≡ None) }
    ensures memory { result ≢ Err LineFault.NoMemory }
{
    let Some((word, words)) = next_word(words) else {
        return Err(LineFault::Refused);
    };
    if next_word(words).is_some() {
        return Err(LineFault::Refused);
    }
    read_index(word).ok_or(LineFault::Refused)
}

// ---- hubs, nodes and the clock

/// What a line says whose first word is `hub`, by the words after it.
fn read_hub(words: &[u8]) -> Option<Line>
    ensures { result ≡ hub_line (words_of words.now) }
{
    let who = read_identity_words(words)?;
    Some(Line::Hub(who))
}

/// Whether a node accepts direct connections, by the last words of its line.
fn read_direct(words: &[u8]) -> Option<bool>
    ensures { result ≡ direct_of_words (words_of words.now) }
{
    let Some((word, words)) = next_word(words) else {
        return Some(false);
    };
    if next_word(words).is_some() || word != b"direct".as_slice() {
        return None;
    }
    Some(true)
}

/// A node of these, the last words together.
fn node_of(vmac: &[u8], device: &[u8], words: &[u8]) -> Option<Line>
    ensures { result ≡ node_of (vmac_of_word vmac.now) (device_of_word device.now) (direct_of_words (words_of words.now)) }
{
    let own = Identity {
        vmac: read_vmac(vmac)?,
        device: read_device(device)?,
        max_bvlc: MAX_BVLC,
        max_npdu: MAX_NPDU,
    };
    let direct = read_direct(words)?;
    Some(Line::Node { own, direct })
}

/// What a line says whose first word is `node`, by the words after it.
fn read_node(words: &[u8]) -> Option<Line>
    ensures { result ≡ node_line (words_of words.now) }
{
    let (vmac, words) = next_word(words)?;
    let (device, words) = next_word(words)?;
    node_of(vmac, device, words)
}

/// What a line says whose first word is `at`, by the words after it.
fn read_at(words: &[u8]) -> Option<Line>
    ensures { result ≡ at_line (words_of words.now) }
{
    let (ms, words) = next_word(words)?;
    if next_word(words).is_some() {
        return None;
    }
    let ms = read_number(ms)?;
    Some(Line::At { ms })
}

// ---- events of a node

/// The octets that the words of a line write.
fn npdu_of(alloc: Global, words: &[u8]) -> Result<Octets, LineFault>
    ensures read { IfOk result (λ o. octets_of_words (words_of words.now) ≡ Some o) }
    ensures refused { result ≡ Err LineFault.Refused → octets_of_words (words_of words.now) ≡ None }
{
    match read_octets(alloc, words) {
        Ok(npdu) => Ok(npdu),
        Err(OctetsFault::Refused) => Err(LineFault::Refused),
        Err(OctetsFault::NoMemory) => Err(LineFault::NoMemory),
    }
}

/// An NPDU that is sent, by the words after the node's number.
fn read_send(alloc: Global, words: &[u8]) -> Result<NodeEvent, LineFault>
    ensures read { IfOk result (λ e. send_event (words_of words.now) ≡ Some e) }
    ensures refused { result ≡ Err LineFault.Refused → send_event (words_of words.now) ≡ None }
{
    let Some((word, words)) = next_word(words) else {
        return Err(LineFault::Refused);
    };
    let Some(dest) = read_vmac(word) else {
        return Err(LineFault::Refused);
    };
    let npdu = npdu_of(alloc, words)?;
    Ok(NodeEvent::Send { dest, npdu })
}

/// The VMAC that is the only word.
fn only_vmac(words: &[u8]) -> Option<Vmac>
    ensures { result ≡ only_vmac (words_of words.now) }
{
    let (word, words) = next_word(words)?;
    if next_word(words).is_some() {
        return None;
    }
    read_vmac(word)
}

/// An event that names nothing.
fn bare_event(word: &[u8]) -> Option<NodeEvent>
    ensures { result ≡ bare_event word.now }
{
    if word == b"start".as_slice() {
        return Some(NodeEvent::Start);
    }
    if word == b"tick".as_slice() {
        return Some(NodeEvent::Tick);
    }
    if word == b"finish".as_slice() {
        return Some(NodeEvent::Finish);
    }
    None
}

/// An event that names nothing, where no words follow.
fn bare_event_of(word: &[u8], words: &[u8]) -> Option<NodeEvent>
    ensures { result ≡ bare_event_of word.now (words_of words.now) }
{
    match next_word(words) {
        None => bare_event(word),
        Some(_) => None,
    }
}

/// An event that names a VMAC or nothing.
fn other_event(word: &[u8], words: &[u8]) -> Option<NodeEvent>
    ensures { result ≡ other_event word.now (words_of words.now) }
{
    if word == b"resolve".as_slice() {
        let v = only_vmac(words)?;
        return Some(NodeEvent::Resolve(v));
    }
    if word == b"direct".as_slice() {
        let v = only_vmac(words)?;
        return Some(NodeEvent::DirectTo(v));
    }
    if word == b"solicit".as_slice() {
        let v = only_vmac(words)?;
        return Some(NodeEvent::Solicit(v));
    }
    bare_event_of(word, words)
}

/// An event of a node's own, by the first word of its line and those after the node's number.
fn read_event(alloc: Global, word: &[u8], words: &[u8]) -> Result<NodeEvent, LineFault>
    ensures read { IfOk result (λ e. event_of word.now (words_of words.now) ≡ Some e) }
    ensures refused { result ≡ Err LineFault.Refused → event_of word.now (words_of words.now) ≡ None }
    ensures memory { result ≡ Err LineFault.NoMemory → word.now ≡ codes "send" }
{
    if word == b"send".as_slice() {
        return read_send(alloc, words);
    }
    other_event(word, words).ok_or(LineFault::Refused)
}

// ---- steps

/// An event of a node's own, by the first word of its line and those after it.
fn read_node_step(alloc: Global, word: &[u8], words: &[u8]) -> Result<WorldStep, LineFault>
    ensures read { IfOk result (λ s. node_step word.now (words_of words.now) ≡ Some s) }
    ensures refused { result ≡ Err LineFault.Refused → node_step word.now (words_of words.now) ≡ None }
    ensures memory { result ≡ Err LineFault.NoMemory → word.now ≡ codes "send" }
{
    let Some((node, words)) = next_word(words) else {
        return Err(LineFault::Refused);
    };
    let Some(node) = read_index(node) else {
        return Err(LineFault::Refused);
    };
    let event = read_event(alloc, word, words)?;
    Ok(WorldStep::Node { node, event })
}

/// A step, by the first word of its line and those after it.
fn read_step(alloc: Global, word: &[u8], words: &[u8]) -> Result<WorldStep, LineFault>
    ensures read { IfOk result (λ s. step_of word.now (words_of words.now) ≡ Some s) }
    ensures refused { result ≡ Err LineFault.Refused → step_of word.now (words_of words.now) ≡ None }
    ensures memory { result ≡ Err LineFault.NoMemory → word.now ≡ codes "send" }
{
    if word == b"up".as_slice() {
        let link = only_index(words)?;
        return Ok(WorldStep::Arrive { link, way: Way::Up });
    }
    if word == b"down".as_slice() {
        let link = only_index(words)?;
        return Ok(WorldStep::Arrive {
            link,
            way: Way::Down,
        });
    }
    if word == b"lose".as_slice() {
        let link = only_index(words)?;
        return Ok(WorldStep::Lose { link });
    }
    if word == b"take".as_slice() {
        let link = only_index(words)?;
        return Ok(WorldStep::Take { link });
    }
    if word == b"stop".as_slice() {
        let hub = only_index(words)?;
        return Ok(WorldStep::Stop { hub });
    }
    read_node_step(alloc, word, words)
}

// ---- a line

/// What a line says, or that it has no form of a line. Memory may run out.
#[tactic(auto, unfolding(crate::specs::Lines::line_of))]
pub fn read_line(alloc: Global, line: &[u8]) -> Result<Line, LineFault>
    ensures read { IfOk result (λ l. line_of line.now ≡ Some l) }
    ensures refused { result ≡ Err LineFault.Refused → line_of line.now ≡ None }
    ensures memory { result ≡ Err LineFault.NoMemory → (words : List (List ℕ)) × (words_of line.now ≡ codes "send" ∷ words) }
{
    let Some((word, words)) = next_word(line) else {
        return Ok(Line::Nothing);
    };
    if begins_comment(word) {
        return Ok(Line::Nothing);
    }
    if word == b"hub".as_slice() {
        return read_hub(words).ok_or(LineFault::Refused);
    }
    if word == b"node".as_slice() {
        return read_node(words).ok_or(LineFault::Refused);
    }
    if word == b"at".as_slice() {
        return read_at(words).ok_or(LineFault::Refused);
    }
    let step = read_step(alloc, word, words)?;
    Ok(Line::Step(step))
}

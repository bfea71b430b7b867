//! Places, phases and greatest lengths as words.
ghost use Rattle.std.specs.Prelude.{◌≡◌, take, drop};
ghost use Rattle.bsc_replay.specs.Asking.{phase_of_word, peer_of_word, place_of_word, max_of_word};

use bsc_checks::{Phase, Place};
use bsc_octets::Vmac;
use bsc_text::{read_number, read_vmac};

/// The phase that a word is.
pub fn read_phase(word: &[u8]) -> Option<Phase>
    ensures { result ≡ phase_of_word word.now }
{
    if word == b"request".as_slice() {
        return Some(Phase::AwaitingRequest);
    }
    if word == b"accept".as_slice() {
        return Some(Phase::AwaitingAccept);
    }
    if word == b"connected".as_slice() {
        return Some(Phase::Connected);
    }
    if word == b"disconnecting".as_slice() {
        return Some(Phase::Disconnecting);
    }
    None
}

/// A word's first `n` octets, and those behind them. A shorter word is all front.
fn cut(word: &[u8], n: usize) -> (&[u8], &[u8])
    ensures front { result.0.now ≡ take n word.now }
    ensures back { result.1.now ≡ drop n word.now }
{
    if n < word.len() {
        return word.split_at(n);
    }
    (word, &[])
}

/// The peer of a direct connection, by what follows the node's own VMAC: a colon, and a VMAC or `-`.
fn read_peer(word: &[u8]) -> Option<Option<Vmac>>
    ensures { result ≡ peer_of_word word.now }
{
    if word == b":-".as_slice() {
        return Some(None);
    }
    let (colon, peer) = cut(word, 1);
    if colon != b":".as_slice() {
        return None;
    }
    let peer = read_vmac(peer)?;
    Some(Some(peer))
}

/// The place that a word is, in this phase.
pub fn read_place(word: &[u8], phase: Phase) -> Option<Place>
    ensures { result ≡ place_of_word word.now phase }
{
    if word == b"hub".as_slice() {
        return Some(Place::HubPort { phase });
    }
    let (node, own) = cut(word, 5);
    if node == b"node:".as_slice() {
        let own = read_vmac(own)?;
        return Some(Place::NodeHub { own, phase });
    }
    let (direct, ends) = cut(word, 7);
    if direct != b"direct:".as_slice() {
        return None;
    }
    let (own, peer) = cut(ends, 12);
    let own = read_vmac(own)?;
    let peer = read_peer(peer)?;
    Some(Place::NodeDirect { own, peer, phase })
}

/// The greatest length that a word is: a decimal number of at most 65,535.
pub fn read_max(word: &[u8]) -> Option<u16>
    ensures { result ≡ max_of_word word.now }
{
    let n = read_number(word)?;
    if n > 65_535 {
        return None;
    }
    Some(n as u16)
}

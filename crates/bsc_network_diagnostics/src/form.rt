//! Which rule a line breaks that has no form of a line of a network's script (docs/NETWORK.md, "The lines of a script" and
//! "Steps").
ghost use Rattle.std.specs.Prelude.{◌≡◌, [], codes, None, IfSome};
ghost use Rattle.bsc_text.specs.Words.{words_of};
ghost use Rattle.bsc_diagnostics.specs.Broken.{Tells};
ghost use Rattle.bsc_diagnostics.specs.Forms.{Says, TellsFirst, by_form, of_word, or_no_line};
ghost use Rattle.bsc_network_diagnostics.specs.Lines.{asking_broken, direct_broken, direct_rule, event_broken, hub_broken, index_rule, network_broken, node_broken, of_index, send_broken, step_broken};
ghost use Rattle.bsc_network_script.specs.Lines.{line_of};

use bsc_diagnostics::{
    Diagnostic, first_of, hold, hold_device, hold_identity, hold_octets, hold_time, hold_vmac,
    hold_within, no_more, only_word, told_or, word_of,
};
use bsc_network_script::read_line;
use bsc_player::LineFault;
use bsc_text::next_word;
use std::alloc::Global;

pub(crate) const HUB: &str = "hub VMAC UUID MAXB MAXN";

pub(crate) const NODE: &str = "node VMAC UUID [direct]";

pub(crate) const SEND: &str = "send K VMAC OCTETS";

/// The greatest number of a hub, a node or a link.
const MOST: u64 = 4_294_967_295;

/// What has no form of a line, although each of its words is right.
pub(crate) const NO_LINE: Diagnostic<'static> = Diagnostic::Line {
    rule: "it is no line of a network's script",
};

/// The number of a hub, a node or a link.
fn index<'a>(word: &'a [u8]) -> Result<(), Diagnostic<'a>>
    ensures { Tells result word.now (index_rule word.now) }
{
    hold_within(word, 0, MOST, "is no number from 0 to 4294967295")
}

/// The end of a line of this form.
fn hold_end<'a>(words: &'a [u8], form: &'static str) -> Result<(), Diagnostic<'a>>
    ensures { TellsFirst result (by_form form.now [] (words_of words.now)) }
{
    no_more(words, form)
}

/// A hub line, by the words after `hub`.
fn hold_hub<'a>(words: &'a [u8]) -> Result<(), Diagnostic<'a>>
    ensures { TellsFirst result (hub_broken (words_of words.now)) }
{
    let (address, words) = word_of(words, HUB)?;
    let (uuid, words) = word_of(words, HUB)?;
    let (bvlc, words) = word_of(words, HUB)?;
    let (npdu, words) = word_of(words, HUB)?;
    first_of(
        hold_end(words, HUB),
        hold_identity(address, uuid, bvlc, npdu),
    )
}

/// A node line, by the words after `node`.
fn hold_node<'a>(words: &'a [u8]) -> Result<(), Diagnostic<'a>>
    ensures { TellsFirst result (node_broken (words_of words.now)) }
{
    let (address, words) = word_of(words, NODE)?;
    let (uuid, words) = word_of(words, NODE)?;
    hold_vmac(address)?;
    hold_device(uuid)?;
    hold_direct(words)
}

/// The word behind a node's device.
fn hold_behind<'a>(word: &'a [u8]) -> Result<(), Diagnostic<'a>>
    ensures { TellsFirst result (of_word word.now (direct_rule word.now)) }
{
    hold(
        word == b"direct".as_slice(),
        word,
        "isn't `direct`, which alone may stand behind the device",
    )
}

/// What may stand behind a node's device: `direct`, and nothing behind it.
fn hold_direct<'a>(words: &'a [u8]) -> Result<(), Diagnostic<'a>>
    ensures { TellsFirst result (direct_broken (words_of words.now)) }
{
    let Some((word, words)) = next_word(words) else {
        return Ok(());
    };
    first_of(hold_behind(word), hold_end(words, NODE))
}

/// A line that says what the user of a node wants of a VMAC, by the words after its first.
fn hold_asking<'a>(words: &'a [u8], form: &'static str) -> Result<(), Diagnostic<'a>>
    ensures { TellsFirst result (asking_broken form.now (words_of words.now)) }
{
    let (node, words) = word_of(words, form)?;
    index(node)?;
    hold_vmac(only_word(words, form)?)
}

/// A line that says one number, by the words after its first.
fn hold_index<'a>(words: &'a [u8], form: &'static str) -> Result<(), Diagnostic<'a>>
    ensures { TellsFirst result (of_index form.now (words_of words.now)) }
{
    index(only_word(words, form)?)
}

/// A step of a link or of a hub, by its first word and those after it.
fn hold_step<'a>(first: &'a [u8], words: &'a [u8]) -> Result<(), Diagnostic<'a>>
    ensures { TellsFirst result (step_broken first.now (words_of words.now)) }
{
    if first == b"up".as_slice() {
        return hold_index(words, "up L");
    }
    if first == b"down".as_slice() {
        return hold_index(words, "down L");
    }
    if first == b"take".as_slice() {
        return hold_index(words, "take L");
    }
    if first == b"lose".as_slice() {
        return hold_index(words, "lose L");
    }
    if first == b"stop".as_slice() {
        return hold_index(words, "stop J");
    }
    Err(Diagnostic::Word {
        word: first,
        rule: "begins no line: hub, node, at, start, tick, send, resolve, direct, solicit, finish, up, down, take, lose and stop do",
    })
}

/// What is sent: a node, a VMAC, and octets, by the words after `send`.
fn hold_send<'a>(words: &'a [u8]) -> Result<(), Diagnostic<'a>>
    ensures { TellsFirst result (send_broken (words_of words.now)) }
{
    let (node, words) = word_of(words, SEND)?;
    let (dest, words) = word_of(words, SEND)?;
    index(node)?;
    hold_vmac(dest)?;
    hold_octets(words)
}

/// A step of a node, or another, by its first word and those after it.
fn hold_event<'a>(first: &'a [u8], words: &'a [u8]) -> Result<(), Diagnostic<'a>>
    ensures { TellsFirst result (event_broken first.now (words_of words.now)) }
{
    if first == b"start".as_slice() {
        return hold_index(words, "start K");
    }
    if first == b"tick".as_slice() {
        return hold_index(words, "tick K");
    }
    if first == b"finish".as_slice() {
        return hold_index(words, "finish K");
    }
    if first == b"resolve".as_slice() {
        return hold_asking(words, "resolve K VMAC");
    }
    if first == b"direct".as_slice() {
        return hold_asking(words, "direct K VMAC");
    }
    if first == b"solicit".as_slice() {
        return hold_asking(words, "solicit K VMAC");
    }
    if first == b"send".as_slice() {
        return hold_send(words);
    }
    hold_step(first, words)
}

/// A line that does something.
fn hold_line<'a>(line: &'a [u8]) -> Result<(), Diagnostic<'a>>
    ensures { TellsFirst result (network_broken (words_of line.now)) }
{
    let Some((first, words)) = next_word(line) else {
        return Ok(());
    };
    if first == b"hub".as_slice() {
        return hold_hub(words);
    }
    if first == b"node".as_slice() {
        return hold_node(words);
    }
    if first == b"at".as_slice() {
        return hold_time(words);
    }
    hold_event(first, words)
}

/// The rule that a line breaks which has no form of a line of a network's script; None of one that has.
pub fn why_network_line<'a>(alloc: Global, line: &'a [u8]) -> Option<Diagnostic<'a>>
    ensures refused { IfSome result (λ reason. line_of line.now ≡ None) }
    ensures told { IfSome result (λ reason. Says reason (or_no_line (codes "it is no line of a network's script") (network_broken (words_of line.now)))) }
{
    match read_line(alloc, line) {
        Ok(_) | Err(LineFault::NoMemory) => None,
        Err(LineFault::Refused) => Some(told_or(
            hold_line(line),
            "it is no line of a network's script",
        )),
    }
}

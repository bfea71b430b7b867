//! Which rule a line of a network's script breaks by where it stands.
ghost use Rattle.std.specs.Prelude.{◌≡◌, ◌⊎◌, ℕ, List, Some, option_map};
ghost use Rattle.bsc_text.specs.Words.{words_of};
ghost use Rattle.bsc_network_script.specs.declared.line.Line.{Line as LineType};
ghost use Rattle.bsc_network_script.specs.Lines.{line_of};
ghost use Rattle.bsc_network_diagnostics.specs.Places.{IsNoHub, IsOfLink, first_of, link_rule, second_of};

use crate::form::{HUB, NO_LINE, NODE, SEND};
use crate::misplaced::Misplaced;
use bsc_diagnostics::{
    Diagnostic, hold_destination, hold_hub_identity, hold_one_node, next_line, why_time, word_of,
};
use bsc_network::{NODES, WorldStep};
use bsc_network_script::{Line, read_line};
use bsc_node::NodeEvent;
use bsc_text::next_word;
use std::alloc::Global;

/// What was said before a hub.
const NO_HUB: Diagnostic<'static> = Diagnostic::Line {
    rule: "the first line that does something has to be a hub line",
};

/// What stands after some lines, all of which were accepted.
#[derive(Clone, Copy)]
struct Stands {
    hubs: u64,
    nodes: u64,
    has_stepped: bool,
    /// Whether the node that a line is of has started.
    has_started: bool,
}

/// Whether a line starts this node.
fn starts(line: &Line, node: Option<u32>) -> bool {
    match line {
        Line::Step(WorldStep::Node { node: other, event }) => {
            node == Some(*other) && matches!(event, NodeEvent::Start)
        }
        _ => false,
    }
}

/// What stands after a line more.
fn after_line(stands: Stands, line: &Line, node: Option<u32>) -> Stands {
    match line {
        Line::Hub(_) => Stands {
            hubs: stands.hubs.saturating_add(1),
            ..stands
        },
        Line::Node { .. } => Stands {
            nodes: stands.nodes.saturating_add(1),
            ..stands
        },
        Line::Step(_) => Stands {
            has_stepped: true,
            has_started: stands.has_started || starts(line, node),
            ..stands
        },
        Line::Nothing | Line::At { .. } => stands,
    }
}

/// What stands after some lines.
fn after_lines(alloc: Global, lines: &[u8], node: Option<u32>) -> Stands {
    let mut stands = Stands {
        hubs: 0,
        nodes: 0,
        has_stepped: false,
        has_started: false,
    };
    let mut rest = lines;
    while let Some((line, after)) = next_line(rest) {
        if let Ok(line) = read_line(alloc, line) {
            stands = after_line(stands, &line, node);
        }
        rest = after;
    }
    stands
}

/// The node that a line is of.
fn node_in(line: &Line) -> Option<u32> {
    match line {
        Line::Step(WorldStep::Node { node, .. }) => Some(*node),
        _ => None,
    }
}

/// The rule that a hub breaks by where it stands, by the words after `hub`.
fn why_hub<'a>(stands: Stands, words: &'a [u8]) -> Result<(), Diagnostic<'a>> {
    if stands.has_stepped {
        return Err(Diagnostic::Line {
            rule: "a step was made, and hubs stand before all steps",
        });
    }
    if stands.hubs >= 2 {
        return Err(Diagnostic::Line {
            rule: "there are two hubs already",
        });
    }
    let (address, words) = word_of(words, HUB)?;
    let (_, words) = word_of(words, HUB)?;
    let (bvlc, words) = word_of(words, HUB)?;
    let (npdu, _) = word_of(words, HUB)?;
    hold_hub_identity(address, bvlc, npdu)
}

/// The rule that a node breaks by where it stands, by the words after `node`.
fn why_node<'a>(stands: Stands, words: &'a [u8]) -> Result<(), Diagnostic<'a>> {
    if stands.has_stepped {
        return Err(Diagnostic::Line {
            rule: "a step was made, and nodes stand before all steps",
        });
    }
    if stands.nodes >= u64::from(NODES) {
        return Err(Diagnostic::Line {
            rule: "there are 64 nodes already",
        });
    }
    let (address, _) = word_of(words, NODE)?;
    hold_one_node(address)
}

/// The rule that a step of a node breaks.
fn why_event<'a>(
    stands: Stands,
    node: u32,
    event: &NodeEvent,
    words: &'a [u8],
) -> Result<(), Diagnostic<'a>> {
    let (word, words) = word_of(words, SEND)?;
    if let NodeEvent::Send { npdu, .. } = event {
        let (dest, _) = word_of(words, SEND)?;
        hold_destination(dest)?;
        if npdu.is_empty() {
            return Err(Diagnostic::Missing { form: SEND });
        }
    }
    if stands.nodes <= u64::from(node) {
        return Err(Diagnostic::Word {
            word,
            rule: "is the number of no node",
        });
    }
    let rule = if stands.has_started {
        "is the number of a node that has started already"
    } else {
        "is the number of a node that hasn't started"
    };
    Err(Diagnostic::Word { word, rule })
}

/// The rule that a stop of a hub breaks.
fn why_stop<'a>(stands: Stands, hub: u32, words: &'a [u8]) -> Result<(), Diagnostic<'a>> {
    let (word, _) = word_of(words, "stop J")?;
    let rule = if stands.hubs <= u64::from(hub) {
        "is the number of no hub"
    } else {
        "is the number of a hub that has stopped already"
    };
    Err(Diagnostic::Word { word, rule })
}

/// The rule that a step breaks which is of no link.
fn why_step<'a>(stands: Stands, step: &WorldStep, words: &'a [u8]) -> Result<(), Diagnostic<'a>> {
    match step {
        WorldStep::Node { node, event } => why_event(stands, *node, event, words),
        WorldStep::Stop { hub } => why_stop(stands, *hub, words),
        WorldStep::Arrive { .. } | WorldStep::Take { .. } | WorldStep::Lose { .. } => Ok(()),
    }
}

/// The rule that a line breaks by where it stands, by the words after its first.
fn hold_place<'a>(stands: Stands, line: &Line, words: &'a [u8]) -> Result<(), Diagnostic<'a>> {
    match line {
        Line::Nothing => Ok(()),
        Line::Hub(_) => why_hub(stands, words),
        Line::Node { .. } => why_node(stands, words),
        Line::At { .. } => {
            let (word, _) = word_of(words, "at MS")?;
            Err(why_time(word))
        }
        Line::Step(step) => why_step(stands, step, words),
    }
}

/// The rule that the step of a link breaks where the link is there.
fn rule_of_link(line: &Line) -> Option<&'static str>
    ensures { option_map (λ rule. rule.now) result ≡ link_rule line.now }
{
    match line {
        Line::Step(WorldStep::Arrive { .. }) => {
            Some("is the number of a link where nothing stands on this way")
        }
        Line::Step(WorldStep::Take { .. }) => {
            Some(
                "is the number of a link whose other end takes from no outbox: a node, or a hub's side that isn't connected",
            )
        }
        Line::Step(WorldStep::Lose { .. }) => Some("is the number of a link that can be lost"),
        _ => None,
    }
}

/// The first of these words; no octets where there is none.
fn first_of(words: &[u8]) -> &[u8]
    ensures { result.now ≡ first_of (words_of words.now) }
{
    match next_word(words) {
        Some((word, _)) => word,
        None => &[],
    }
}

/// The words behind the first.
fn behind_first(line: &[u8]) -> &[u8]
    ensures { first_of (words_of result.now) ≡ second_of (words_of line.now) }
{
    match next_word(line) {
        Some((_, words)) => words,
        None => &[],
    }
}

/// Why a line is refused behind lines after which this stands, by the words after its first.
fn why_behind<'a>(stands: Stands, line: &Line, words: &'a [u8]) -> Misplaced<'a>
    ensures { (rule : List ℕ) → link_rule line.now ≡ Some rule → IsNoHub result ⊎ IsOfLink result (first_of (words_of words.now)) rule }
{
    if stands.hubs == 0 && !matches!(line, Line::Hub(_)) {
        return Misplaced::Rule(NO_HUB);
    }
    if let Some(rule) = rule_of_link(line) {
        return Misplaced::Link {
            word: first_of(words),
            rule,
        };
    }
    match hold_place(stands, line, words) {
        Err(reason) => Misplaced::Rule(reason),
        Ok(()) => Misplaced::Rule(NO_LINE),
    }
}

/// Why a line is refused by where it stands, behind these lines, all of which were accepted.
pub fn why_network_place<'a>(alloc: Global, before: &[u8], line: &'a [u8]) -> Misplaced<'a>
    // Of the step of a link it is told which word names the link, and what is wrong with one that is there; or that no hub is.
    ensures link { (said : LineType) (rule : List ℕ) → line_of line.now ≡ Some said → link_rule said ≡ Some rule
        → IsNoHub result ⊎ IsOfLink result (second_of (words_of line.now)) rule }
{
    let Ok(said) = read_line(alloc, line) else {
        return Misplaced::Rule(NO_LINE);
    };
    why_behind(
        after_lines(alloc, before, node_in(&said)),
        &said,
        behind_first(line),
    )
}

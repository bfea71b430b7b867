//! What a key of the settings takes (docs/SETTINGS.md).
ghost use Rattle.std.specs.Prelude.{◌≡◌};
ghost use Rattle.bsc_settings_diagnostics.specs.Ranges.{range_of};

use bsc_settings::{KeyName, hub_range, node_range};

/// The least and the greatest number that a key of the table `node` or of the table `hub` takes, where it takes a number; the
/// greatest wait of a node is at least its least one, which is handed in.
pub(crate) fn range_of(least: u64, is_node: bool, word: &str) -> Option<(u64, u64)>
    ensures { result ≡ range_of least is_node word.now }
{
    if is_node {
        node_range(word, least)
    } else {
        hub_range(word)
    }
}

/// What a key takes that takes a text.
pub(crate) fn text_of(key: KeyName) -> &'static str {
    match key {
        KeyName::HubVmac | KeyName::NodeVmac => {
            "a text of 12 hexadecimal digits, neither 000000000000 nor FFFFFFFFFFFF"
        }
        KeyName::HubUuid | KeyName::NodeUuid => "a text that is a UUID",
        KeyName::NodePrimary | KeyName::NodeFailover => "a text that begins with ws://",
        KeyName::NodeDirectUris => "a text of URIs with one space between two",
        _ => "a value of this key",
    }
}

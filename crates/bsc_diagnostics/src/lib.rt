//! What is said of an input that is refused: the rule that its line breaks.
//!
//! Start at `Diagnostic` (`src/diagnostic.rt`): the first rule, from the left, that a line breaks. `src/rules.rt` has the rules
//! of words that several languages of lines share, and `Shown` (`src/shown.rt`) octets as they are shown. A crate for each kind of
//! input stands above: `bsc_line_diagnostics`, `bsc_network_diagnostics`, `bsc_settings_diagnostics`, `bsc_cli_diagnostics`.
#![tactic(auto)]

mod cutting;
mod diagnostic;
mod rules;
mod shown;

pub use cutting::next_line;
pub use diagnostic::Diagnostic;
pub use rules::{
    first_of, hold, hold_any_maximum, hold_destination, hold_device, hold_digits,
    hold_hub_identity, hold_identity, hold_name, hold_number, hold_octets, hold_one_node,
    hold_time, hold_vmac, hold_within, no_more, only_word, told_or, why_time, word_of,
};
pub use shown::Shown;

//! Which rule a refused line breaks: of a script of one hub, of the lines of `check`, of a node's script, and of a journal.
//!
//! Of each language one module names the first rule that a line breaks, in the words of its page: `script`, `question`,
//! `node_script` and `journal`. `why_.._line` is of a line that has no form of one, `why_.._place` of one that may not stand
//! behind the lines before it.
#![tactic(auto)]

mod journal;
mod node_script;
mod question;
mod script;

pub use journal::why_journal_line;
pub use node_script::{why_node_line, why_node_place};
pub use question::why_check_line;
pub use script::{why_script_line, why_script_place};

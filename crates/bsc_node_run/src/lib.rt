//! Runs a node (Annex AB): its links, its script and the time.
//!
//! Start at `running`, and go down: `turning` is one turn, `notifying` and `hearing` what a node is told in it, `telling` one event,
//! `performing` carries out what the node does. `link_set` has the links of a node, and what is new of them; `calling` receives and
//! puts on them where they stand.
#![tactic(auto)]

mod bounds;
mod calling;
mod due;
mod halt;
mod hearing;
mod in_hand;
mod laws;
mod line;
mod link_set;
mod linking;
mod mem_words;
mod news;
mod node_core;
mod notifying;
mod parts;
mod performing;
mod reading;
mod run_end;
mod run_terms;
mod running;
mod saying;
mod script;
mod scripting;
mod telling;
mod texts;
mod turn_context;
mod turn_end;
mod turn_start;
mod turning;
mod words;

pub use bounds::{ACCEPT_WAIT_MS, LINK_WAIT_MS, LONGEST_REST_MS};
pub use due::Due;
pub use halt::Halt;
pub use laws::{rests_50_ms_at_most, waits_for_nothing_in_a_turn};
pub use line::{Line, LineFault};
pub use link_set::LinkSet;
pub use mem_words::MemWords;
pub use news::{Change, News};
pub use node_core::Core;
pub use parts::NodeParts;
pub use performing::perform;
pub use reading::read_script;
pub use run_end::RunEnd;
pub use run_terms::RunTerms;
pub use running::run_core;
pub use saying::read_line;
pub use script::{Script, ScriptFault};
pub use turn_end::TurnEnd;
pub use turn_start::TurnStart;
pub use turning::node_turn;
pub use words::Words;

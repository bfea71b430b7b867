//! The command `node`: a node by the settings in a file and the script in another, run until it has ended or has made as
//! many turns as it may.
//!
//! Start at `specs/Comes.antt`, which says what running a node comes to, what is written of it, and with which status.
//! `command` has `run_node_files`, which loads settings and script; `playing` has `run_node`, which reads the script, makes
//! the node and runs it; `running_node` is the node as its runner sees it. `laws` has how the links of such a run were used.
//! `living` has `run_live`, which runs a node by lines as they come, and `live_command` has `run_live_file`, which loads its settings;
//! `specs/Lives.antt` says what that comes to.
//! `testing` has `test_node`, which tries settings and script and runs nothing; `specs/Tested.antt` says what that writes.
#![tactic(auto)]

mod command;
mod laws;
mod live_command;
mod living;
mod making;
mod node_context;
mod playing;
mod random_words;
mod running_node;
mod testing;
mod texts;
mod words;

pub use command::run_node_files;
pub use laws::{ran_nodes_tell, ran_nodes_use_links, stopped_nodes_tell, stopped_nodes_use_links};
pub use live_command::run_live_file;
pub use living::run_live;
pub use playing::run_node;
pub use random_words::RandomWords;
pub use running_node::RunningNode;
pub use testing::test_node;
pub use words::NodeWords;

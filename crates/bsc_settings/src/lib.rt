//! What is settled before a hub or a node starts, read from a TOML document.
//!
//! Start at `specs/Table.antt`, the tables of keys: what each takes, and its default. `specs/Policies.antt` says which policy
//! a document has, `specs/Faults.antt` which key of it is named as the first at fault, and `specs/Fields.antt` which settings
//! a document without a fault says. `reading` has `read_settings`, which is held to both.
#![tactic(auto)]

mod bounds;
mod fault;
mod groups;
mod hub;
mod hub_said;
mod hub_table;
mod key;
mod known;
mod known_policy;
mod laws;
mod listed_policy;
mod listing;
mod node;
mod node_table;
mod policy_rows;
mod policy_table;
mod reading;
mod refusal;
mod refused_key;
mod running;
mod settings;
mod unread;
mod uris;
mod values;

pub use bounds::{GREATEST_MS, LEAST_MS, MAX_GROUP_LEN, MOST_TURNS, RECONNECT_MS};
pub use fault::SettingFault;
pub use hub::HubSettings;
pub use hub_table::{hub_range, is_hub_key};
pub use key::KeyName;
pub use laws::{settings_are_of_nodes, times_are_of_100_ms_to_an_hour};
pub use listed_policy::PolicyLists;
pub use listing::policy_lists;
pub use node::NodeSettings;
pub use node_table::{is_node_key, node_range};
pub use reading::{read_settings, refusal_of};
pub use refusal::{EntryFault, PolicyRefusal};
pub use settings::Settings;

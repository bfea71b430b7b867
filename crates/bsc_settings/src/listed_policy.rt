//! What the policy of a document lists.
use bsc_policy::{Member, Rule};

/// The members and the rules that a document lists in its table `policy`, in their order.
#[derive(Drop)]
pub struct PolicyLists {
    pub members: Vec<Member>,
    pub rules: Vec<Rule>,
}

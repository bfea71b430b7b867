//! The entries of a history.
use crate::call::Call;
use crate::looks::Looks;
use crate::reply::Reply;

/// An entry of a history: who called, with what call, what the call's looks found, and the reply.
#[derive(Debug, Drop)]
pub struct Entry {
    pub caller: u64,
    pub call: Call,
    pub looks: Looks,
    pub reply: Reply,
}

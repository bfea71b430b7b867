//! What an audit comes to, and why.
use crate::audit_end::AuditEnd;
use bsc_octets::Octets;

/// What an audit of journals comes to, and what is told beside it.
#[derive(Debug, Drop)]
pub struct Verdict {
    /// What it comes to.
    pub end: AuditEnd,
    /// Why the journals aren't one legal history, in one line without its end; None where they are or weren't read, where a line is
    /// bad, and where there is no memory to tell it.
    pub why: Option<Octets>,
}

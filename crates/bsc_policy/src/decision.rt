//! What is decided of a pair of addresses.

/// What a policy decides of what goes from one address to another, and the rule that says so. Rules are numbered from 1;
/// rule 0 stands for none.
#[derive(Clone, Copy, Debug, PartialEq, Eq)]
pub enum Decision {
    /// It may go.
    Allowed { rule: u32 },
    /// It may not.
    Denied { rule: u32 },
}

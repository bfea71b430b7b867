//! How large a policy may be.

/// How many members are taken at most. Code, clauses and proofs all have the number from here, as they have the next two.
pub const MEMBERS: u32 = 1024;

/// How many rules are taken at most.
pub const RULES: u32 = 256;

/// How many names of groups there are at most on a side of the rules: `*`, and one of each rule.
pub const NAMES: u32 = RULES + 1;

//! How much is kept.
use bsc_text::MAX_LINE_LEN;

/// So many octets of a line are kept at most while its end isn't read: one more than a line may have, and a CR.
pub const MOST_KEPT: usize = MAX_LINE_LEN + 2;

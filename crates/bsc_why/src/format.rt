//! The languages of lines.

/// A language of lines, whose refused lines are explained.
#[derive(Clone, Copy, Debug, PartialEq, Eq)]
pub enum Format {
    /// The script of one hub, which `replay` plays.
    Script,
    /// The script of a network, which `simulate` plays.
    Network,
    /// The lines of `check`.
    Question,
    /// The script of a node.
    NodeScript,
    /// The journals that `audit` reads.
    Journal,
}

//! Questions.

/// An Address-Resolution that was put.
#[derive(Clone, Copy, Debug, PartialEq, Eq)]
pub struct Question {
    /// Its Message ID.
    pub id: u16,
    /// When it was asked, in milliseconds.
    pub asked: u64,
}

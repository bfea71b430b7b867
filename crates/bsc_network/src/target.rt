//! What a link leads to.

/// What a link leads to, by its number.
#[derive(Clone, Copy, Debug, PartialEq, Eq)]
pub enum Target {
    Hub(u32),
    Node(u32),
}

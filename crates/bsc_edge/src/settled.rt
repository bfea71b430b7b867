//! How the dial of a link stands.

/// How the dial of a link stands, once its link was asked.
#[derive(Clone, Copy, Debug, PartialEq, Eq)]
pub enum Settled {
    /// Its handshake is over: messages can be put and received.
    Open,
    /// The connection or its handshake is still under way.
    UnderWay,
    /// The dial has failed, or took too long. The link is of no use.
    Failed,
}

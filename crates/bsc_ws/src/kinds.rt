//! The kinds of links, as types: a server's handshake takes those of its type alone.
ghost use Rattle.std.specs.Prelude.{◌≡◌};
ghost use Rattle.bsc_edge.specs.declared.kind.Kind.TheVariants as kinds;

use bsc_edge::Kind;

/// A kind of links.
pub(crate) trait OfKind {
    ghost use Rattle.bsc_edge.specs.declared.kind.Kind.{Kind as KindType};

    /// Which it is.
    ghost kind: { KindType };

    /// Which it is.
    fn kind() -> Kind
        ensures { result ≡ kind };
}

/// Links to a hub.
#[derive(Drop)]
pub(crate) struct OfHub;

/// Direct links between nodes.
#[derive(Drop)]
pub(crate) struct OfDirect;

impl OfKind for OfHub {
    ghost kind = { kinds.Hub };

    fn kind() -> Kind {
        Kind::Hub
    }
}

impl OfKind for OfDirect {
    ghost kind = { kinds.Direct };

    fn kind() -> Kind {
        Kind::Direct
    }
}

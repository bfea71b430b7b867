//! What opens streams to peers.
ghost use Rattle.std.specs.Prelude.{[], ◌∷◌};
ghost use Rattle.bsc_edge.specs.Told.{Grows};

use bsc_edge::LinkFault;
use std::alloc::Global;
use std::net::SocketAddrV4;

/// Opens streams to peers.
pub trait Opener<T, W, K> {
    ghost use Rattle.std.specs.Prelude.{List, None, Option};
    ghost use Rattle.std.specs.declared.net.socket_addr.SocketAddrV4.{SocketAddrV4 as AddressType};

    /// The addresses to which it was to open streams, in order, where they are told.
    ghost opened: { Self → Option (List AddressType) } = { λ _. None };

    /// A stream to this address whose reads wait, with its patience and the keys of its link.
    fn open(&mut self, alloc: Global, address: SocketAddrV4) -> Result<(T, W, K), LinkFault>
        ensures { Grows (opened self.old) (opened self.new) (address ∷ []) };
}

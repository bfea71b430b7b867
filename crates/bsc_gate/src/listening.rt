//! Sockets that listen.
ghost use Rattle.std.specs.Prelude.{◌≡◌, IfOk};

use mio::net::TcpListener;
use std::io;
use std::net::{Net, SocketAddr, SocketAddrV4};

/// A socket that listens, and the address that it was bound to; with port 0 the system chose another.
#[derive(Drop)]
pub(crate) struct Listening {
    pub(crate) listener: TcpListener,
    pub(crate) at: SocketAddrV4,
}

impl Listening {
    /// Listens at this address.
    pub(crate) fn bind<R: Net>(rt: &R, at: SocketAddrV4) -> io::Result<Listening>
        ensures { IfOk result (λ l. l.at ≡ at) }
    {
        Ok(Listening {
            listener: TcpListener::bind(rt, SocketAddr::V4(at))?,
            at,
        })
    }
}

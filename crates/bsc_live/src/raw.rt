//! Sockets, and what their writes took.
ghost use Rattle.std.specs.Prelude.{◌≡◌, [], Some};
ghost use Rattle.std.specs.Io.{ReadsAtMost, WritesAtMost};
ghost use Rattle.std.specs.Io.KnownBytes.{WriteAppends};

use bsc_past::Past;
use mio::net::TcpStream;
use std::io::{self, Read, Write};

/// A socket that doesn't block. It tells contracts the octets that its writes took, by what they answered.
#[derive(Drop)]
pub(crate) struct RawSocket {
    pub(crate) socket: TcpStream,
    pub(crate) left: Past<u8>,
}

impl RawSocket {
    /// This socket, which took nothing yet.
    pub(crate) fn new(socket: TcpStream) -> RawSocket
        ensures socket { result.socket ≡ socket }
        ensures left { result.left.items ≡ [] }
    {
        RawSocket {
            socket,
            left: Past::new(),
        }
    }

    /// One read of the system.
    pub(crate) fn read(&mut self, into: &mut [u8]) -> io::Result<usize>
        ensures bound { ReadsAtMost result into.new }
        ensures left { self.new.left.items ≡ self.old.left.items }
    {
        self.socket.read(into)
    }

    /// One write of the system.
    pub(crate) fn write(&mut self, octets: &[u8]) -> io::Result<usize>
        ensures bound { WritesAtMost result octets.now }
        ensures left { WriteAppends (Some self.old.left.items) (Some self.new.left.items) result octets.now }
    {
        let n = self.socket.write(octets)?;
        self.left.add_all(&octets[..n]);
        Ok(n)
    }

    /// The socket.
    pub(crate) fn into_inner(self) -> TcpStream
        ensures { result ≡ self.socket }
    {
        let RawSocket { socket, left: _ } = self;
        socket
    }
}

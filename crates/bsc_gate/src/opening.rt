//! The opener of sockets.
ghost use Rattle.std.specs.Prelude.{◌≡◌, [], ◌∷◌, ◌++◌, Some};

use crate::socket_link::{HANDSHAKE_MS, alive};
use bsc_edge::LinkFault;
use bsc_live::{Lingering, LivePatience, LiveStream, Moment, Wakers, Watch};
use bsc_past::Past;
use bsc_ws::{Opener, RandomKeys};
use mio::net::TcpStream;
use std::alloc::Global;
use std::io;
use std::net::{Net, SocketAddr, SocketAddrV4};
use std::random::RandomSource;
use std::sync::{Arc, Wait};
use std::time::Clock;

/// Opens sockets to peers. To connect and to make the handshake a peer has 1,000 ms as a whole. It tells contracts the addresses to
/// which it was to open one.
#[derive(Drop)]
pub struct SocketOpener<R> {
    rt: R,
    bells: Arc<Wakers>,
    watch: Option<Arc<Watch>>,
    lingering: Option<Arc<Lingering>>,
    opened: Past<SocketAddrV4>,
}

/// Begins to connect a socket to this address, and notes that.
fn connect<R: Net>(
    rt: &R,
    address: SocketAddrV4,
    opened: &mut Past<SocketAddrV4>,
) -> io::Result<TcpStream>
    ensures { opened.new.items ≡ opened.old.items ++ address ∷ [] }
{
    opened.add(&address);
    TcpStream::connect(rt, SocketAddr::V4(address))
}

impl<R> SocketOpener<R> {
    /// An opener for the links of a hub or a node that has these bells.
    pub fn new(rt: R, bells: Arc<Wakers>) -> SocketOpener<R>
        ensures { result.opened.items ≡ [] }
    {
        SocketOpener {
            rt,
            bells,
            watch: None,
            lingering: None,
            opened: Past::new(),
        }
    }

    /// The same opener, whose links are waited for at this watch.
    pub fn watched_by(self, watch: Arc<Watch>) -> SocketOpener<R>
        ensures { result.opened.items ≡ self.opened.items }
    {
        let mut opener = self;
        opener.watch = Some(watch);
        opener
    }

    /// The same opener, whose links' sockets linger here once they are dropped.
    pub fn lingering_at(self, lingering: Arc<Lingering>) -> SocketOpener<R>
        ensures { result.opened.items ≡ self.opened.items }
    {
        let mut opener = self;
        opener.lingering = Some(lingering);
        opener
    }
}

impl<R: Clock + Net + Wait + RandomSource + Copy + Drop> Opener<
    LiveStream<R>,
    LivePatience<R>,
    RandomKeys<R>,
> for SocketOpener<R> {
    ghost opened = { λ o. Some o.opened.items };

    fn open(
        &mut self,
        alloc: Global,
        address: SocketAddrV4,
    ) -> Result<(LiveStream<R>, LivePatience<R>, RandomKeys<R>), LinkFault> {
        // It answers at once: the first write waits until the peer has answered.
        let Ok(socket) = connect(&self.rt, address, &mut self.opened) else {
            return Err(LinkFault::Failed);
        };
        let (stream, wait) = alive(
            self.rt,
            alloc,
            socket,
            &self.bells,
            &self.watch,
            &self.lingering,
        )?;
        let (Ok(now), Ok(bell)) = (Moment::now(&self.rt), stream.bell()) else {
            return Err(LinkFault::Failed);
        };
        bell.set_until(now.after(HANDSHAKE_MS));
        Ok((stream, wait, RandomKeys::new(self.rt)))
    }
}

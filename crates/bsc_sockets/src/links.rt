//! The links of the program, and what dials them.
use crate::boxed_link::BoxedLink;
use crate::boxing_dialer::BoxingDialer;
use crate::waiting::Shared;
use bsc_edge::{ToldDialer, ToldLink};
use bsc_gate::{SocketLink, SocketOpener};
use bsc_live::Wakers;
use bsc_log::{LoggedLink, UnloggedDialer};
use bsc_octets::NoMemory;
use bsc_ws::StreamDialer;
use std::alloc::Global;
use std::net::Net;
use std::random::RandomSource;
use std::sync::{Arc, Wait};
use std::time::Clock;

/// A link of the program: over a socket, dialled or accepted, in memory of its own. It tells its talk to contracts, and a log may be
/// told of one that was accepted.
pub type RealLink<R> = BoxedLink<ToldLink<LoggedLink<SocketLink<R>, R>>>;

/// The dialer of the program's links. It tells its calls to contracts, and which links came.
pub type RealDialer<R> = ToldDialer<
    BoxingDialer<UnloggedDialer<StreamDialer<SocketOpener<R>>>>,
    RealLink<R>,
>;

/// The dialer of links over sockets, which share this.
pub fn real_dialer<R: Clock + Net + RandomSource + Wait + Copy + Drop>(
    rt: R,
    alloc: Global,
    shared: Shared,
) -> Result<RealDialer<R>, NoMemory> {
    let bells = Arc::new(alloc, Wakers::new(alloc)?)?;
    let Shared { watch, lingering } = shared;
    let opener = SocketOpener::new(rt, bells).lingering_at(lingering);
    let dialer = StreamDialer::new(match watch {
        Some(watch) => opener.watched_by(watch),
        None => opener,
    });
    Ok(ToldDialer::new(BoxingDialer::new(UnloggedDialer::new(dialer))))
}

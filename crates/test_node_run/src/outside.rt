//! What a run has outside, in memory.
use crate::play_log::PlayLog;
use crate::row::{Gives, Peer, Row};
use crate::watched::Watched;
use bsc_edge::{Incoming, MemAcceptor, MemClock, MemDialer, MemFile, MemFiles, MemLink, MemWaiter};
use bsc_node_run::{MemWords, NodeParts};
use bsc_octets::NoMemory;
use bsc_outside::MemSink;
use bsc_text::{copy_of, read_octets};
use std::alloc::Global;
use std::cell::Cell;
use std::rc::Rc;

/// How many octets may be written.
const ROOM: usize = 2000;

/// A link whose puts and closings are noted.
pub type WatchedLink = Watched<MemLink<'static>>;

/// What a run has outside.
#[derive(Drop)]
pub struct Outside {
    pub sink: MemSink<'static>,
    pub files: MemFiles<'static>,
    pub clock: Watched<MemClock<'static>>,
    pub acceptor: MemAcceptor<'static, WatchedLink>,
    pub node: NodeParts<MemWaiter, MemWords<'static>, Watched<MemDialer<'static, WatchedLink>>>,
}

/// The links to these peers. A message without digits is left out.
fn links(
    alloc: Global,
    log: &Rc<PlayLog>,
    peers: &'static [Peer],
) -> Result<Vec<WatchedLink>, NoMemory> {
    let mut links = Vec::new(alloc);
    for peer in peers {
        let mut gives = Vec::new(alloc);
        for thing in peer.gives {
            match thing {
                Gives::Message(digits) => {
                    if let Ok(octets) = read_octets(alloc, digits.as_bytes()) {
                        gives.push(Incoming::Message(octets))?;
                    }
                }
                Gives::Text => gives.push(Incoming::Text)?,
                Gives::Quiet => gives.push(Incoming::Quiet)?,
            }
        }
        links.push(Watched {
            name: peer.name,
            inner: MemLink::new(alloc, gives, peer.failing),
            log: log.clone()?,
        })?;
    }
    Ok(links)
}

impl Outside {
    /// The outside of a run.
    pub fn of(alloc: Global, row: &Row) -> Result<Outside, NoMemory> {
        let log = PlayLog {
            now: Cell::new(0),
            text: Cell::new(Some(String::new(alloc))),
        };
        let log = Rc::new(alloc, log)?;
        let arriving = links(alloc, &log, row.arriving)?;
        let dialled = links(alloc, &log, row.dialled)?;
        let mut files = Vec::new(alloc);
        for (path, text) in [("node.toml", row.settings), ("node.script", row.script)] {
            files.push(MemFile {
                path: copy_of(alloc, path.as_bytes())?,
                octets: copy_of(alloc, text.as_bytes())?,
            })?;
        }
        Ok(Outside {
            sink: MemSink::make(alloc, ROOM, row.failing.writes)?,
            files: MemFiles::new(files, row.failing.loads),
            clock: Watched {
                name: "clock",
                inner: MemClock::new(alloc, row.readings),
                log: log.clone()?,
            },
            acceptor: MemAcceptor::new(alloc, arriving, row.failing.accepts),
            node: NodeParts {
                waiter: MemWaiter::new(alloc),
                random: MemWords::new(row.words, row.failing.words),
                dialer: Watched {
                    name: "dialer",
                    inner: MemDialer::new(alloc, dialled, row.failing.dials),
                    log,
                },
            },
        })
    }
}

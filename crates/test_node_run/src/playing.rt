//! Playing the runs, each compared with what is to come of it.
use crate::outside::Outside;
use crate::row::Row;
use crate::rows::{ENDED, HUBS, PEERS, REFUSED, RENEWED};
use bsc_node_command::{NodeWords, run_node_files};
use bsc_octets::NoMemory;
use std::alloc::Global;
use std::process::Abort;

const WORDS: NodeWords<'static> = NodeWords {
    path: "node.toml",
    script: "node.script",
};

/// Runs a node: its status.
fn run(alloc: Global, outside: &mut Outside) -> u8 {
    let Outside {
        sink,
        files,
        clock,
        acceptor,
        node,
    } = outside;
    run_node_files(alloc, WORDS, sink, files, clock, acceptor, node)
}

/// Whether a run comes to what it is to come to: its status, what it wrote, the port that it bound, what it did outside, and, where
/// that is looked at, how long it waited.
fn comes_to(alloc: Global, row: &Row) -> Result<bool, NoMemory> {
    let mut outside = Outside::of(alloc, row)?;
    let status = run(alloc, &mut outside);
    let did = match outside.node.dialer.log.text.take() {
        Some(text) => text.as_str() == row.did,
        None => false,
    };
    let rested = match row.rests {
        Some(rests) => outside.node.waiter.waits().unwrap_or(&[]) == rests,
        None => true,
    };
    let wrote = outside.sink.held() == row.written.as_bytes()
        && outside.acceptor.bound() == row.port;
    Ok(status == row.status && wrote && did && rested)
}

#[test]
fn nodes_run_so(rt: HostRuntime) -> Result<(), NoMemory> {
    for rows in [HUBS, PEERS, RENEWED, ENDED, REFUSED] {
        for row in rows {
            assert!(rt; comes_to(rt.alloc(), row)?, "{}", row.shows);
        }
    }
    Ok(())
}

//! A session's connection.
use bsc_octets::Vmac;
use bsc_ring::Outlet;

/// The connection of a session that has joined: its number, its address, and the end of its outbox from which frames
/// are taken.
#[derive(Drop)]
pub struct Membership {
    pub conn: u64,
    pub address: Vmac,
    pub outlet: Outlet,
}

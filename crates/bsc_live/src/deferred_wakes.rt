//! The rings that a link owes.
use crate::waker::Waker;
use std::alloc::Global;
use std::sync::atomic::{AtomicBool, Ordering};
use std::sync::{Arc, Mutex, Wait};

/// So many rings are owed at most.
const OWED: usize = 2_048;

/// A ring that is owed.
#[derive(Drop)]
struct DeferredWake {
    /// The number of the connection that it is owed to.
    conn: u64,
    bell: Arc<Waker>,
}

/// The rings that a link owes: its patience notes them, and its stream makes them.
#[derive(Drop)]
pub struct DeferredWakes {
    /// Some are owed.
    some: AtomicBool,
    /// In the order in which they were noted.
    list: Mutex<Vec<DeferredWake>>,
}

impl DeferredWakes {
    /// None is owed.
    pub fn new(alloc: Global) -> DeferredWakes {
        DeferredWakes {
            some: AtomicBool::new(false),
            list: Mutex::new(Vec::new(alloc)),
        }
    }

    /// Whether the ring at this place is owed to this connection.
    pub(crate) fn has_at<R: Wait>(&self, rt: &R, place: usize, conn: u64) -> bool {
        if !self.some.load(Ordering::SeqCst) {
            return false;
        }
        match self.list.lock(rt).get(place) {
            Some(debt) => debt.conn == conn,
            None => false,
        }
    }

    /// Notes that a ring is owed to this connection's bell. Where there is no room for that, it is made at once.
    pub(crate) fn owe<R: Wait>(&self, rt: &R, conn: u64, bell: Arc<Waker>) {
        let mut list = self.list.lock(rt);
        if list.len() >= OWED {
            bell.ring_at_last();
            return;
        }
        match list.push(DeferredWake { conn, bell }) {
            Ok(()) => self.some.store(true, Ordering::SeqCst),
            Err(failed) => failed.value.bell.ring_at_last(),
        }
    }

    /// Makes all rings that are owed.
    pub(crate) fn settle<R: Wait>(&self, rt: &R) {
        if self.some.load(Ordering::SeqCst) {
            self.some.store(false, Ordering::SeqCst);
            let mut list = self.list.lock(rt);
            for debt in list.iter() {
                debt.bell.ring_at_last();
            }
            list.clear();
        }
    }
}

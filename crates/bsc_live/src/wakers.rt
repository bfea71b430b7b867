//! The bells of a hub's links, by the numbers of their connections.
use crate::waker::{Ringing, Waker};
use bsc_octets::NoMemory;
use std::alloc::Global;
use std::collections::BTreeMap;
use std::sync::{Arc, Mutex, Wait};

/// The bells of one part of the numbers, under one lock.
type Shelf = Mutex<BTreeMap<u64, Arc<Waker>>>;

/// Over so many locks the numbers are spread.
const SHELVES: u64 = 64;

/// The bells of a hub's links, by the numbers of their connections. All links of a hub share them.
#[derive(Drop)]
pub struct Wakers {
    shelves: Vec<Shelf>,
}

impl Wakers {
    /// No bells.
    pub fn new(alloc: Global) -> Result<Wakers, NoMemory> {
        let mut shelves = Vec::new(alloc);
        for _ in 0..SHELVES {
            shelves.push(Mutex::new(BTreeMap::new(alloc)))?;
        }
        Ok(Wakers { shelves })
    }

    fn shelf(&self, conn: u64) -> Option<&Shelf> {
        self.shelves.get((conn % SHELVES) as usize)
    }

    /// Lists the bell of a connection. Where memory fails it isn't listed, and its link wakes by its time alone.
    pub fn put<R: Wait>(&self, rt: &R, conn: u64, bell: Arc<Waker>) {
        if let Some(shelf) = self.shelf(conn) {
            let _ = shelf.lock(rt).insert(conn, bell);
        }
    }

    /// Lists the connection's bell no longer.
    pub fn remove<R: Wait>(&self, rt: &R, conn: u64) {
        if let Some(shelf) = self.shelf(conn) {
            let _ = shelf.lock(rt).remove(&conn);
        }
    }

    /// Says that a ring came for the connection's bell, if it is listed. The bell, where its stream sleeps.
    fn call<R: Wait>(&self, rt: &R, conn: u64) -> Option<Arc<Waker>> {
        let listed = self.shelf(conn)?.lock(rt);
        let bell = listed.get(&conn)?;
        if bell.is_called() {
            Arc::try_clone(bell).ok()
        } else {
            None
        }
    }

    /// Rings the connection's bell, if it is listed: one look-up, and where its stream sleeps a write, behind the lock.
    pub fn ring<R: Wait>(&self, rt: &R, conn: u64) {
        if let Some(bell) = self.call(rt, conn) {
            bell.wakes();
        }
    }

    /// Rings each bell that is listed. Under each lock in turn: one write for each of its streams that sleeps.
    pub fn ring_all<R: Wait>(&self, rt: &R) {
        for shelf in self.shelves.as_slice() {
            let listed = shelf.lock(rt);
            for bell in listed.values() {
                bell.ring();
            }
        }
    }

    /// Asks the connection's bell what becomes of a ring of connection `by`. That and the bell, where its stream is to be woken, now
    /// or later.
    fn call_by<R: Wait>(&self, rt: &R, conn: u64, by: u64) -> Option<(Ringing, Arc<Waker>)> {
        let listed = self.shelf(conn)?.lock(rt);
        let bell = listed.get(&conn)?;
        let ringing = bell.is_called_by(by);
        match ringing {
            Ringing::Came | Ringing::Owed => None,
            Ringing::Wakes | Ringing::PutOff => match Arc::try_clone(bell) {
                Ok(bell) => Some((ringing, bell)),
                Err(_) => {
                    bell.ring_at_last();
                    None
                }
            },
        }
    }

    /// Rings the connection's bell, if it is listed, unless the link of connection `by` may put that off. The bell, where that has
    /// from now on to make a ring that it didn't owe before.
    pub(crate) fn puts_off<R: Wait>(&self, rt: &R, conn: u64, by: u64) -> Option<Arc<Waker>> {
        let (ringing, bell) = self.call_by(rt, conn, by)?;
        match ringing {
            Ringing::PutOff => Some(bell),
            Ringing::Wakes | Ringing::Came | Ringing::Owed => {
                bell.wakes();
                None
            }
        }
    }
}

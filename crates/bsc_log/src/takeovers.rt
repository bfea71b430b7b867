//! Which connections were taken over.
use bsc_octets::NoMemory;
use std::alloc::Global;
use std::sync::atomic::{AtomicU64, Ordering};

/// So many takeovers are kept: twice as many as sessions may run at once.
const PLACES: u64 = 4096;

/// The connections that others took over, by their numbers, as far as they are kept: each has a place, which a later one may take.
#[derive(Drop)]
pub(crate) struct Takeovers {
    places: Vec<AtomicU64>,
}

impl Takeovers {
    /// None was taken over: no connection has the number 0.
    pub(crate) fn new(alloc: Global) -> Result<Takeovers, NoMemory> {
        let mut places = Vec::new(alloc);
        for _ in 0..PLACES {
            places.push(AtomicU64::new(0))?;
        }
        Ok(Takeovers { places })
    }

    fn place(&self, conn: u64) -> Option<&AtomicU64> {
        self.places.get((conn % PLACES) as usize)
    }

    /// This connection was taken over.
    pub(crate) fn note(&self, conn: u64) {
        if let Some(place) = self.place(conn) {
            place.store(conn, Ordering::SeqCst);
        }
    }

    /// Whether this connection is known to have been taken over.
    pub(crate) fn has(&self, conn: u64) -> bool {
        match self.place(conn) {
            Some(place) => place.load(Ordering::SeqCst) == conn,
            None => false,
        }
    }
}

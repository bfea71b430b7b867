//! What makes a seat hot from another thread.
use mio::{Registry, Token};
use std::alloc::Global;
use std::io::{self, ErrorKind};
use std::sync::Arc;

/// Makes a seat hot from any thread: the wait at its watch ends, or else the next one takes no time.
#[derive(Drop)]
pub struct SeatWaker {
    waker: Arc<mio::Waker>,
}

impl SeatWaker {
    /// What makes the seat with this number hot.
    pub(crate) fn at(alloc: Global, registry: &Registry, place: usize) -> io::Result<SeatWaker> {
        let waker = mio::Waker::new(registry, Token(place))?;
        Ok(SeatWaker {
            waker: Arc::new(alloc, waker)?,
        })
    }

    /// The same waker, to be shared.
    pub(crate) fn again(&self) -> io::Result<SeatWaker> {
        match Arc::try_clone(&self.waker) {
            Ok(waker) => Ok(SeatWaker { waker }),
            Err(_) => Err(io::Error::from(ErrorKind::OutOfMemory)),
        }
    }

    /// Makes the seat hot, by an event of its watch.
    pub fn wake(&self) {
        // A write that fails leaves the sleeper to its time.
        let _ = self.waker.wake();
    }
}

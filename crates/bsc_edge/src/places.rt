//! Places for jobs.
ghost use Rattle.std.specs.Prelude.{◌≤◌};

use bsc_octets::NoMemory;
use std::alloc::Global;
use std::sync::{Arc, Condvar, Mutex, Wait};

/// How many places are taken, how many there are, and how many of the jobs in them have ended.
#[derive(Debug, Drop)]
struct Room {
    taken: u64,
    most: u64,
    ended: u64,
    ghost within: { taken ≤ most },
}

/// The places for jobs, shared by a spawner and its threads. They are numbers. A place is free again once what is left of
/// its job was given back.
#[derive(Drop)]
pub struct Places {
    room: Mutex<Room>,
    end: Condvar,
}

impl Places {
    /// Places for so many jobs at once.
    pub fn make(alloc: Global, most: u64) -> Result<Arc<Places>, NoMemory> {
        Ok(Arc::new(
            alloc,
            Places {
                room: Mutex::new(Room {
                    taken: 0,
                    most,
                    ended: 0,
                }),
                end: Condvar::new(),
            },
        )?)
    }

    /// Takes a place, if there is one.
    pub(crate) fn enter<R: Wait>(&self, rt: &R) -> bool {
        let mut room = self.room.lock(rt);
        if room.taken < room.most {
            room.taken += 1;
            true
        } else {
            false
        }
    }

    /// Frees a place whose job wasn't begun.
    pub(crate) fn leave<R: Wait>(&self, rt: &R) {
        let mut room = self.room.lock(rt);
        room.taken = room.taken.saturating_sub(1);
    }

    /// A job has ended.
    pub(crate) fn end<R: Wait>(&self, rt: &R) {
        let mut room = self.room.lock(rt);
        room.ended = room.ended.saturating_add(1);
        self.end.notify_all();
    }

    /// Whether a job has ended that wasn't given back.
    pub(crate) fn has_ended<R: Wait>(&self, rt: &R) -> bool {
        self.room.lock(rt).ended > 0
    }

    /// Waits until one has.
    pub(crate) fn wait<R: Wait>(&self, rt: &R) {
        let _room = self
            .end
            .wait_while(rt, self.room.lock(rt), |room| room.ended == 0);
    }

    /// Frees the place of a job that has ended, as it is given back.
    pub(crate) fn free<R: Wait>(&self, rt: &R) {
        let mut room = self.room.lock(rt);
        room.taken = room.taken.saturating_sub(1);
        room.ended = room.ended.saturating_sub(1);
    }
}

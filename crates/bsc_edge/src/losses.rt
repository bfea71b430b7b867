//! Whether the journals of a hub lose lines, and how many.
use std::sync::atomic::{AtomicBool, AtomicU64, Ordering};

/// Whether the journals of a hub lose lines, which they share: since a file couldn't be made, and since one couldn't be written. Each
/// is told once when it begins and once when it is over, however many journals lose lines meanwhile. They count the lost lines together.
#[derive(Drop)]
pub struct Losses {
    count: AtomicU64,
    unmade: AtomicBool,
    unwritten: AtomicBool,
}

/// Something begins. Whether it hadn't.
fn begin(it: &AtomicBool) -> bool {
    !it.swap(true, Ordering::SeqCst)
}

/// Something is over. Whether it wasn't.
fn end(it: &AtomicBool) -> bool {
    it.load(Ordering::SeqCst) && it.swap(false, Ordering::SeqCst)
}

impl Losses {
    pub(crate) fn new() -> Losses {
        Losses {
            count: AtomicU64::new(0),
            unmade: AtomicBool::new(false),
            unwritten: AtomicBool::new(false),
        }
    }

    /// A line was lost, whose file is made or couldn't be. Whether that is to be told.
    pub(crate) fn begin(&self, is_made: bool) -> bool {
        self.count.fetch_add(1, Ordering::SeqCst);
        if is_made {
            begin(&self.unwritten)
        } else {
            begin(&self.unmade)
        }
    }

    /// How many lines were lost since this was last asked.
    pub(crate) fn take_count(&self) -> u64 {
        self.count.swap(0, Ordering::SeqCst)
    }

    /// A line was put, whose file was made for it or was there before. Whether that is to be told.
    pub(crate) fn end(&self, is_new: bool) -> bool {
        let is_written = end(&self.unwritten);
        let is_made = is_new && end(&self.unmade);
        is_written || is_made
    }
}

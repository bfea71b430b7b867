//! What a thread and who started it tell each other.
use std::sync::atomic::{AtomicBool, Ordering};

/// What a thread and who started it tell each other.
#[derive(Drop)]
pub struct Word {
    called_off: AtomicBool,
    ended: AtomicBool,
}

impl Word {
    pub(crate) fn new() -> Word {
        Word {
            called_off: AtomicBool::new(false),
            ended: AtomicBool::new(false),
        }
    }

    /// There is no thread: what was to run in it is to give its job back.
    pub(crate) fn call_off(&self) {
        self.called_off.store(true, Ordering::SeqCst);
    }

    pub(crate) fn is_called_off(&self) -> bool {
        self.called_off.load(Ordering::SeqCst)
    }

    /// The job has ended.
    pub(crate) fn end(&self) {
        self.ended.store(true, Ordering::SeqCst);
    }

    pub(crate) fn has_ended(&self) -> bool {
        self.ended.load(Ordering::SeqCst)
    }
}

//! Threads that run.
use crate::word::Word;
use std::sync::Arc;
use std::thread::{Promise, PromisedHandle};

/// A thread that runs, with what it promised to give.
#[derive(Drop)]
pub struct Running<T, P: Promise<T>> {
    pub(crate) thread: PromisedHandle<T, P>,
    pub(crate) word: Arc<Word>,
}

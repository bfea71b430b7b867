//! Passes.
use crate::view::View;
use atomic_table::Badge;

/// A caller's right to enter. It may be sent to another thread, and dropped.
#[derive(Drop)]
pub struct Pass {
    // What it knows. It is blank while a guard has it.
    pub(crate) badge: Badge<View>,
    pub(crate) number: u64,
}

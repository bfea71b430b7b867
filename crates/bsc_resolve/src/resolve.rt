//! Address resolution.
ghost use Rattle.std.specs.Prelude.{◌≤◌, vec_len};
ghost use Rattle.bsc_resolve.specs.declared.bounds.TheConstants.{ROOM};

use crate::entry::Entry;

/// Address resolution of a node: the questions under way, and the URIs learnt.
///
/// A VMAC is held while a question for it is under way or URIs are learnt of it.
#[derive(Drop)]
pub struct Resolve {
    pub(crate) wait: u32,
    pub(crate) entries: Vec<Entry>,
    ghost few: { vec_len entries ≤ ROOM },
}

//! Ways.
use bsc_node::LinkName;
use bsc_octets::Vmac;

/// By which link a message goes, and with which Destination.
#[derive(Clone, Copy, Debug)]
pub(crate) struct Way {
    pub(crate) link: LinkName,
    pub(crate) dest: Option<Vmac>,
}

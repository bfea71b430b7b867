//! An input that is cut into lines.
ghost use Rattle.bsc_input.specs.Cutting.{IsCut};

use bsc_octets::Octets;
use bsc_past::Past;

/// An input that is cut into lines as it comes. It keeps the front of the line whose end wasn't read yet.
#[derive(Drop)]
pub struct Cutter {
    pub(crate) front: Vec<u8>,
    /// All of that front.
    pub(crate) begun: Past<u8>,
    pub(crate) read: Past<u8>,
    pub(crate) lines: Past<Octets>,
    ghost cut: { IsCut read.items lines.items begun.items front.items },
}

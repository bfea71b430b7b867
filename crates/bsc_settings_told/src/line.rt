//! A line of settings, as the code has it.
use bsc_octets::{DeviceId, Octets, Vmac};

/// What stands in a line behind its key.
#[derive(Clone, Copy)]
pub(crate) enum Told<'a> {
    /// An address.
    Address(Vmac),
    /// A device.
    Device(DeviceId),
    /// A number of 16 bits.
    Number16(u16),
    /// A number of 32 bits.
    Number32(u32),
    /// A number of 64 bits.
    Number64(u64),
    /// A text.
    Text(&'a Octets),
    /// A text that may be missing.
    TextIf(&'a Option<Octets>),
    /// A number that may be missing.
    NumberIf(Option<u16>),
    /// URIs that are there where this port is.
    UrisOf(Option<u16>, &'a Option<Octets>),
}

/// A line: the word that a document has for the key, its default, where that is a number, and what is told.
#[derive(Clone, Copy)]
pub(crate) struct Line<'a>(
    pub(crate) &'a str,
    pub(crate) Option<u64>,
    pub(crate) Told<'a>,
);

//! The control flags of messages.

/// Bit 3: an Originating Virtual Address is present.
pub const ORIGIN: u8 = 0x08;

/// Bit 2: a Destination Virtual Address is present.
pub const DEST: u8 = 0x04;

/// Bit 1: destination options are present.
pub const DEST_OPTIONS: u8 = 0x02;

/// Bit 0: data options are present.
pub const DATA_OPTIONS: u8 = 0x01;

/// The flags that are not reserved.
pub const FLAGS: u8 = 0x0F;

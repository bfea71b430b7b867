//! What a BVLC-Result says.

/// The result code of an ACK.
pub const ACK: u8 = 0x00;

/// The result code of a NAK.
pub const NAK: u8 = 0x01;

/// The error class COMMUNICATION.
pub const COMMUNICATION: u16 = 7;

/// The error code OPTIONAL_FUNCTIONALITY_NOT_SUPPORTED.
pub const NOT_SUPPORTED: u16 = 45;

/// The error code PARAMETER_OUT_OF_RANGE.
pub const PARAMETER_OUT_OF_RANGE: u16 = 80;

/// The error code BVLC_FUNCTION_UNKNOWN.
pub const FUNCTION_UNKNOWN: u16 = 143;

/// The error code BVLC_PROPRIETARY_FUNCTION_UNKNOWN.
pub const PROPRIETARY_FUNCTION_UNKNOWN: u16 = 144;

/// The error code HEADER_ENCODING_ERROR.
pub const HEADER_ENCODING_ERROR: u16 = 145;

/// The error code HEADER_NOT_UNDERSTOOD.
pub const HEADER_NOT_UNDERSTOOD: u16 = 146;

/// The error code MESSAGE_INCOMPLETE.
pub const MESSAGE_INCOMPLETE: u16 = 147;

/// The error code PAYLOAD_EXPECTED.
pub const PAYLOAD_EXPECTED: u16 = 149;

/// The error code UNEXPECTED_DATA.
pub const UNEXPECTED_DATA: u16 = 150;

/// The error code NODE_DUPLICATE_VMAC.
pub const NODE_DUPLICATE_VMAC: u16 = 151;

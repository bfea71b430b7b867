//! The functions of messages.
ghost use Rattle.std.specs.Prelude.{◌≡◌};
ghost use Rattle.bsc_octets.specs.Functions.{is_response};

/// BVLC-Result.
pub const BVLC_RESULT: u8 = 0x00;

/// Encapsulated-NPDU.
pub const ENCAPSULATED_NPDU: u8 = 0x01;

/// Address-Resolution.
pub const ADDRESS_RESOLUTION: u8 = 0x02;

/// Address-Resolution-ACK.
pub const ADDRESS_RESOLUTION_ACK: u8 = 0x03;

/// Advertisement.
pub const ADVERTISEMENT: u8 = 0x04;

/// Advertisement-Solicitation.
pub const ADVERTISEMENT_SOLICITATION: u8 = 0x05;

/// Connect-Request.
pub const CONNECT_REQUEST: u8 = 0x06;

/// Connect-Accept.
pub const CONNECT_ACCEPT: u8 = 0x07;

/// Disconnect-Request.
pub const DISCONNECT_REQUEST: u8 = 0x08;

/// Disconnect-ACK.
pub const DISCONNECT_ACK: u8 = 0x09;

/// Heartbeat-Request.
pub const HEARTBEAT_REQUEST: u8 = 0x0A;

/// Heartbeat-ACK.
pub const HEARTBEAT_ACK: u8 = 0x0B;

/// Proprietary-Message, the greatest function that is known.
pub const PROPRIETARY_MESSAGE: u8 = 0x0C;

/// Whether the function is one that answers another message, and so has the Message ID of that.
pub fn is_response(function: u8) -> bool
    ensures { result ≡ is_response function }
{
    matches!(
        function,
        BVLC_RESULT | ADDRESS_RESOLUTION_ACK | CONNECT_ACCEPT | DISCONNECT_ACK | HEARTBEAT_ACK
    )
}

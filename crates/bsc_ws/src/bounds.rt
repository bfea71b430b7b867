//! Limits of what a peer can make a link hold.
ghost use Rattle.std.specs.Prelude.{◌≡◌};
ghost use Rattle.bsc_ws.specs.Limits.{HasOurLimits};

use tungstenite::WebSocketConfig;

/// The greatest message, and the greatest frame, in octets.
pub const GREATEST_MESSAGE: usize = 131_072;

/// One read of a stream, and what of writes is gathered, in octets. Each link holds so much.
const BUFFER: usize = 8_192;

/// What may be received: messages and frames of at most `GREATEST_MESSAGE` octets, which are masked as the role asks.
/// What waits to be sent is bounded by twice as many octets: no put is taken beyond them, and once so many wait a ping or
/// a close is left unread until some have left.
pub fn limits() -> WebSocketConfig
    ensures received { HasOurLimits result.max_message_size result.max_frame_size result.accept_unmasked_frames }
    ensures waiting { result.max_write_buffer_size ≡ 262144 }
{
    WebSocketConfig::default()
        .read_buffer_size(BUFFER)
        .write_buffer_size(BUFFER)
        .max_write_buffer_size(2 * GREATEST_MESSAGE)
        .max_message_size(Some(GREATEST_MESSAGE))
        .max_frame_size(Some(GREATEST_MESSAGE))
}

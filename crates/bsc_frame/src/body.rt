//! The thirteen functions, each with what its payload says.
use crate::advert::Advert;
use crate::answer::Answer;
use bsc_octets::{Identity, Octets};

/// A BVLC function with its payload (Annex AB, "BVLC Functions"). The layout of each payload that has octets
/// stands over its type, or over its reader in the file of its kind.
#[derive(Debug, Drop)]
pub enum Body {
    /// 00, BVLC-Result: the answer to a request.
    BvlcResult(Answer),
    /// 01, Encapsulated-NPDU: one octet at least.
    Npdu(Octets),
    /// 02, Address-Resolution: no octets.
    AddressResolution,
    /// 03, Address-Resolution-ACK: WebSocket URIs in UTF-8, separated by one space; there may be none.
    AddressResolutionAck(Octets),
    /// 04, Advertisement.
    Advertisement(Advert),
    /// 05, Advertisement-Solicitation: no octets.
    AdvertisementSolicitation,
    /// 06, Connect-Request: who connects.
    ConnectRequest(Identity),
    /// 07, Connect-Accept: who accepts.
    ConnectAccept(Identity),
    /// 08, Disconnect-Request: no octets.
    DisconnectRequest,
    /// 09, Disconnect-ACK: no octets.
    DisconnectAck,
    /// 0A, Heartbeat-Request: no octets.
    HeartbeatRequest,
    /// 0B, Heartbeat-ACK: no octets.
    HeartbeatAck,
    /// 0C, Proprietary-Message: the vendor, the vendor's own function, and any octets of it.
    Proprietary {
        vendor: u16,
        function: u8,
        content: Octets,
    },
}

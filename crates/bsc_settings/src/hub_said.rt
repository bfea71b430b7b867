//! What a document says of a hub, while it is read.
use crate::hub::HubSettings;

/// What a document says of a hub. The keys of its table have no fault.
#[derive(Drop)]
pub(crate) enum HubSaid {
    /// The settings, where the document has the table `hub`.
    Settings(Option<HubSettings>),
    /// All outboxes together would hold more octets than they may.
    LargeProduct,
}

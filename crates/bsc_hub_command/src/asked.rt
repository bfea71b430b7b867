//! What a hub is served on.
use bsc_policy::Policy;
use bsc_settings::HubSettings;
use std::sync::Arc;

/// What a hub is served on. It stays so as long as the hub is served.
#[derive(Clone, Copy)]
pub struct HubAsked<'a> {
    /// Its settings.
    pub settings: &'a HubSettings,
    /// The policy that is written beside them, if one is.
    pub policy: &'a Option<Arc<Policy>>,
    /// How many sessions are awaited; None for ever.
    pub sessions: Option<u64>,
    /// Under what prefix journals are kept, if they are.
    pub prefix: Option<&'a str>,
    /// To how many octets their files are limited, if they are.
    pub limit: Option<u64>,
}

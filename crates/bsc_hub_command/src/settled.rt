//! What is read of the file of settings.
use bsc_policy::Policy;
use bsc_settings::HubSettings;
use std::sync::Arc;

/// The settings of a hub, and the policy that is written beside them, if one is.
#[derive(Drop)]
pub(crate) struct HubSettled {
    pub(crate) hub: HubSettings,
    pub(crate) policy: Option<Arc<Policy>>,
}

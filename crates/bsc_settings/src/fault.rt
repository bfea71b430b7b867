//! Why settings are refused.
ghost use Rattle.std.specs.Prelude.{◌≡◌};
ghost use Rattle.bsc_settings.specs.declared.fault.SettingFault.TheVariants as setting_fault;

use crate::key::KeyName;
use bsc_octets::NoMemory;
use thiserror::Error;

/// Why settings are refused.
#[derive(Clone, Copy, Debug, PartialEq, Eq, Error)]
pub enum SettingFault {
    /// The octets are no TOML document in UTF-8.
    #[error("not TOML")]
    NotToml,
    /// The first fault in the order of the table.
    #[error("{name}")]
    Key {
        /// Which key it is.
        name: KeyName,
    },
    /// Memory ran out.
    #[error("out of memory")]
    NoMemory,
}

impl From<KeyName> for SettingFault {
    ghost from_gives = { λ name fault. fault ≡ setting_fault.Key name };

    fn from(name: KeyName) -> SettingFault {
        SettingFault::Key { name }
    }
}

impl From<NoMemory> for SettingFault {
    ghost from_gives = { λ _ fault. fault ≡ setting_fault.NoMemory };

    fn from(_error: NoMemory) -> SettingFault {
        SettingFault::NoMemory
    }
}

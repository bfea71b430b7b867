//! What is wrong with a message, as a NAK says it.
use bsc_frame::Check;

/// The check that fails, and the marker of a NAK for it.
#[derive(Clone, Copy)]
pub(crate) struct FailedCheck {
    pub(crate) check: Check,
    /// The marker of the first option that is not understood where C9 fails, and 00 for every other check.
    pub(crate) marker: u8,
}

impl FailedCheck {
    ghost use Rattle.std.specs.Prelude.{◌≡◌};

    /// A refusal by a check that looks at no option by itself.
    pub(crate) fn of(check: Check) -> FailedCheck
        ensures { result ≡ record { check = check; marker = 0 } }
    {
        FailedCheck { check, marker: 0 }
    }
}

//! How an input that is read meanwhile has ended.
ghost use Rattle.std.specs.Prelude.{◌≡◌};

use crate::inbox::inbox::LineInbox;

/// An inbox that tells whether the end of its input was one.
pub trait LiveInput: LineInbox {
    ghost use Rattle.std.specs.Prelude.{Bool};

    /// Whether its end came since the input couldn't be read any further, as far as that was taken.
    ghost failed: { Self → Bool };

    /// Whether its end came since the input couldn't be read any further, as far as that was taken.
    fn has_failed(&self) -> bool
        ensures { result ≡ failed self.now };
}

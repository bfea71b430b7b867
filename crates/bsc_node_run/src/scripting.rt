//! The lines of a script.
ghost use Rattle.std.specs.Prelude.{◌≡◌};

use crate::due::Due;
use crate::script::Script;

impl Script {
    /// The lines, in place.
    pub fn as_slice(&self) -> &[Due]
        ensures { result.now ≡ self.now.lines.items }
    {
        self.lines.as_slice()
    }
}

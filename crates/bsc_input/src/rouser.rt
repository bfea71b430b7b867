//! Who rouses the program that takes lines.

/// Rouses the program that takes the lines of an input: it ends its wait, or its next one.
pub trait Rouser {
    fn rouse(&self);
}

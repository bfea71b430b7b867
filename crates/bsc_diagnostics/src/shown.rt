//! How octets of an input are shown.
use std::fmt::{self, Display, Formatter, Write};
use std::str;

/// So many octets of a word are shown at most.
const MOST_SHOWN: usize = 48;

/// Octets as they are shown: in quotes, with escapes where they aren't printed, the front of them where they are long.
#[derive(Clone, Copy, Debug, PartialEq, Eq)]
pub struct Shown<'a>(pub &'a [u8]);

/// The front of octets, as far as it is a text.
fn front_of(octets: &[u8]) -> &str {
    match str::from_utf8(octets) {
        Ok(text) => text,
        Err(error) => match octets.get(..error.valid_up_to()) {
            Some(front) => str::from_utf8(front).unwrap_or(""),
            None => "",
        },
    }
}

impl Display for Shown<'_> {
    fn fmt<W: Write>(&self, f: &mut Formatter<W>) -> fmt::Result {
        let octets = self.0;
        let front = front_of(octets.get(..MOST_SHOWN).unwrap_or(octets));
        if front.len() == octets.len() {
            write!(f, "{front:?}")
        } else {
            write!(f, "{front:?}..")
        }
    }
}

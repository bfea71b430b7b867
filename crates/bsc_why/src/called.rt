//! What the program was called as.
use std::str;

/// What a program is called where nothing says as what it was.
const NAME: &str = "bsc";

/// What a program was called as, by its word number 0: so many octets at the front of these, if it was told.
pub fn name_in(room: &[u8], length: Option<usize>) -> &str {
    let Some(length) = length else {
        return NAME;
    };
    match room.get(..length) {
        Some(name) => str::from_utf8(name).unwrap_or(NAME),
        None => NAME,
    }
}

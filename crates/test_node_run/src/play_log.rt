//! What is noted while a run is made.
use bsc_edge::Kind;
use bsc_octets::NoMemory;
use std::cell::Cell;
use std::fmt::Write;
use std::str;

/// Something that a node does outside.
#[derive(Clone, Copy)]
pub enum Deed<'a> {
    /// It dials a URI.
    Dial(Kind, &'a [u8]),
    /// It puts a message on the link with this name.
    Put(&'static str, &'a [u8]),
    /// It closes the link with this name, by a code and a reason.
    Close(&'static str, u16, &'a str),
}

/// The time, and a text to which lines are added by all who share it. Once there was no memory for a line, the text is lost.
#[derive(Drop)]
pub struct PlayLog {
    pub now: Cell<u64>,
    pub text: Cell<Option<String>>,
}

/// A line more.
fn write_line(text: &mut String, now: u64, deed: Deed<'_>) -> Result<(), NoMemory> {
    match deed {
        Deed::Dial(kind, uri) => {
            let kind = match kind {
                Kind::Hub => "hub",
                Kind::Direct => "direct",
            };
            let uri = str::from_utf8(uri).unwrap_or("?");
            write!(text, "{now} dial {kind} {uri}")?;
        }
        Deed::Put(name, message) => {
            write!(text, "{now} {name} put ")?;
            for octet in message {
                write!(text, "{octet:02X}")?;
            }
        }
        Deed::Close(name, code, reason) => {
            let between = if reason.is_empty() { "" } else { " " };
            write!(text, "{now} {name} close {code}{between}{reason}")?;
        }
    }
    text.push_str("\n")?;
    Ok(())
}

impl PlayLog {
    /// Adds a line on a deed, behind the time.
    pub fn note(&self, deed: Deed<'_>) {
        let Some(mut text) = self.text.take() else {
            return;
        };
        if write_line(&mut text, self.now.get(), deed).is_ok() {
            self.text.set(Some(text));
        }
    }
}

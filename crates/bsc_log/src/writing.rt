//! The text of a line.
ghost use Rattle.std.specs.Prelude.{◌≡◌, ◌++◌, IfOk};
ghost use Rattle.bsc_log.specs.Lines.{left_out_text, line_text, nak_text, reason_text, what_text, whose_text, why_text};

use crate::fields::{put_connection, put_field, put_peer};
use crate::line::Line;
use crate::log_event::{Limited, LogEvent};
use crate::nak::Nak;
use bsc_lines::put_words;
use bsc_octets::NoMemory;

/// Puts what a NAK says.
fn put_nak(text: &mut Vec<u8>, nak: Nak) -> Result<(), NoMemory>
    ensures { IfOk result (λ _. text.new.items ≡ text.old.items ++ nak_text nak) }
{
    put_field(text, "class ", nak.class as u64)?;
    put_field(text, " code ", nak.code as u64)?;
    put_field(text, " marker ", nak.marker as u64)?;
    put_words(text, " ")?;
    put_words(text, nak.text())
}

/// Puts how many lines of a kind were left out.
fn put_left_out(text: &mut Vec<u8>, kind: Limited, n: u64) -> Result<(), NoMemory>
    ensures { IfOk result (λ _. text.new.items ≡ text.old.items ++ left_out_text kind n) }
{
    match kind {
        Limited::Naks | Limited::Denials => put_field(text, "left out ", n),
        Limited::Turned(why) => {
            put_words(text, why.text())?;
            put_field(text, ", left out ", n)
        }
    }
}

/// Puts why something became of a link.
fn put_reason(text: &mut Vec<u8>, event: LogEvent) -> Result<(), NoMemory>
    ensures { IfOk result (λ _. text.new.items ≡ text.old.items ++ reason_text event) }
{
    match event {
        LogEvent::Joined => put_words(text, "-"),
        LogEvent::TookOver(conn) => put_field(text, "took over connection ", conn),
        LogEvent::Refused(refusal) => put_words(text, refusal.text()),
        LogEvent::Denied => put_words(text, "policy"),
        LogEvent::Ended(cause) => put_words(text, cause.text()),
        LogEvent::NoSession => put_words(text, "no session"),
        LogEvent::Nak(nak) => put_nak(text, nak),
        LogEvent::Turned(why) => put_words(text, why.text()),
        LogEvent::LeftOut(kind, n) => put_left_out(text, kind, n),
    }
}

/// Puts the time, what became of the link, and its number.
fn put_what(text: &mut Vec<u8>, line: &Line) -> Result<(), NoMemory>
    ensures { IfOk result (λ _. text.new.items ≡ text.old.items ++ what_text line.now) }
{
    put_words(text, line.stamp.as_str())?;
    put_words(text, " hub ")?;
    put_words(text, line.event.word())?;
    put_words(text, " link ")?;
    put_connection(text, line.link)
}

/// Puts the link's connection, and who asked to join.
fn put_whose(text: &mut Vec<u8>, line: &Line) -> Result<(), NoMemory>
    ensures { IfOk result (λ _. text.new.items ≡ text.old.items ++ whose_text line.now) }
{
    put_words(text, " connection ")?;
    put_connection(text, line.conn)?;
    put_peer(text, &line.who)
}

/// Puts how many messages came and were put, and why it became so.
fn put_why(text: &mut Vec<u8>, line: &Line) -> Result<(), NoMemory>
    ensures { IfOk result (λ _. text.new.items ≡ text.old.items ++ why_text line.now) }
{
    put_field(text, " received ", line.received)?;
    put_field(text, " sent ", line.sent)?;
    put_words(text, " cause ")?;
    put_reason(text, line.event)
}

impl Line {
    /// Puts the text of the line at the end of a text. Where there is no memory for all of it, a part of it may stand there.
    pub fn put(&self, text: &mut Vec<u8>) -> Result<(), NoMemory>
        ensures { IfOk result (λ _. text.new.items ≡ text.old.items ++ line_text self.now) }
    {
        put_what(text, self)?;
        put_whose(text, self)?;
        put_why(text, self)
    }
}

//! The reason of a closing, read back.
ghost use Rattle.std.specs.Prelude.{◌≡◌, ◌↔◌, true};
ghost use Rattle.bsc_accept.specs.Reasons.{reason_text};
ghost use Rattle.bsc_log.specs.Causes.{IsReasonOf};

use bsc_accept::Reason;

/// Whether this is the text of that reason.
fn is_text_of(text: &str, reason: Reason) -> bool
    ensures { (result ≡ true) ↔ (text.now ≡ reason_text reason) }
{
    text == reason.text()
}

/// The reason of which this is the text.
pub(crate) fn reason_of(text: &str) -> Option<Reason>
    ensures { IsReasonOf text.now result }
{
    if is_text_of(text, Reason::Nothing) {
        return Some(Reason::Nothing);
    }
    if is_text_of(text, Reason::TableFull) {
        return Some(Reason::TableFull);
    }
    if is_text_of(text, Reason::HubWorn) {
        return Some(Reason::HubWorn);
    }
    if is_text_of(text, Reason::ConnectWait) {
        return Some(Reason::ConnectWait);
    }
    if is_text_of(text, Reason::Idle) {
        return Some(Reason::Idle);
    }
    if is_text_of(text, Reason::OutboxFull) {
        return Some(Reason::OutboxFull);
    }
    if is_text_of(text, Reason::NoMemory) {
        return Some(Reason::NoMemory);
    }
    if is_text_of(text, Reason::WrongPeer) {
        return Some(Reason::WrongPeer);
    }
    if is_text_of(text, Reason::Policy) {
        return Some(Reason::Policy);
    }
    None
}

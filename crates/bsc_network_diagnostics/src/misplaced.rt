//! Why a line is refused where it stands.
use bsc_diagnostics::Diagnostic;

/// Why a line is refused where it stands.
#[derive(Clone, Copy, Debug, PartialEq, Eq)]
pub enum Misplaced<'a> {
    /// It breaks this rule.
    Rule(Diagnostic<'a>),
    /// It is a step of a link. Where the link of this word is there, and wasn't lost, the word breaks this rule; else it is the
    /// number of no such link.
    Link { word: &'a [u8], rule: &'static str },
}

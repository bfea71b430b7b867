//! The rule that a line breaks.
use crate::shown::Shown;
use std::fmt::{self, Display, Formatter, Write};

/// The rule that a line breaks: the first, from the left.
#[derive(Clone, Copy, Debug, PartialEq, Eq)]
pub enum Diagnostic<'a> {
    /// A word of it isn't what it has to be; `rule` says what it is instead.
    Word { word: &'a [u8], rule: &'static str },
    /// It has too few words for a line of this form.
    Missing { form: &'static str },
    /// It has too many words for a line of this form, from this one on.
    More { word: &'a [u8], form: &'static str },
    /// It breaks a rule as a whole.
    Line { rule: &'static str },
}

impl Display for Diagnostic<'_> {
    fn fmt<W: Write>(&self, f: &mut Formatter<W>) -> fmt::Result {
        match self {
            Diagnostic::Word { word, rule } => {
                let word = Shown(*word);
                write!(f, "{word} {rule}")
            }
            Diagnostic::Missing { form } => write!(f, "a word is missing: its form is `{form}`"),
            Diagnostic::More { word, form } => {
                let word = Shown(*word);
                write!(f, "{word} is a word too many: its form is `{form}`")
            }
            Diagnostic::Line { rule } => f.write_str(*rule),
        }
    }
}

//! What the words of the command say.

/// What the words `node PATH SCRIPT` say.
#[derive(Clone, Copy)]
pub struct NodeWords<'a> {
    /// Where the settings are.
    pub path: &'a str,
    /// Where the script is.
    pub script: &'a str,
}

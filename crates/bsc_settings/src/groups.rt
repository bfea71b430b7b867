//! The texts of a policy: groups, and what a rule does.
ghost use Rattle.std.specs.Prelude.{◌≡◌};
ghost use Rattle.std.specs.List.{list_all};
ghost use Rattle.bsc_text.specs.Grammar.{is_letter};
ghost use Rattle.bsc_settings.specs.Groups.{allows_of, is_group, is_group_or_all};

use crate::bounds::MAX_GROUP_LEN;

/// Whether an octet is a letter, in either case.
fn is_letter(octet: u8) -> bool
    ensures { result ≡ is_letter octet }
{
    matches!(octet, b'A'..=b'Z' | b'a'..=b'z')
}

/// Whether all octets are letters.
fn are_letters(text: &[u8]) -> bool
    ensures { result ≡ list_all is_letter text.now }
{
    text.iter().all(|octet| is_letter(*octet))
}

/// Whether a text is the name of a group: 1 to `MAX_GROUP_LEN` letters.
pub(crate) fn is_group(text: &[u8]) -> bool
    ensures { result ≡ is_group text.now }
{
    1 <= text.len() && text.len() <= MAX_GROUP_LEN && are_letters(text)
}

/// Whether a text may stand at either side of a rule: it is `*`, which stands for all groups, or the name of one.
pub(crate) fn is_group_or_all(text: &[u8]) -> bool
    ensures { result ≡ is_group_or_all text.now }
{
    text == b"*".as_slice() || is_group(text)
}

/// Whether a rule allows, by what it is told to do: `allow` or `deny`.
pub(crate) fn allows_of(text: &[u8]) -> Option<bool>
    ensures { result ≡ allows_of text.now }
{
    if text == b"allow".as_slice() {
        return Some(true);
    }
    if text == b"deny".as_slice() {
        return Some(false);
    }
    None
}

//! URIs that are learnt: a text with one space between two.
ghost use Rattle.std.specs.Prelude.{◌≡◌, [], filter, option_copied, slice_get};
ghost use Rattle.bsc_node.specs.Ways.{is_ws_uri, words_with};

/// How a URI begins that can be dialled: `ws://`.
const SCHEME: [u8; 5] = [0x77, 0x73, 0x3A, 0x2F, 0x2F];

/// Whether a URI can be dialled.
fn is_ws_uri(uri: &[u8]) -> bool
    ensures { result ≡ is_ws_uri uri.now }
{
    uri.starts_with(&SCHEME)
}

/// The URI of this number, counted from 0, among those that begin with `ws://`.
pub(crate) fn uri_to_dial(text: &[u8], number: u64) -> Option<&[u8]>
    ensures { option_copied result ≡ slice_get (filter is_ws_uri (words_with [] text.now)) number }
{
    let mut left = number;
    let mut start = 0usize;
    for end in 0..text.len() {
        if text[end] == 0x20 {
            let word = &text[start..end];
            if is_ws_uri(word) {
                if left == 0 {
                    return Some(word);
                }
                left -= 1;
            }
            start = end + 1;
        }
    }
    let word = &text[start..];
    if left == 0 && is_ws_uri(word) {
        Some(word)
    } else {
        None
    }
}

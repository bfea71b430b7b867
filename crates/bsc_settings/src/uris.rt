//! Texts that are URIs.
ghost use Rattle.std.specs.Prelude.{◌≡◌};
ghost use Rattle.bsc_settings.specs.Uris.{is_hub_uri, is_uri_octet, are_uris};

/// Whether a text begins with `ws://`, as the URI of a hub does that can be dialled.
pub(crate) fn is_hub_uri(text: &[u8]) -> bool
    ensures { result ≡ is_hub_uri text.now }
{
    text.starts_with(b"ws://")
}

/// Whether a URI may have an octet: a character of ASCII that is printed, and no space (RFC 3986, 2).
fn is_uri_octet(octet: u8) -> bool
    ensures { result ≡ is_uri_octet octet }
{
    b' ' < octet && octet < 127
}

/// Whether a text is URIs with one space between two.
pub(crate) fn are_uris(text: &[u8]) -> bool
    ensures { result ≡ are_uris text.now }
{
    let mut rest = text;
    let mut begun = false;
    while let [octet, after @ ..] = rest {
        if *octet == b' ' {
            if !begun {
                return false;
            }
            begun = false;
        } else {
            if !is_uri_octet(*octet) {
                return false;
            }
            begun = true;
        }
        rest = after;
    }
    begun
}

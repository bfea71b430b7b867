//! How long what is read may be, carried by functions that do nothing.
ghost use Rattle.std.specs.Prelude.{◌≡◌, ◌^◌};
ghost use Rattle.bsc_text.specs.declared.bounds.TheConstants.{LATEST, MAX_INPUT_LEN, MAX_LINE_LEN, MAX_NAME_LEN};

/// A line has at most 140,000 octets without its end, an input 2^40, and a name 16; the latest time of a script is 10^15 ms.
pub fn lines_have_140_000_octets()
    ensures line { MAX_LINE_LEN ≡ 140000 }
    ensures input { MAX_INPUT_LEN ≡ 2 ^ 40 }
    ensures name { MAX_NAME_LEN ≡ 16 }
    ensures time { LATEST ≡ 10 ^ 15 }
{}

//! How large journals may be, carried by a function that does nothing.
ghost use Rattle.std.specs.Prelude.{◌≡◌, ◌^◌};
ghost use Rattle.bsc_journal.specs.declared.bounds.TheConstants.{MOST_IN_ALL, MOST_IN_LINE};

/// A line of a journal has 300,000 octets at most without its end, and all journals together have 2^28.
pub fn journals_have_2_to_the_28_octets()
    ensures line { MOST_IN_LINE ≡ 300000 }
    ensures all { MOST_IN_ALL ≡ 2 ^ 28 }
{}

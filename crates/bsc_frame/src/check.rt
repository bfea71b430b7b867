//! The checks of a message, in their order.
ghost use Rattle.std.specs.Prelude.{◌≡◌};
ghost use Rattle.bsc_frame.specs.CheckNames.{check_name};

/// A check of a message, named as the printed output names it. The order of the variants is the order of the
/// checks: the first that fails decides what becomes of the message.
///
/// Octets that fail C1, C3, C5 to C8, C10 to C10c or C11 are no message, and `read` makes these checks. The
/// others refuse what is a message. C9 and C12 are decided by its octets too: a receiver doesn't understand
/// it. C2, C4 and C13 ask in addition at which place and in which phase it came.
#[derive(Clone, Copy, Debug, PartialEq, Eq)]
pub enum Check {
    /// The message has fewer than four octets.
    C1,
    /// The message is longer than is taken at the place.
    C2,
    /// Octets of an announced address are missing.
    C3,
    /// The addresses are wrong for the place.
    C4,
    /// A reserved control flag is set.
    C5,
    /// The function is above 0C.
    C6,
    /// Octets of an announced list of header options are missing, in either list.
    C7,
    /// A header option has type 0 or a shape that its type does not have, in either list.
    C7b,
    /// Data options are announced on a function other than 01 and 0C.
    C8,
    /// A destination option that must be understood is not.
    C9,
    /// There is no payload on 01, 04, 06, 07 or 0C.
    C10,
    /// The payload is shorter than its fixed part.
    C10b,
    /// Octets stand behind the fixed part of a payload that ends with it.
    C10c,
    /// A value of the payload is out of its range, or a text is not UTF-8.
    C11,
    /// The function is a proprietary one, and none is known.
    C12,
    /// The function is out of place.
    C13,
}

impl Check {
    /// Its name, as it is written.
    pub fn name(self) -> &'static str
        ensures { result.now ≡ check_name self }
    {
        match self {
            Check::C1 => "C1",
            Check::C2 => "C2",
            Check::C3 => "C3",
            Check::C4 => "C4",
            Check::C5 => "C5",
            Check::C6 => "C6",
            Check::C7 => "C7",
            Check::C7b => "C7b",
            Check::C8 => "C8",
            Check::C9 => "C9",
            Check::C10 => "C10",
            Check::C10b => "C10b",
            Check::C10c => "C10c",
            Check::C11 => "C11",
            Check::C12 => "C12",
            Check::C13 => "C13",
        }
    }
}

//! Virtual addresses.
#![tactic(auto)]

ghost use Rattle.std.specs.Prelude.{◌≡◌, ◌↔◌, IsTrue};
ghost use Rattle.bsc_octets.specs.Addresses.{random48_of};

/// A VMAC: the virtual address of a BACnet/SC node, six octets as they stand in a message (Annex AB,
/// "VMAC Addressing").
#[derive(Clone, Copy, Debug, PartialEq, Eq, PartialOrd, Ord)]
pub struct Vmac(pub [u8; 6]);

impl Vmac {
    /// The address of all nodes.
    pub const BROADCAST: Vmac = Vmac([255; 6]);

    /// The address that is reserved and names no node.
    pub const ZERO: Vmac = Vmac([0; 6]);
}

/// Whether two addresses are one.
pub fn is_same(v: Vmac, w: Vmac) -> bool
    ensures { IsTrue result ↔ (v ≡ w) }
{
    v == w
}

/// The Random-48 VMAC of the random word `w` (Annex H, "EUI-48 and Random-48 VMAC Address"): its low 48 bits, the most significant octet
/// first, with the low four bits of the first octet set to 2. No memory is taken.
pub fn random48(w: u64) -> Vmac
    ensures { result ≡ random48_of w }
{
    let [_, _, first, a, b, c, d, e] = w.to_be_bytes();
    Vmac([first & 0xF0 | 0x02, a, b, c, d, e])
}

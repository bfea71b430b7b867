//! A list of header options that is read and written again.
ghost use Rattle.std.specs.Prelude.{◌≡◌, ◌≤◌, ◌++◌, ℕ, IfOk, length, drop};

use bsc_octets::Octets;
use bsc_options::*;
use std::alloc::Global;
use std::test::*;

/// Secure Path with must understand, then Proprietary of vendor 00FF, its type 07, with AA.
const TWO: [u8; 8] = [0xC1, 0x3F, 0x00, 0x04, 0x00, 0xFF, 0x07, 0xAA];

/// The octets of the list in `m` from place `at`, written again: a caller of both functions.
fn written_again(alloc: Global, m: &[u8], at: usize) -> Result<Octets, OptionsFault>
    requires { at ≤ length m.now }
    ensures { IfOk result (λ o. (end : ℕ) × (drop at m.now ≡ o ++ drop end m.now)) }
{
    let (list, _end) = read_options(alloc, m, at)?;
    Ok(write_options(alloc, &list)?)
}

#[test]
fn a_list_is_written_again(rt: HostRuntime) {
    let is_same = match written_again(rt.alloc(), &TWO, 0) {
        Ok(octets) => octets.as_slice() == TWO.as_slice(),
        Err(_) => false,
    };
    assert!(rt; is_same);
}

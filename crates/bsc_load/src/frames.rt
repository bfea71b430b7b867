//! What the workers forward.
ghost use Rattle.std.specs.Prelude.{◌≡◌, ◌+◌, ◌%◌, ◌<◌, ◌∷◌, ◌++◌, IfOk};
ghost use Rattle.byteorder.specs.Endian.{big_bytes};
ghost use Rattle.bsc_load.specs.Frames.{frame, npdu};

use crate::bounds::WORKERS;
use crate::peers::receiver;
use bsc_octets::{NoMemory, Vmac};
use byteorder::{BigEndian, ByteOrder};
use std::alloc::Global;

/// Octet `j` of it.
fn npdu_octet(i: u16, k: u16, j: u16) -> u8
    ensures { result ≡ (i + k + j) % 256 }
{
    ((u32::from(i) + u32::from(k) + u32::from(j)) % 256) as u8
}

#[tactic(auto, using(crate::proofs::Lists::npdu_more))]
/// Puts the octets of NPDU `k` of worker `i` behind others.
fn push_npdu(message: &mut Vec<u8>, i: u16, k: u16) -> Result<(), NoMemory>
    ensures { IfOk result (λ _. message.new.items ≡ message.old.items ++ npdu i k) }
{
    for j in 0..1 + k % 64 {
        message.push(npdu_octet(i, k, j))?;
    }
    Ok(())
}

/// The head of a unicast: ten octets.
fn head(id: u16, to: &Vmac) -> [u8; 10]
    ensures { result ≡ (1 ∷ 4 ∷ big_bytes 2 id) ++ to.now.0 }
{
    let mut octets = [1, 4, 0, 0, 0, 0, 0, 0, 0, 0];
    let (_function, rest) = octets.split_at_mut(2);
    let (number, address) = rest.split_at_mut(2);
    BigEndian::write_u16(number, id);
    address.copy_from_slice(&to.0);
    octets
}

/// Forward `k` of worker `i`.
pub(crate) fn frame(alloc: Global, i: u16, k: u16) -> Result<Vec<u8>, NoMemory>
    requires { i < WORKERS }
    ensures { IfOk result (λ v. v.items ≡ frame i k) }
{
    let mut message = Vec::from_slice(alloc, &head(k, &receiver(i).vmac))?;
    push_npdu(&mut message, i, k)?;
    Ok(message)
}

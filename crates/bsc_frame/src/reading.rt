//! From octets to a message.
ghost use Rattle.std.specs.Prelude.{◌≡◌, ◌↔◌, ◌⊎◌, IfOk};
ghost use Rattle.bsc_frame.specs.declared.message.Message.{Message};
ghost use Rattle.bsc_frame.specs.declared.check.Check.{Check};
ghost use Rattle.bsc_frame.specs.Spelling.{Spells};
ghost use Rattle.bsc_frame.specs.Checks.{IsFirst};

use crate::fault::FrameFault;
use crate::head::read_head;
use crate::lists::{announces_data_options, announces_dest_options, read_ends, read_list};
use crate::message::Message;
use crate::payload::read_body;
use std::alloc::Global;

/// The message that the octets spell, or the first check that fails of them: of C1, C3, C5, C6, C7, C7b, C8,
/// C10, C10b, C10c and C11, in this order. The other checks refuse messages, and are not made here.
///
/// Memory is taken for the octets of the body and for the header options, each copied once, and only where no
/// check fails. Reading is linear in the octets.
pub fn read(alloc: Global, m: &[u8]) -> Result<Message, FrameFault>
    // What is found is spelled by the octets, and no other message is.
    ensures found { IfOk result (λ msg. Spells msg m.now) }
    ensures only { (msg : Message) → Spells msg m.now → (result ≡ Ok msg) ⊎ (result ≡ Err FrameFault.NoMemory) }
    ensures memory { result ≡ Err FrameFault.NoMemory → (msg : Message) × Spells msg m.now }

    // A check is answered exactly where it is the first that fails.
    ensures fails { (check : Check) → (result ≡ Err (FrameFault.Fails check)) ↔ IsFirst check m.now }
{
    let head = read_head(m)?;
    let ends = read_ends(m, &head)?;
    let body = read_body(alloc, head.function, &m[ends.data..])?;
    let dest_announced = announces_dest_options(head.flags);
    let dest_options = read_list(alloc, m, head.rest_at, dest_announced)?;
    let data_announced = announces_data_options(head.flags);
    let data_options = read_list(alloc, m, ends.dest, data_announced)?;
    Ok(Message {
        id: head.id,
        origin: head.origin,
        dest: head.dest,
        dest_options,
        data_options,
        body,
    })
}

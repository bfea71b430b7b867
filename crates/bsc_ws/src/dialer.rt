//! The dialer of links over streams.
ghost use Rattle.std.specs.Prelude.{◌≡◌, ◌≤◌, ◌⊎◌, ℕ, List, [], ◌∷◌, None, Err, IfOk, IsErr};
ghost use Rattle.std.proofs.Common.{refl};
ghost use Rattle.bsc_edge.specs.Dialling.{dialled, Takes};
ghost use Rattle.bsc_edge.specs.Told.{Grows};
ghost use Rattle.bsc_edge.specs.declared.fault.LinkFault.{LinkFault};
ghost use Rattle.bsc_outside.specs.Faults.{HasRisen};
ghost use Rattle.bsc_ws.specs.Targets.{IsDialable, IsOpenedFor};
ghost use Rattle.tungstenite.specs.Heads.{HeardAnswer};

use crate::dialling::dial;
use crate::opener::Opener;
use crate::stream_link::StreamLink;
use crate::target::target_of;
use bsc_edge::{Dialer, Kind, LinkFault, Patience};
use std::alloc::Global;
use std::io::{Read, Write};
use std::str;
use tungstenite::MaskKeys;

/// Dials the peers that URIs name, over streams that an opener opens.
#[derive(Drop)]
pub struct StreamDialer<O> {
    opener: O,
    faults: u64,
}

impl<O> StreamDialer<O> {
    /// A dialer over this opener, with no faults yet.
    pub fn new(opener: O) -> StreamDialer<O>
        ensures opener { result.opener ≡ opener }
        ensures faults { result.faults ≡ 0 }
    {
        StreamDialer { opener, faults: 0 }
    }
}

/// The link to the peer that a URI names. Where it names none that is dialled, nothing is opened.
fn reach<T: Read + Write + Drop, W: Patience + Drop, K: MaskKeys + Drop, O: Opener<T, W, K>>(
    opener: &mut O,
    alloc: Global,
    uri: &[u8],
    kind: Kind,
) -> Result<StreamLink<T, W, K>, LinkFault>
    ensures refused { ¬ (IsDialable uri.now) → IsErr result }
    ensures untouched { ¬ (IsDialable uri.now) → opener.new ≡ opener.old }
    ensures opened { (opener.new ≡ opener.old) ⊎ IsOpenedFor uri.now (O.opened opener.old) (O.opened opener.new) }
    ensures reached { IfOk result (λ _. IsOpenedFor uri.now (O.opened opener.old) (O.opened opener.new)) }
    ensures answered { IfOk result (λ _. (key : List ℕ) × HeardAnswer key) }
    ensures kind { IfOk result (λ l. l.kind ≡ kind) }
{
    let Ok(text) = str::from_utf8(uri) else {
        return Err(LinkFault::Failed);
    };
    let target = target_of(alloc, uri)?;
    let (stream, wait, keys) = opener.open(alloc, target)?;
    dial(alloc, stream, wait, keys, text, kind)
}

impl<T: Read + Write + Drop, W: Patience + Drop, K: MaskKeys + Drop, O: Opener<T, W, K>> Dialer<
    StreamLink<T, W, K>,
> for StreamDialer<O> {
    ghost faults = { λ d. d.faults };

    ghost calls = { λ _. None };

    ghost left = { λ _. None };

    ghost came_fresh = { λ _. refl };

    fn dial(
        &mut self,
        alloc: Global,
        uri: &[u8],
        kind: Kind,
    ) -> Result<StreamLink<T, W, K>, LinkFault>
        // A URI that names nobody who is dialled fails before anything is opened.
        ensures refused { ¬ (IsDialable uri.now) → IsErr result }
        ensures untouched { ¬ (IsDialable uri.now) → self.new.opener ≡ self.old.opener }
        // Else a stream is opened to the address that the URI names, and to no other; and where a link comes, it was.
        ensures opened { (self.new.opener ≡ self.old.opener) ⊎ IsOpenedFor uri.now (O.opened self.old.opener) (O.opened self.new.opener) }
        ensures reached { IfOk result (λ _. IsOpenedFor uri.now (O.opened self.old.opener) (O.opened self.new.opener)) }
        // A link that comes was answered, and is of the kind that was asked for.
        ensures answered { IfOk result (λ _. (key : List ℕ) × HeardAnswer key) }
        ensures kind { IfOk result (λ l. l.kind ≡ kind) }
        ensures later { self.old.faults ≤ self.new.faults }
        ensures failed { result ≡ Err LinkFault.Failed → HasRisen self.old.faults self.new.faults }
        ensures told { Grows None None (dialled uri.now kind result ∷ []) }
        ensures left { Takes None None result }
    {
        let answer = reach(&mut self.opener, alloc, uri, kind);
        if let Err(LinkFault::Failed) = &answer {
            self.faults = self.faults.saturating_add(1);
        }
        answer
    }
}

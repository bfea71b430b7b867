//! A dialer of links of which no lines are told.
ghost use Rattle.std.specs.Prelude.{◌≡◌, ℕ, List, None, Option, Err};
ghost use Rattle.std.proofs.Common.{refl};
ghost use Rattle.bsc_edge.specs.Dialling.{dialled, Takes};
ghost use Rattle.bsc_edge.specs.declared.fault.LinkFault.{LinkFault};
ghost use Rattle.bsc_edge.specs.declared.kind.Kind.{Kind as KindType};
ghost use Rattle.bsc_log.specs.Logged.{left_by};

use crate::logged_link::LoggedLink;
use bsc_edge::{Dialer, Kind, LinkFault};
use std::alloc::Global;

/// A dialer over another: no line is told of a link that it makes.
#[derive(Debug, Drop)]
pub struct UnloggedDialer<D> {
    dialer: D,
}

impl<D> UnloggedDialer<D> {
    pub fn new(dialer: D) -> UnloggedDialer<D>
        ensures { result.dialer ≡ dialer }
    {
        UnloggedDialer { dialer }
    }
}

/// What a dialer answered, with its link without a log.
fn unlogged<L, R>(answer: Result<L, LinkFault>) -> Result<LoggedLink<L, R>, LinkFault>
    ensures takes { (l l' : Option (List L)) → Takes l l' answer → Takes (left_by None l) (left_by None l') result }
    ensures told { (uri : List ℕ) (kind : KindType) → dialled uri kind result ≡ dialled uri kind answer }
    ensures failed { result ≡ Err LinkFault.Failed → answer ≡ Err LinkFault.Failed }
{
    match answer {
        Ok(link) => Ok(LoggedLink::new(link, None)),
        Err(fault) => Err(fault),
    }
}

impl<L, R, D: Dialer<L>> Dialer<LoggedLink<L, R>> for UnloggedDialer<D> {
    ghost faults = { λ d. D.faults d.dialer };

    ghost calls = { λ d. D.calls d.dialer };

    ghost left = { λ d. left_by None (D.left d.dialer) };

    ghost came_fresh = { λ _. refl };

    fn dial(
        &mut self,
        alloc: Global,
        uri: &[u8],
        kind: Kind,
    ) -> Result<LoggedLink<L, R>, LinkFault> {
        unlogged(self.dialer.dial(alloc, uri, kind))
    }
}

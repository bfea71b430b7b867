//! Whether a log is wanted.
ghost use Rattle.std.specs.Prelude.{◌≡◌, None};
ghost use Rattle.bsc_edge.specs.declared.kind.Kind.{Kind as KindType};

use crate::logging::Logging;
use bsc_edge::Kind;
use std::alloc::Global;
use std::env::Env;
use std::io::Stderr;

/// The variable of the environment that asks for a log.
const NAME: &str = "BSC_LOG";

/// Whether the environment asks for a log: its variable is 1.
fn is_asked_for<R: Env>(rt: &R) -> bool {
    let mut room = [0; 2];
    match rt.var(NAME, &mut room) {
        Ok(1) => room[0] == b'1',
        Ok(_) | Err(_) => false,
    }
}

/// What the logs of links of this kind share, where the environment asks for them and there is memory: those of a hub have logs,
/// which are written to this standard error.
pub fn logging_of<R: Env + Copy>(
    rt: R,
    stderr: Stderr,
    alloc: Global,
    kind: Kind,
) -> Option<Logging<R>>
    ensures node { kind ≡ KindType.Direct → result ≡ None }
{
    match kind {
        Kind::Hub => if is_asked_for(&rt) {
            Logging::new(rt, stderr, alloc).ok()
        } else {
            None
        },
        Kind::Direct => None,
    }
}

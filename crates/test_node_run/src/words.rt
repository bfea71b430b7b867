//! Random words over a source of known octets.
use bsc_node_command::RandomWords;
use bsc_node_run::Words;
use bsc_outside::Failed;
use std::cell::Cell;
use std::io;
use std::io::ErrorKind;
use std::process::Abort;
use std::random::RandomSource;

/// Gives the octets 00, 01, 02 and so on, and fails from octet 10 on.
#[derive(Drop)]
struct Counting {
    next: Cell<u8>,
}

impl RandomSource for Counting {
    fn fill_bytes(&self, buf: &mut [u8]) -> io::Result<()> {
        if self.next.get() >= 0x10 {
            return Err(io::Error::from(ErrorKind::Other));
        }
        for octet in buf.iter_mut() {
            let next = self.next.get();
            *octet = next;
            self.next.set(next.wrapping_add(1));
        }
        Ok(())
    }
}

#[test]
fn a_word_is_eight_octets_of_the_source(rt: HostRuntime) {
    let mut words = RandomWords::new(Counting { next: Cell::new(0) });
    assert!(rt; words.next() == Ok(0x0706_0504_0302_0100));
    assert!(rt; words.next() == Ok(0x0F0E_0D0C_0B0A_0908));
    assert!(rt; words.next() == Err(Failed));
    assert!(rt; words.next() == Err(Failed));
}

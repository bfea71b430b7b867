//! Where a log is asked for.
use bsc_edge::Kind;
use bsc_log::logging_of;
use std::env::{Env, FillError};
use std::process::Abort;

/// An environment in which this is the value of the variable.
#[derive(Clone, Copy)]
struct Set(&'static [u8]);

impl Env for Set {
    fn arg(&self, _i: usize, _buf: &mut [u8]) -> Result<usize, FillError> {
        Err(FillError::NotPresent)
    }

    fn var(&self, name: &str, buf: &mut [u8]) -> Result<usize, FillError> {
        if name != "BSC_LOG" {
            return Err(FillError::NotPresent);
        }
        match buf.get_mut(..self.0.len()) {
            Some(front) => {
                front.copy_from_slice(self.0);
                Ok(self.0.len())
            }
            None => Err(FillError::TooLong),
        }
    }

    fn var_at(&self, _i: usize, _buf: &mut [u8]) -> Result<usize, FillError> {
        Err(FillError::NotPresent)
    }
}

/// Values of the variable, and whether they ask for a log.
const VALUES: [(&[u8], bool); 6] = [
    (b"1", true),
    (b"", false),
    (b"0", false),
    (b"01", false),
    (b"11", false),
    (b"true", false),
];

#[test]
fn a_log_is_asked_for_by_1(rt: HostRuntime) {
    for (value, asks) in VALUES {
        assert!(rt; logging_of(Set(value), rt.stderr(), rt.alloc(), Kind::Hub).is_some() == asks);
        assert!(rt; logging_of(Set(value), rt.stderr(), rt.alloc(), Kind::Direct).is_none());
    }
}

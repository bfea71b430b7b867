//! Streams during a server's handshake.
ghost use Rattle.std.specs.Prelude.{◌≡◌, ◌≢◌, ◌≤◌, ◌-◌, IfErr, IfOk, IsErr, OnErr, length};
ghost use Rattle.std.specs.IoError.{error_kind};
ghost use Rattle.std.specs.declared.io.ErrorKind.TheVariants as kinds;

use std::io::{self, ErrorKind, Read, Write};

/// A stream that gives no more octets than a head may have.
#[derive(Drop)]
pub struct Head<T> {
    stream: T,
    left: usize,
}

impl<T> Head<T> {
    /// The stream, of which at most so many octets are read.
    pub fn new(stream: T, greatest: usize) -> Head<T>
        ensures stream { result.stream ≡ stream }
        ensures left { result.left ≡ greatest }
    {
        Head {
            stream,
            left: greatest,
        }
    }

    /// The stream, and no limit any more.
    pub fn into_inner(self) -> T
        ensures { result ≡ self.stream }
    {
        let Head { stream, left: _ } = self;
        stream
    }

    /// The stream.
    pub fn stream(&mut self) -> &mut T {
        &mut self.stream
    }
}

/// The same error of a stream, but for one that would say of a head that it is too long.
fn unlike_long(error: io::Error) -> io::Error
    ensures kind { error_kind result ≢ kinds.InvalidData }
    ensures same { error_kind error ≢ kinds.InvalidData → result ≡ error }
{
    if error.kind() == ErrorKind::InvalidData {
        io::Error::from(ErrorKind::Other)
    } else {
        error
    }
}

impl<T: Read> Head<T> {
    /// Reads no more than is left, which becomes so many fewer.
    fn give(&mut self, buf: &mut [u8]) -> io::Result<usize>
        ensures within { IfOk result (λ n. n ≤ length buf.new) }
        ensures length { length buf.new ≡ length buf.old }
        ensures most { IfOk result (λ n. n ≤ self.old.left) }
        ensures left { IfOk result (λ n. self.new.left ≡ self.old.left - n) }
        ensures kept { OnErr result (self.new.left ≡ self.old.left) }
        ensures over { self.old.left ≡ 0 → IsErr result }
        // An error is of this kind exactly where nothing is left.
        ensures long { self.old.left ≡ 0 → IfErr result (λ e. error_kind e ≡ kinds.InvalidData) }
        ensures other { self.old.left ≢ 0 → IfErr result (λ e. error_kind e ≢ kinds.InvalidData) }
    {
        if self.left == 0 {
            return Err(io::Error::from(ErrorKind::InvalidData));
        }
        let most = buf.len().min(self.left);
        match self.stream.read(&mut buf[..most]) {
            Ok(got) => {
                self.left -= got;
                Ok(got)
            }
            Err(error) => Err(unlike_long(error)),
        }
    }
}

impl<T: Read> Read for Head<T> {
    fn read(&mut self, buf: &mut [u8]) -> io::Result<usize> {
        self.give(buf)
    }
}

impl<T: Write> Write for Head<T> {
    fn write(&mut self, buf: &[u8]) -> io::Result<usize> {
        self.stream.write(buf)
    }

    fn flush(&mut self) -> io::Result<()> {
        self.stream.flush()
    }
}

//! An output that its reader may close, as `head` closes a pipe.

ghost use Rattle.std.specs.Prelude.{◌≡◌, ◌≢◌, false, IfErr, IsTrue, MatchResult};
ghost use Rattle.std.specs.Io.{WritesAtMost};
ghost use Rattle.std.specs.Io.KnownBytes.{Keeps, WriteAppends};
ghost use Rattle.std.specs.IoError.{error_kind};

use std::io;
use std::io::{ErrorKind, Write};

/// The exit status of a program whose output was closed. A shell reports the same of a program that
/// SIGPIPE ends, such as `cat`.
pub const CLOSED_STATUS: u8 = 141;

/// An output, and whether its reader has closed it.
#[derive(Drop)]
pub struct Piped<O> {
    output: O,
    is_closed: bool,
}

impl<O: Write> Piped<O> {
    /// Makes one of an output that isn't closed yet.
    pub fn new(output: O) -> Piped<O>
        ensures output { result.output ≡ output }
        ensures open { result.is_closed ≡ false }
    {
        Piped {
            output,
            is_closed: false,
        }
    }

    /// Returns whether a call failed because the reader had closed the output.
    pub fn is_closed(&self) -> bool
        ensures { result ≡ self.now.is_closed }
    {
        self.is_closed
    }
}

impl<O: Write> Write for Piped<O> {
    ghost contents = { λ piped. O.contents piped.output };

    fn write(&mut self, buf: &[u8]) -> io::Result<usize>
        ensures bound { WritesAtMost result buf.now }
        ensures bytes { WriteAppends (O.contents self.old.output) (O.contents self.new.output)
            result buf.now }
        ensures closed { IfErr result (λ error. error_kind error ≡ ErrorKind.BrokenPipe
            → IsTrue self.new.is_closed) }
        ensures kept { MatchResult result (λ _. self.new.is_closed ≡ self.old.is_closed)
            (λ error. error_kind error ≢ ErrorKind.BrokenPipe
            → self.new.is_closed ≡ self.old.is_closed) }
    {
        let result = self.output.write(buf);
        if let Err(error) = &result {
            self.is_closed |= error.kind() == ErrorKind::BrokenPipe;
        }
        result
    }

    fn flush(&mut self) -> io::Result<()>
        ensures bytes { Keeps (O.contents self.old.output) (O.contents self.new.output) }
        ensures closed { IfErr result (λ error. error_kind error ≡ ErrorKind.BrokenPipe
            → IsTrue self.new.is_closed) }
        ensures kept { MatchResult result (λ _. self.new.is_closed ≡ self.old.is_closed)
            (λ error. error_kind error ≢ ErrorKind.BrokenPipe
            → self.new.is_closed ≡ self.old.is_closed) }
    {
        let result = self.output.flush();
        if let Err(error) = &result {
            self.is_closed |= error.kind() == ErrorKind::BrokenPipe;
        }
        result
    }
}

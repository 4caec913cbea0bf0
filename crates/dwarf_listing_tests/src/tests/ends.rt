//! Inputs and outputs of one byte a call, which are interrupted and fail.

use super::{Row, TEXTS, check, check_outcome, words};
use dwarf_listing_core::run::run;
use std::alloc::Global;
use std::io;
use std::io::ErrorKind::{Other, OutOfMemory, TimedOut, UnexpectedEof, WouldBlock};
use std::io::{ErrorKind, Read, Write};
use std::process::Abort;
use std::test::Fail;

// A call may fail with any kind of error, also with one for memory.
static KINDS: &[ErrorKind] = &[Other, OutOfMemory, TimedOut, UnexpectedEof, WouldBlock];

// A reader or writer of one byte a call, which fails after a number of calls. Each of these is
// interrupted first.
#[derive(Drop)]
pub(super) struct Failing<T> {
    pub(super) inner: T,
    pub(super) calls: usize,
    good_calls: usize,
    kind: ErrorKind,
    is_interrupted: bool,
}

impl<T> Failing<T> {
    pub(super) fn new(inner: T, good_calls: usize, kind: ErrorKind) -> Failing<T> {
        Failing {
            inner,
            calls: 0,
            good_calls,
            kind,
            is_interrupted: false,
        }
    }

    fn call(&mut self) -> io::Result<()> {
        self.is_interrupted = !self.is_interrupted;
        if self.is_interrupted {
            return Err(io::Error::from(ErrorKind::Interrupted));
        }
        self.calls = self.calls.saturating_add(1);
        if self.calls > self.good_calls {
            return Err(io::Error::from(self.kind));
        }
        Ok(())
    }
}

impl Read for Failing<&[u8]> {
    fn read(&mut self, buf: &mut [u8]) -> io::Result<usize> {
        self.call()?;
        let len = buf.len().min(1);
        self.inner.read(&mut buf[..len])
    }
}

impl Write for Failing<Vec<u8>> {
    fn write(&mut self, buf: &[u8]) -> io::Result<usize> {
        self.call()?;
        let len = buf.len().min(1);
        self.inner.write(&buf[..len])
    }

    // A flush is a call, too, but isn't interrupted.
    fn flush(&mut self) -> io::Result<()> {
        self.is_interrupted = true;
        self.call()
    }
}

// The call after the last byte, which finds the end, is one of those that fail. A number is listed
// without a call.
#[test]
fn inputs_fail_at_each_call(rt: HostRuntime) -> Result<(), Fail> {
    for (texts, bytes, text) in TEXTS {
        for kind in KINDS {
            for good_calls in 0..bytes.len() + 2 {
                let mut input = Failing::new(*bytes, good_calls, *kind);
                let wanted = if !bytes.is_empty() && good_calls <= bytes.len() {
                    Err(("error: cannot read input", 3))
                } else {
                    Ok(*text)
                };
                check(&rt, rt.alloc(), texts, &mut input, wanted)?;
            }
        }
    }
    Ok(())
}

// Each byte of the text is written by a call of its own, and then the output is flushed. After the
// call that fails there is none.
fn check_failing(
    rt: &impl Abort,
    mem: Global,
    (texts, mut bytes, text): Row,
    good_calls: usize,
    kind: ErrorKind,
) -> Result<(), Fail> {
    let mut output = Failing::new(Vec::new(mem), good_calls, kind);
    let outcome = run(mem, &words(mem, texts)?, &mut bytes, &mut output);
    let calls = (text.len() + 1).min(good_calls.saturating_add(1));
    assert_eq!(rt; output.calls, calls, "{texts:?}");
    let written = &text[..good_calls.min(text.len())];
    assert_eq!(rt; output.inner.as_slice(), written, "{texts:?}");
    let wanted = if good_calls > text.len() {
        Ok(b"".as_slice())
    } else {
        Err(("error: cannot write output", 3))
    };
    check_outcome(rt, mem, outcome, b"", wanted)
}

#[test]
fn outputs_fail_at_each_call(rt: HostRuntime) -> Result<(), Fail> {
    for row in TEXTS {
        for kind in KINDS {
            for good_calls in 0..row.2.len() + 2 {
                check_failing(&rt, rt.alloc(), *row, good_calls, *kind)?;
            }
        }
    }
    Ok(())
}

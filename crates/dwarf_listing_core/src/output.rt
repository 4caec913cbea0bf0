//! A buffered output.
//!
//! It takes the place of the `BufWriter` of `std`. The clauses of that type don't say that it keeps
//! the reference it was given, nor that it writes nothing if an allocation fails.

ghost use Rattle.std.specs.Prelude.{◌≡◌, ◌+◌, ◌-◌, ◌≤◌, [], ◌∷◌, ◌++◌, IfOk, OnOk, drop, length, take, vec_capacity, vec_len};
ghost use Rattle.std.specs.Io.KnownBytes.{Appends, Keeps, prepend_known};
ghost use Rattle.dwarf_listing_core.specs.Output.{buffered_contents};

use std::io;
use std::io::{ErrorKind, Write};

/// The capacity of a buffer, in bytes. A longer write goes to the output directly.
pub(crate) const BUFFER_SIZE: usize = 65536;

/// An output with a buffer. What remains in it is written before a write that doesn't fit,
/// and by a flush, but not by a drop.
#[derive(Drop)]
pub(crate) struct Buffered<'a, O> {
    output: &'a mut O,
    buffer: Vec<u8>,
}

impl<'a, O: Write> Buffered<'a, O> {
    /// Returns the output with a buffer, which never grows.
    pub(crate) fn new(output: &'a mut O, buffer: Vec<u8>) -> Buffered<'a, O>
        ensures same_reference { result.output.ghost_name ≡ output.entry.ghost_name }
        ensures output { result.output.now ≡ output.old }
        ensures buffer { result.buffer ≡ buffer }
    {
        Buffered { output, buffer }
    }

    /// Writes what is in the buffer, flushes the output, and returns it. A caller reads the output
    /// once more: from that its proof learns what the output holds.
    ///
    /// # Errors
    ///
    /// That of the output.
    pub(crate) fn finish(mut self) -> io::Result<&'a mut O>
        ensures same_reference { IfOk result
            (λ output. output.ghost_name ≡ self.entry.output.ghost_name) }
        ensures bytes { IfOk result
            (λ output. Keeps (buffered_contents O.contents self.entry)
            (prepend_known (output.ghost_name ∷ []) (O.contents output.now))) }
    {
        self.flush()?;
        Ok(self.output)
    }

    // Writes what is in the buffer. If that fails, the bytes that weren't written stay in it.
    fn write_buffer(&mut self) -> io::Result<()>
        ensures same_reference { self.new.output.ghost_name ≡ self.old.output.ghost_name }
        ensures bytes { Keeps (buffered_contents O.contents self.old)
            (buffered_contents O.contents self.new) }
        ensures empty { OnOk result (self.new.buffer.items ≡ []) }
    {
        let (written, result) = write_out(self.output, &self.buffer);
        remove_front(&mut self.buffer, written);
        result
    }

    // This is out of line, so that only the test for room is inlined.
    #[cold]
    #[inline(never)]
    fn write_all_cold(&mut self, bytes: &[u8]) -> io::Result<()>
        ensures { OnOk result (Appends (buffered_contents O.contents self.old)
            (buffered_contents O.contents self.new) bytes.now) }
    {
        self.write_buffer()?;
        if bytes.len() > self.buffer.capacity() - self.buffer.len() {
            return self.output.write_all(bytes);
        }
        append(&mut self.buffer, bytes);
        Ok(())
    }
}

impl<O: Write> Write for Buffered<'_, O> {
    ghost use Rattle.dwarf_listing_core.specs.Output.{buffered_contents};

    ghost contents = { buffered_contents O.contents };

    fn write(&mut self, buf: &[u8]) -> io::Result<usize> {
        if buf.len() > self.buffer.capacity() - self.buffer.len() {
            self.write_buffer()?;
            if buf.len() > self.buffer.capacity() - self.buffer.len() {
                return self.output.write(buf);
            }
        }
        append(&mut self.buffer, buf);
        Ok(buf.len())
    }

    fn flush(&mut self) -> io::Result<()>
        ensures same_reference { self.new.output.ghost_name ≡ self.old.output.ghost_name }
        ensures bytes { Keeps (buffered_contents O.contents self.old)
            (buffered_contents O.contents self.new) }
        ensures empty { OnOk result (self.new.buffer.items ≡ []) }
    {
        self.write_buffer()?;
        self.output.flush()
    }

    #[inline(always)]
    fn write_all(&mut self, buf: &[u8]) -> io::Result<()> {
        if buf.len() <= self.buffer.capacity() - self.buffer.len() {
            append(&mut self.buffer, buf);
            return Ok(());
        }
        self.write_all_cold(buf)
    }
}

// Writes until all is written or a call fails, and returns how many bytes were written. An
// interrupted call is repeated.
fn write_out<O: Write>(output: &mut O, bytes: &[u8]) -> (usize, io::Result<()>)
    ensures bound { result.0 ≤ length bytes.now }
    ensures bytes { Appends (O.contents output.old) (O.contents output.new)
        (take result.0 bytes.now) }
    ensures all { OnOk result.1 (result.0 ≡ length bytes.now) }
{
    let mut written = 0;
    // No output takes this many calls; the bound shows that the loop ends.
    'calls: for _ in 0..u64::MAX {
        if written == bytes.len() {
            return (written, Ok(()));
        }
        match output.write(&bytes[written..]) {
            Ok(0) => return (written, Err(io::Error::from(ErrorKind::WriteZero))),
            Ok(count) => written += count,
            Err(error) => {
                if error.kind() != ErrorKind::Interrupted {
                    return (written, Err(error));
                }
            }
        }
    }
    (written, Err(io::Error::from(ErrorKind::TimedOut)))
}

fn remove_front(buffer: &mut Vec<u8>, count: usize)
    requires { count ≤ vec_len buffer.old }
    ensures items { buffer.new.items ≡ drop count buffer.old.items }
    ensures len { vec_len buffer.new ≡ vec_len buffer.old - count }
    ensures capacity { vec_capacity buffer.new ≡ vec_capacity buffer.old }
{
    let len = buffer.len();
    buffer.as_mut_slice().copy_within(count..len, 0);
    buffer.truncate(len - count);
}

#[inline(always)]
fn append(buffer: &mut Vec<u8>, bytes: &[u8])
    requires { vec_len buffer.old + length bytes.now ≤ vec_capacity buffer.old }
    ensures { buffer.new.items ≡ buffer.old.items ++ bytes.now }
{
    let Ok(()) = buffer.extend_from_slice(bytes) else {
        unreachable!()
    };
}

//! The input of a program, read to its end.

ghost use Rattle.std.specs.Prelude.{◌≡◌, IfOk, IfErr, OnOk, IfSome};
ghost use Rattle.std.specs.Io.KnownBytes.{IsAtEnd};
ghost use Rattle.dwarf_listing_core.specs.Fault.{IsMemoryFault, IsReadFault, WasRead};

use crate::fault::Fault;
use std::alloc::Global;
use std::io::{ErrorKind, Read};

/// Returns all bytes of an input. An interrupted call is repeated.
///
/// # Errors
///
/// `Read` if the input can't be read, and `OutOfMemory` if memory runs out.
pub fn read_input<I: Read>(mem: Global, input: &mut I) -> Result<Vec<u8>, Fault>
    ensures whole { IfOk result
        (λ bytes. IfSome (I.remaining input.old) (λ left. bytes.items ≡ left)) }
    ensures end { OnOk result (IsAtEnd (I.remaining input.new)) }
    ensures faults { IfErr result IsReadFault }
    // Only bytes that were read need memory.
    ensures memory { IfErr result (λ fault. IsMemoryFault fault
        → WasRead (I.remaining input.old) (I.remaining input.new)) }
{
    let mut bytes = Vec::new(mem);
    let mut buffer = [0; 65536];
    // No input takes this many calls; the bound shows that the loop ends.
    for _ in 0..u64::MAX {
        match input.read(&mut buffer) {
            Ok(0) => return Ok(bytes),
            Ok(count) => bytes.extend_from_slice(&buffer[..count])?,
            Err(error) => {
                if error.kind() != ErrorKind::Interrupted {
                    return Err(Fault::Read);
                }
            }
        }
    }
    Err(Fault::Read)
}

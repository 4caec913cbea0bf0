//! A whole run: arguments, input, result, output.

ghost use Rattle.std.specs.Prelude.{◌≡◌, ◌≢◌, ◌⊎◌, List, ℕ, ◌↔◌, Ok, Err, IfErr, OnOk, IfSome, map, string_bytes};
ghost use Rattle.std.specs.Io.KnownBytes.{Appends, IsAtEnd};
ghost use Rattle.dwarf_read_core.specs.declared.Error.TheVariants.{OutOfMemory};
ghost use Rattle.dwarf_listing_core.specs.Command.{IsUsage, ReadsInput, given};
ghost use Rattle.dwarf_listing_core.specs.Fault.{IsMemoryFault, WasRead};
ghost use Rattle.dwarf_listing_core.specs.Text.{IsText, text_bytes};

use crate::command::{parse_command, reads_input};
use crate::fault::Fault;
use crate::input::read_input;
use crate::listing::{Text, listing};
use crate::output::{BUFFER_SIZE, Buffered};
use std::alloc::Global;
use std::io::{Read, Write};

/// Does what the arguments request.
///
/// The arguments are parsed first. Then the input is read to its end, if the command lists a part
/// of it. Once it is known that there is a text, this is written through a buffer, and the output
/// is flushed.
///
/// # Errors
///
/// - `Usage` if the arguments name no command. Nothing is read then.
/// - `Read` if the input can't be read.
/// - `Section` if what the command lists is malformed, with the first error, or if memory runs out.
/// - `Write` if the output can't be written. A part of the text may be written then; after any
///   other error nothing is.
pub fn run<I: Read, O: Write>(
    mem: Global,
    words: &[String],
    input: &mut I,
    output: &mut O,
) -> Result<(), Fault>
    // What was written, and nothing else.
    ensures written { OnOk result
        (IfSome (given (map string_bytes words.now) (I.remaining input.old))
        (λ bytes. (text : List ℕ) × IsText (map string_bytes words.now) bytes (Ok text)
        × Appends (O.contents output.old) (O.contents output.new) text)) }
    ensures unwritten { IfErr result (λ fault. fault ≢ Fault.Write → output.new ≡ output.old) }
    ensures unread { ¬ ReadsInput (map string_bytes words.now) → input.new ≡ input.old }
    ensures end { OnOk result
        (ReadsInput (map string_bytes words.now) → IsAtEnd (I.remaining input.new)) }

    // When each error is returned.
    ensures usage { (result ≡ Err Fault.Usage) ↔ IsUsage (map string_bytes words.now) }
    ensures section { (error : _) → result ≡ Err (Fault.Section error) → error ≢ OutOfMemory
        → IfSome (given (map string_bytes words.now) (I.remaining input.old)) (λ bytes.
        IsText (map string_bytes words.now) bytes (Err (Fault.Section error))) }
    ensures read { result ≡ Err Fault.Read → ReadsInput (map string_bytes words.now) }
    // An input of which nothing can be read isn't `OutOfMemory`.
    ensures memory { result ≡ Err (Fault.Section OutOfMemory)
        → ReadsInput (map string_bytes words.now)
        → WasRead (I.remaining input.old) (I.remaining input.new) }
    ensures write { result ≡ Err Fault.Write
        → IfSome (given (map string_bytes words.now) (I.remaining input.old)) (λ bytes.
        (text : List ℕ) × IsText (map string_bytes words.now) bytes (Ok text)) }
{
    let command = parse_command(words).ok_or(Fault::Usage)?;
    let bytes = if reads_input(command) {
        read_input(mem, input)?
    } else {
        Vec::new(mem)
    };
    let text = listing(mem, command, bytes)?;
    write_output(mem, output, &text)
}

fn write_output<O: Write>(mem: Global, output: &mut O, text: &Text) -> Result<(), Fault>
    ensures written { OnOk result
        (Appends (O.contents output.old) (O.contents output.new) (text_bytes text.now)) }
    ensures unwritten { IfErr result (λ fault. fault ≢ Fault.Write → output.new ≡ output.old) }
    ensures fault { IfErr result (λ fault. (fault ≡ Fault.Write) ⊎ IsMemoryFault fault) }
{
    let buffer = Vec::with_capacity(mem, BUFFER_SIZE)?;
    let mut buffered = Buffered::new(output, buffer);
    if text.write_to(&mut buffered).is_err() {
        return Err(Fault::Write);
    }
    let Ok(output) = buffered.finish() else {
        return Err(Fault::Write);
    };
    let _ = &*output;
    Ok(())
}

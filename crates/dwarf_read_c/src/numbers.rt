//! LEB128 numbers (DWARF 5, 7.6).

ghost use Rattle.std.specs.Prelude.{◌≡◌, ◌≢◌};
ghost use Rattle.dwarf_read_core.specs.Leb128.{unsigned64, signed64, HasLeb128};
ghost use Rattle.dwarf_read_c.specs.Fault.{Rejects};
ghost use Rattle.dwarf_read_c.specs.Numbers.{HasNoLeb128, PutsShortest};

use crate::room::put;
use crate::status::DWARF_OK;
use dwarf_fault::{DwarfFault, reject};
use dwarf_read_core::leb128::write::Leb128;
use dwarf_read_core::{EndianSlice, LittleEndian, Reader};

/// Reads the unsigned number of at most 64 bits at the front of `bytes`. More bytes may follow it.
/// `len` is how many bytes the number has.
///
/// # Errors
///
/// Those that `dwarf_read.h` lists, in that order.
#[unsafe(no_mangle)]
pub extern "C" fn dwarf_uleb128(
    bytes: &[u8],
    value: &mut u64,
    len: &mut usize,
    fault: &mut DwarfFault,
) -> u32
    ensures read { result ≡ DWARF_OK → HasLeb128 unsigned64 bytes.now value.new len.new }
    ensures rejected { result ≢ DWARF_OK
        → Rejects (HasNoLeb128 unsigned64 bytes.now) result fault.new }
    ensures no_value { result ≢ DWARF_OK → (value.new ≡ value.old) × (len.new ≡ len.old) }
    ensures no_fault { result ≡ DWARF_OK → fault.new ≡ fault.old }
{
    let mut input = EndianSlice::new(bytes, LittleEndian);
    match input.read_uleb128() {
        Ok(number) => {
            *value = number;
            *len = bytes.len() - input.len();
            DWARF_OK
        }
        Err(error) => reject(error, fault),
    }
}

/// Reads the signed number of at most 64 bits at the front of `bytes`. More bytes may follow it.
/// `len` is how many bytes the number has.
///
/// # Errors
///
/// Those that `dwarf_read.h` lists, in that order.
#[unsafe(no_mangle)]
pub extern "C" fn dwarf_sleb128(
    bytes: &[u8],
    value: &mut i64,
    len: &mut usize,
    fault: &mut DwarfFault,
) -> u32
    ensures read { result ≡ DWARF_OK → HasLeb128 signed64 bytes.now value.new len.new }
    ensures rejected { result ≢ DWARF_OK
        → Rejects (HasNoLeb128 signed64 bytes.now) result fault.new }
    ensures no_value { result ≢ DWARF_OK → (value.new ≡ value.old) × (len.new ≡ len.old) }
    ensures no_fault { result ≡ DWARF_OK → fault.new ≡ fault.old }
{
    let mut input = EndianSlice::new(bytes, LittleEndian);
    match input.read_sleb128() {
        Ok(number) => {
            *value = number;
            *len = bytes.len() - input.len();
            DWARF_OK
        }
        Err(error) => reject(error, fault),
    }
}

/// Writes the shortest bytes of an unsigned number to the front of `bytes`. `len` is their count,
/// from 1 to 10. If `bytes` has no room for them, only `len` is written, and the call returns
/// `DWARF_NO_ROOM`.
#[unsafe(no_mangle)]
pub extern "C" fn dwarf_uleb128_write(value: u64, bytes: &mut [u8], len: &mut usize) -> u32
    ensures written { PutsShortest unsigned64 value bytes.old bytes.new len.new result }
{
    let number = Leb128::unsigned(value);
    *len = number.len();
    put(number.bytes(), bytes)
}

/// Writes the shortest bytes of a signed number to the front of `bytes`. `len` is their count, from
/// 1 to 10. If `bytes` has no room for them, only `len` is written, and the call returns
/// `DWARF_NO_ROOM`.
#[unsafe(no_mangle)]
pub extern "C" fn dwarf_sleb128_write(value: i64, bytes: &mut [u8], len: &mut usize) -> u32
    ensures written { PutsShortest signed64 value bytes.old bytes.new len.new result }
{
    let number = Leb128::signed(value);
    *len = number.len();
    put(number.bytes(), bytes)
}

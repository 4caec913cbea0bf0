//! Reading LEB128 numbers (DWARF 5, 7.6) from any [`Reader`].

ghost use Rattle.std.specs.Prelude.{◌≡◌, IfOk, IfErr, OnOk};
ghost use Rattle.dwarf_reader_core.specs.Leb128.{unsigned64, unsigned16, signed64, TakesNoEncoding, ReadsLeb128, ReadsNoLeb128, TakesEncoding};

use crate::reader::Reader;
use dwarf_base_core::error::Result;

/// Consumes one number of any length, without returning its value.
///
/// # Errors
///
/// `UnexpectedEof` at the end of the bytes if they end before the number does. All of them are
/// consumed then.
#[inline]
pub fn skip<R: Reader>(r: &mut R) -> Result<()>
    ensures ok { OnOk result (TakesEncoding (R.view r.old) (R.view r.new)) }
    ensures err { IfErr result (λ e. TakesNoEncoding (R.view r.old) e (R.view r.new)) }
    ensures order { R.order r.new ≡ R.order r.old }
{
    r.skip_leb128()
}

/// Reads an unsigned number of at most 64 bits.
///
/// # Errors
///
/// `UnexpectedEof` or `BadUnsignedLeb128`, [as for all numbers](super#limits-and-errors).
#[inline]
pub fn unsigned<R: Reader>(r: &mut R) -> Result<u64>
    ensures ok { IfOk result (λ v. ReadsLeb128 unsigned64 (R.view r.old) v (R.view r.new)) }
    ensures err { IfErr result (λ e. ReadsNoLeb128 unsigned64 (R.view r.old) e (R.view r.new)) }
    ensures order { R.order r.new ≡ R.order r.old }
{
    r.read_uleb128()
}

/// Reads an unsigned number of at most 16 bits.
///
/// # Errors
///
/// `UnexpectedEof` or `BadUnsignedLeb128`, [as for all numbers](super#limits-and-errors).
#[inline]
pub fn u16<R: Reader>(r: &mut R) -> Result<u16>
    ensures ok { IfOk result (λ v. ReadsLeb128 unsigned16 (R.view r.old) v (R.view r.new)) }
    ensures err { IfErr result (λ e. ReadsNoLeb128 unsigned16 (R.view r.old) e (R.view r.new)) }
    ensures order { R.order r.new ≡ R.order r.old }
{
    r.read_uleb128_u16()
}

/// Reads a signed number of at most 64 bits.
///
/// # Errors
///
/// `UnexpectedEof` or `BadSignedLeb128`, [as for all numbers](super#limits-and-errors).
#[inline]
pub fn signed<R: Reader>(r: &mut R) -> Result<i64>
    ensures ok { IfOk result (λ v. ReadsLeb128 signed64 (R.view r.old) v (R.view r.new)) }
    ensures err { IfErr result (λ e. ReadsNoLeb128 signed64 (R.view r.old) e (R.view r.new)) }
    ensures order { R.order r.new ≡ R.order r.old }
{
    r.read_sleb128()
}

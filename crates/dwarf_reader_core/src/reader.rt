//! Reading from the bytes of a section.

ghost use Rattle.std.specs.Prelude.{◌≡◌, ◌+◌, ◌^◌, IsSome, IfSome, ◌⊎◌, ◌↔◌, ◌≤◌, ◌<◌, Bool, [], length, take, IfOk, IfErr, OnOk, OnErr, IsTrue};
ghost use Rattle.std.specs.Cow.{cow_slice_items, cow_str_bytes};
ghost use Rattle.std.specs.Str.{IsUtf8};
ghost use Rattle.std.specs.Str.Lossy.{utf8_lossy};
ghost use Rattle.dwarf_base_core.specs.declared.error.Error.TheVariants.{BadUtf8, OutOfMemory};
ghost use Rattle.dwarf_base_core.specs.Format.{word_size};
ghost use Rattle.dwarf_reader_core.specs.Input.{Input, first, IsPartOf, IsBounded, IsFirst, Covers, Takes, TakesByte, TakesNumber, TakesSigned, TakesString};
ghost use Rattle.dwarf_reader_core.specs.Faults.{IsTooShort, IsUnsupportedAddressSize, HasNoByte, ReadsNoAddress, ReadsNoOffset, ReadsNoWord, CloneRanOutOfMemory, is_number_size};
ghost use Rattle.dwarf_reader_core.specs.Leb128.{unsigned64, unsigned16, signed64, IsOver, TakesNoEncoding, ReadsLeb128, ReadsNoLeb128, TakesEncoding};
ghost use Rattle.dwarf_reader_core.specs.InitialLength.{HasLength, HasNoLength};

use crate::leb128::{
    MAX_TENTH_BYTE, MAX_THIRD_BYTE, has_continuation_bit, has_sign_bit, read_sleb128, read_uleb128,
    with_digit, with_sign,
};
use dwarf_base_core::common::Format;
use dwarf_base_core::endianity::Endianity;
use dwarf_base_core::error::{Error, Result};
use dwarf_base_core::reader_offset::{ReaderOffset, ReaderOffsetId};
use std::alloc::Global;
use std::borrow::{CowSlice, CowStr};
use std::fmt::Debug;

/// The bytes of a section that remain to be read, the position of the first of them, and a byte
/// order.
///
/// A call that consumes bytes consumes them from the front, and the position grows by as many. No
/// call changes the byte order, and each reader that a call returns has it too. Positions are below
/// 2^64, and the number of remaining bytes is an offset.
///
/// [`Error::UnexpectedEof`] has the position at which bytes are missing. The reads from
/// [`read_u8`](Reader::read_u8) to [`read_uint`](Reader::read_uint) consume nothing if they fail.
///
/// An implementation writes the calls up to [`read_slice`](Reader::read_slice). The others have
/// bodies, and an implementation that overrides one has to meet the same contract.
///
/// ```
/// let mut input = EndianSlice::new(&[0x81, 0x01, 0x00], LittleEndian);
/// assert_eq!(rt; input.read_uleb128(), Ok(129));
/// assert_eq!(rt; input.offset_id(), ReaderOffsetId(2));
/// ```
pub trait Reader: Debug + Drop + Sized {
    /// The byte order of numbers.
    type Endian: Endianity;

    /// The type of lengths, and of offsets within the bytes.
    type Offset: ReaderOffset;

    /// Whether clones can't fail: `try_clone`, `split` and `read_null_terminated_slice` never return
    /// [`Error::OutOfMemory`]. It is what [`is_clone_free`](Reader::is_clone_free) returns.
    const CLONE_IS_FREE: bool;

    // What `is_clone_free` returns, for contracts.
    ghost clone_is_free: { Bool };

    // The bytes that remain, the position of the first, and whether the highest byte comes first.
    ghost view: { Self → Input };

    // The byte order itself; `view` only has whether the highest byte comes first.
    ghost order: { Self → Self.Endian };

    /// Returns whether clones can't fail, as [`CLONE_IS_FREE`](Reader::CLONE_IS_FREE) says.
    ///
    /// The checker proves what this call returns. It proves nothing of a constant, so a program
    /// that has to know calls this.
    fn is_clone_free(&self) -> bool
        ensures { result ≡ clone_is_free };

    /// Returns another reader of the same bytes, at the same position.
    ///
    /// # Errors
    ///
    /// [`Error::OutOfMemory`] if memory runs out.
    fn try_clone(&self) -> Result<Self>
        ensures ok { IfOk result (λ clone. view clone ≡ view self.now) }
        ensures err { IfErr result (CloneRanOutOfMemory clone_is_free) }
        ensures order { IfOk result (λ clone. order clone ≡ order self.now) };

    /// Returns the byte order.
    fn endian(&self) -> Self::Endian
        ensures is_big { Self.Endian.is_big result ≡ (view self.now).is_big }
        ensures order { result ≡ order self.now };

    /// Returns the number of bytes that remain.
    fn len(&self) -> Self::Offset
        ensures { Self.Offset.value result ≡ length (view self.now).bytes };

    /// Drops all bytes that remain. The position is unchanged.
    fn empty(&mut self)
        ensures left { view self.new ≡ first 0 (view self.old) }
        ensures order { order self.new ≡ order self.old };

    /// Keeps only the first `len` bytes.
    ///
    /// # Errors
    ///
    /// [`Error::UnexpectedEof`] if fewer bytes remain. Nothing is changed then.
    fn truncate(&mut self, len: Self::Offset) -> Result<()>
        ensures ok { OnOk result (view self.new ≡ first (Self.Offset.value len) (view self.old)) }
        ensures enough { OnOk result (Self.Offset.value len ≤ length (view self.old).bytes) }
        ensures err { IfErr result
            (λ e. IsTooShort (Self.Offset.value len) (view self.old) e (view self.new)) }
        ensures order { order self.new ≡ order self.old };

    /// Returns the distance, in bytes, from the position of `base` to that of this reader.
    ///
    /// The caller has to make sure that the bytes that remain here are a part of those that remain
    /// in `base`.
    fn offset_from(&self, base: &Self) -> Self::Offset
        requires { IsPartOf (view self.now) (view base.now) }
        ensures { Self.Offset.value result + (view base.now).position ≡ (view self.now).position };

    /// Returns the position, as an identifier of the place in the section.
    fn offset_id(&self) -> ReaderOffsetId
        ensures { result.0 ≡ (view self.now).position };

    /// Returns the offset, in bytes from the position, of the place with this identifier, or `None`
    /// if it is neither one of the bytes that remain nor their end.
    fn lookup_offset_id(&self, id: ReaderOffsetId) -> Option<Self::Offset>
        ensures found { IfSome result
            (λ offset. (view self.now).position + Self.Offset.value offset ≡ id.0) }
        ensures covered { IsSome result ↔ Covers (view self.now) id.0 };

    /// Returns the offset, in bytes from the position, of the first byte with this value.
    ///
    /// # Errors
    ///
    /// [`Error::UnexpectedEof`] at the position if no byte has this value.
    fn find(&self, byte: u8) -> Result<Self::Offset>
        ensures ok { IfOk result
            (λ index. IsFirst byte (view self.now).bytes (Self.Offset.value index)) }
        ensures err { IfErr result (HasNoByte byte (view self.now)) };

    /// Consumes `len` bytes.
    ///
    /// # Errors
    ///
    /// [`Error::UnexpectedEof`] if fewer bytes remain. None is consumed then.
    fn skip(&mut self, len: Self::Offset) -> Result<()>
        ensures ok { OnOk result (Takes (Self.Offset.value len) (view self.old) (view self.new)) }
        ensures err { IfErr result
            (λ e. IsTooShort (Self.Offset.value len) (view self.old) e (view self.new)) }
        ensures order { order self.new ≡ order self.old };

    /// Consumes `len` bytes, and returns a reader of them that begins at their position.
    ///
    /// # Errors
    ///
    /// - [`Error::UnexpectedEof`] if fewer bytes remain.
    /// - [`Error::OutOfMemory`] if memory for the new reader runs out.
    ///
    /// No byte is consumed then.
    fn split(&mut self, len: Self::Offset) -> Result<Self>
        ensures part { IfOk result
            (λ part. view part ≡ first (Self.Offset.value len) (view self.old)) }
        ensures ok { OnOk result (Takes (Self.Offset.value len) (view self.old) (view self.new)) }
        ensures err { IfErr result
            (λ e. IsTooShort (Self.Offset.value len) (view self.old) e (view self.new)
            ⊎ (CloneRanOutOfMemory clone_is_free e × (view self.new ≡ view self.old))) }
        ensures part_order { IfOk result (λ part. order part ≡ order self.old) }
        ensures order { order self.new ≡ order self.old };

    /// Returns all bytes that remain, and consumes none.
    ///
    /// # Errors
    ///
    /// [`Error::OutOfMemory`] if the bytes have to be copied and memory runs out.
    fn to_slice(&self) -> Result<CowSlice<'_, u8>>
        ensures ok { IfOk result (λ bytes. cow_slice_items bytes ≡ (view self.now).bytes) }
        ensures err { IfErr result (λ e. e ≡ OutOfMemory) };

    /// Returns all bytes that remain as text, and consumes none.
    ///
    /// # Errors
    ///
    /// - [`Error::BadUtf8`] if they aren't UTF-8.
    /// - [`Error::OutOfMemory`] if they have to be copied and memory runs out.
    fn to_string(&self) -> Result<CowStr<'_>>
        ensures ok { IfOk result (λ text. cow_str_bytes text ≡ (view self.now).bytes) }
        ensures utf8 { OnOk result (IsUtf8 (view self.now).bytes) }
        ensures err { IfErr result
            (λ e. (¬ (IsUtf8 (view self.now).bytes) × (e ≡ BadUtf8)) ⊎ (e ≡ OutOfMemory)) };

    /// Returns all bytes that remain as text, and consumes none.
    ///
    /// If they aren't UTF-8, each truncated sequence, as long as possible, and each other invalid
    /// byte becomes one U+FFFD, as in `String::from_utf8_lossy`.
    ///
    /// # Errors
    ///
    /// [`Error::OutOfMemory`] if memory for the text runs out.
    fn to_string_lossy(&self, mem: Global) -> Result<CowStr<'_>>
        ensures ok { IfOk result (λ text. cow_str_bytes text ≡ utf8_lossy (view self.now).bytes) }
        ensures err { IfErr result (λ e. e ≡ OutOfMemory) };

    /// Consumes as many bytes as the buffer has, and copies them there.
    ///
    /// # Errors
    ///
    /// [`Error::UnexpectedEof`] if fewer bytes remain. None is consumed then, and the buffer is
    /// unchanged.
    fn read_slice(&mut self, buf: &mut [u8]) -> Result<()>
        ensures filled { OnOk result (buf.new ≡ take (length buf.old) (view self.old).bytes) }
        ensures ok { OnOk result (Takes (length buf.old) (view self.old) (view self.new)) }
        ensures err { IfErr result
            (λ e. IsTooShort (length buf.old) (view self.old) e (view self.new)) }
        ensures unchanged { OnErr result (buf.new ≡ buf.old) }
        ensures order { order self.new ≡ order self.old };

    /// Returns whether no bytes remain.
    #[inline]
    fn is_empty(&self) -> bool
        ensures { IsTrue result ↔ ((view self.now).bytes ≡ []) }
    {
        self.len().into_u64() == 0
    }

    /// Reads one byte.
    ///
    /// # Errors
    ///
    /// [`Error::UnexpectedEof`] if no byte remains.
    #[inline]
    fn read_u8(&mut self) -> Result<u8>
        ensures ok { IfOk result (λ byte. TakesByte (view self.old) byte (view self.new)) }
        ensures err { IfErr result (λ e. IsTooShort 1 (view self.old) e (view self.new)) }
        ensures order { order self.new ≡ order self.old }
    {
        let mut bytes = [0; 1];
        self.read_slice(&mut bytes)?;
        Ok(bytes[0])
    }

    /// Reads one byte as a signed number.
    ///
    /// # Errors
    ///
    /// As [`read_u8`](Reader::read_u8).
    #[inline]
    fn read_i8(&mut self) -> Result<i8>
        ensures ok { IfOk result (λ x. TakesSigned 1 (view self.old) x (view self.new)) }
        ensures err { IfErr result (λ e. IsTooShort 1 (view self.old) e (view self.new)) }
        ensures order { order self.new ≡ order self.old }
    {
        Ok(self.read_u8()?.cast_signed())
    }

    /// Reads a number of two bytes.
    ///
    /// # Errors
    ///
    /// [`Error::UnexpectedEof`] if fewer bytes remain.
    #[inline]
    fn read_u16(&mut self) -> Result<u16>
        ensures ok { IfOk result (λ x. TakesNumber 2 (view self.old) x (view self.new)) }
        ensures err { IfErr result (λ e. IsTooShort 2 (view self.old) e (view self.new)) }
        ensures order { order self.new ≡ order self.old }
    {
        let mut bytes = [0; 2];
        self.read_slice(&mut bytes)?;
        Ok(self.endian().read_u16(&bytes))
    }

    /// Reads a signed number of two bytes.
    ///
    /// # Errors
    ///
    /// [`Error::UnexpectedEof`] if fewer bytes remain.
    #[inline]
    fn read_i16(&mut self) -> Result<i16>
        ensures ok { IfOk result (λ x. TakesSigned 2 (view self.old) x (view self.new)) }
        ensures err { IfErr result (λ e. IsTooShort 2 (view self.old) e (view self.new)) }
        ensures order { order self.new ≡ order self.old }
    {
        let mut bytes = [0; 2];
        self.read_slice(&mut bytes)?;
        Ok(self.endian().read_i16(&bytes))
    }

    /// Reads a number of four bytes.
    ///
    /// # Errors
    ///
    /// [`Error::UnexpectedEof`] if fewer bytes remain.
    #[inline]
    fn read_u32(&mut self) -> Result<u32>
        ensures ok { IfOk result (λ x. TakesNumber 4 (view self.old) x (view self.new)) }
        ensures err { IfErr result (λ e. IsTooShort 4 (view self.old) e (view self.new)) }
        ensures order { order self.new ≡ order self.old }
    {
        let mut bytes = [0; 4];
        self.read_slice(&mut bytes)?;
        Ok(self.endian().read_u32(&bytes))
    }

    /// Reads a signed number of four bytes.
    ///
    /// # Errors
    ///
    /// [`Error::UnexpectedEof`] if fewer bytes remain.
    #[inline]
    fn read_i32(&mut self) -> Result<i32>
        ensures ok { IfOk result (λ x. TakesSigned 4 (view self.old) x (view self.new)) }
        ensures err { IfErr result (λ e. IsTooShort 4 (view self.old) e (view self.new)) }
        ensures order { order self.new ≡ order self.old }
    {
        let mut bytes = [0; 4];
        self.read_slice(&mut bytes)?;
        Ok(self.endian().read_i32(&bytes))
    }

    /// Reads a number of eight bytes.
    ///
    /// # Errors
    ///
    /// [`Error::UnexpectedEof`] if fewer bytes remain.
    #[inline]
    fn read_u64(&mut self) -> Result<u64>
        ensures ok { IfOk result (λ x. TakesNumber 8 (view self.old) x (view self.new)) }
        ensures err { IfErr result (λ e. IsTooShort 8 (view self.old) e (view self.new)) }
        ensures order { order self.new ≡ order self.old }
    {
        let mut bytes = [0; 8];
        self.read_slice(&mut bytes)?;
        Ok(self.endian().read_u64(&bytes))
    }

    /// Reads a signed number of eight bytes.
    ///
    /// # Errors
    ///
    /// [`Error::UnexpectedEof`] if fewer bytes remain.
    #[inline]
    fn read_i64(&mut self) -> Result<i64>
        ensures ok { IfOk result (λ x. TakesSigned 8 (view self.old) x (view self.new)) }
        ensures err { IfErr result (λ e. IsTooShort 8 (view self.old) e (view self.new)) }
        ensures order { order self.new ≡ order self.old }
    {
        let mut bytes = [0; 8];
        self.read_slice(&mut bytes)?;
        Ok(self.endian().read_i64(&bytes))
    }

    /// Reads a number of sixteen bytes.
    ///
    /// # Errors
    ///
    /// [`Error::UnexpectedEof`] if fewer bytes remain.
    #[inline]
    fn read_u128(&mut self) -> Result<u128>
        ensures ok { IfOk result (λ x. TakesNumber 16 (view self.old) x (view self.new)) }
        ensures err { IfErr result (λ e. IsTooShort 16 (view self.old) e (view self.new)) }
        ensures order { order self.new ≡ order self.old }
    {
        let mut bytes = [0; 16];
        self.read_slice(&mut bytes)?;
        Ok(self.endian().read_u128(&bytes))
    }

    /// Reads a number of `n` bytes. The caller has to make sure that `n` is at most eight.
    ///
    /// # Errors
    ///
    /// [`Error::UnexpectedEof`] if fewer bytes remain.
    #[inline]
    fn read_uint(&mut self, n: usize) -> Result<u64>
        requires { n ≤ 8 }
        ensures ok { IfOk result (λ x. TakesNumber n (view self.old) x (view self.new)) }
        ensures err { IfErr result (λ e. IsTooShort n (view self.old) e (view self.new)) }
        ensures order { order self.new ≡ order self.old }
    {
        let mut bytes = [0; 8];
        let bytes = &mut bytes[..n];
        self.read_slice(bytes)?;
        Ok(self.endian().read_uint(bytes))
    }

    /// Consumes the bytes up to the first zero and that zero, and returns a reader of those before
    /// it.
    ///
    /// # Errors
    ///
    /// - [`Error::UnexpectedEof`] at the position if no byte is zero.
    /// - [`Error::OutOfMemory`] if memory for the new reader runs out.
    ///
    /// No byte is consumed then.
    #[inline]
    fn read_null_terminated_slice(&mut self) -> Result<Self>
        ensures ok { IfOk result
            (λ string. TakesString (view self.old) (view string) (view self.new)) }
        ensures err { IfErr result
            (λ e. HasNoByte 0 (view self.old) e ⊎ CloneRanOutOfMemory clone_is_free e) }
        ensures unchanged { OnErr result (view self.new ≡ view self.old) }
        ensures string_order { IfOk result (λ string. order string ≡ order self.old) }
        ensures order { order self.new ≡ order self.old }
    {
        let len = self.find(0)?;
        let string = self.split(len)?;
        self.skip(Self::Offset::from_u8(1))?;
        Ok(string)
    }

    /// Consumes the bytes of one LEB128 number, of any length (DWARF 5, 7.6).
    ///
    /// # Errors
    ///
    /// [`Error::UnexpectedEof`] if the bytes end before the number does. All of them are consumed
    /// then.
    #[inline]
    fn skip_leb128(&mut self) -> Result<()>
        ensures ok { OnOk result (TakesEncoding (view self.old) (view self.new)) }
        ensures err { IfErr result (λ e. TakesNoEncoding (view self.old) e (view self.new)) }
        ensures order { order self.new ≡ order self.old }
    {
        loop {
            let byte = self.read_u8()?;
            if !has_continuation_bit(byte) {
                return Ok(());
            }
        }
    }

    /// Reads an unsigned LEB128 number of at most 64 bits (DWARF 5, 7.6).
    ///
    /// # Errors
    ///
    /// [`Error::UnexpectedEof`] or [`Error::BadUnsignedLeb128`],
    /// [as for all numbers](crate::leb128#limits-and-errors).
    #[inline(always)]
    fn read_uleb128(&mut self) -> Result<u64>
        ensures ok { IfOk result (λ v. ReadsLeb128 unsigned64 (view self.old) v (view self.new)) }
        ensures err { IfErr result
            (λ e. ReadsNoLeb128 unsigned64 (view self.old) e (view self.new)) }
        ensures order { order self.new ≡ order self.old }
    {
        read_uleb128!(self)
    }

    /// Reads an unsigned LEB128 number that is below 2^32.
    ///
    /// # Errors
    ///
    /// Those of [`read_uleb128`](Reader::read_uleb128), and [`Error::BadUnsignedLeb128`] if the
    /// number is 2^32 or more. Its bytes are consumed then.
    #[inline]
    fn read_uleb128_u32(&mut self) -> Result<u32>
        ensures ok { IfOk result (λ v. ReadsLeb128 unsigned64 (view self.old) v (view self.new)) }
        ensures err { IfErr result (λ e. ReadsNoLeb128 unsigned64 (view self.old) e (view self.new)
            ⊎ IsOver (2 ^ 32) (view self.old) e (view self.new)) }
        ensures order { order self.new ≡ order self.old }
    {
        let value = self.read_uleb128()?;
        u32::try_from(value).map_err(|_| Error::BadUnsignedLeb128)
    }

    /// Reads an unsigned LEB128 number of at most 16 bits.
    ///
    /// # Errors
    ///
    /// [`Error::UnexpectedEof`] or [`Error::BadUnsignedLeb128`],
    /// [as for all numbers](crate::leb128#limits-and-errors).
    #[inline(always)]
    fn read_uleb128_u16(&mut self) -> Result<u16>
        ensures ok { IfOk result (λ v. ReadsLeb128 unsigned16 (view self.old) v (view self.new)) }
        ensures err { IfErr result
            (λ e. ReadsNoLeb128 unsigned16 (view self.old) e (view self.new)) }
        ensures order { order self.new ≡ order self.old }
    {
        let first = self.read_u8()?;
        if !has_continuation_bit(first) {
            return Ok(u16::from(first));
        }
        let one = with_digit(0, first, 0);
        let second = self.read_u8()?;
        let two = with_digit(one, second, 7);
        if !has_continuation_bit(second) {
            return Ok(two as u16);
        }
        let third = self.read_u8()?;
        if third > MAX_THIRD_BYTE {
            return Err(Error::BadUnsignedLeb128);
        }
        Ok(with_digit(two, third, 14) as u16)
    }

    /// Reads a signed LEB128 number of at most 64 bits (DWARF 5, 7.6).
    ///
    /// # Errors
    ///
    /// [`Error::UnexpectedEof`] or [`Error::BadSignedLeb128`],
    /// [as for all numbers](crate::leb128#limits-and-errors).
    #[inline(always)]
    fn read_sleb128(&mut self) -> Result<i64>
        ensures ok { IfOk result (λ v. ReadsLeb128 signed64 (view self.old) v (view self.new)) }
        ensures err { IfErr result (λ e. ReadsNoLeb128 signed64 (view self.old) e (view self.new)) }
        ensures order { order self.new ≡ order self.old }
    {
        read_sleb128!(self)
    }

    /// Reads the length, in bytes, at the front of a unit, and the unit's format (DWARF 5, 7.4).
    ///
    /// # Errors
    ///
    /// - [`Error::UnexpectedEof`] if fewer than four bytes remain, and then none is consumed; or if
    ///   the first four are `0xffffffff` and fewer than eight follow, and then four are consumed.
    /// - [`Error::UnknownReservedLength`] if the first four bytes are reserved. They are consumed.
    /// - [`Error::UnsupportedOffset`] if the length doesn't fit the offset type. All twelve bytes
    ///   are consumed.
    #[inline]
    fn read_initial_length(&mut self) -> Result<(Self::Offset, Format)>
        ensures ok { IfOk result
            (λ found. HasLength Self.Offset.GREATEST (view self.old) found.1
            (Self.Offset.value found.0) (view self.new)) }
        ensures in_range { IfOk result (λ found. Self.Offset.value found.0 ≤ Self.Offset.GREATEST) }
        ensures err { IfErr result
            (λ e. HasNoLength Self.Offset.GREATEST (view self.old) e (view self.new)) }
        ensures order { order self.new ≡ order self.old }
    {
        const FIRST_RESERVED: u32 = 0xffff_fff0;
        const DWARF_64: u32 = 0xffff_ffff;

        let len = self.read_u32()?;
        if len < FIRST_RESERVED {
            return Ok((Self::Offset::from_u32(len), Format::Dwarf32));
        }
        if len != DWARF_64 {
            return Err(Error::UnknownReservedLength(len));
        }
        let len = self.read_u64()?;
        Ok((Self::Offset::from_u64(len)?, Format::Dwarf64))
    }

    /// Reads a byte that is the size of addresses in bytes: 1, 2, 4 or 8.
    ///
    /// # Errors
    ///
    /// - [`Error::UnexpectedEof`] if no byte remains.
    /// - [`Error::UnsupportedAddressSize`] if the byte has another value. It is consumed.
    #[inline]
    fn read_address_size(&mut self) -> Result<u8>
        ensures ok { IfOk result
            (λ size. TakesByte (view self.old) size (view self.new)
            × IsTrue (is_number_size size)) }
        ensures err { IfErr result
            (λ e. IsTooShort 1 (view self.old) e (view self.new)
            ⊎ IsUnsupportedAddressSize (view self.old) e (view self.new)) }
        ensures order { order self.new ≡ order self.old }
    {
        match self.read_u8()? {
            size @ (1 | 2 | 4 | 8) => Ok(size),
            other => Err(Error::UnsupportedAddressSize(other)),
        }
    }

    /// Reads an address of `size` bytes.
    ///
    /// # Errors
    ///
    /// - [`Error::UnsupportedAddressSize`] if `size` isn't 1, 2, 4 or 8.
    /// - [`Error::UnexpectedEof`] if fewer bytes remain.
    ///
    /// No byte is consumed then.
    #[inline]
    fn read_address(&mut self, size: u8) -> Result<u64>
        ensures ok { IfOk result
            (λ address. TakesNumber size (view self.old) address (view self.new)
            × IsTrue (is_number_size size)) }
        ensures err { IfErr result (λ e. ReadsNoAddress size (view self.old) e (view self.new)) }
        ensures order { order self.new ≡ order self.old }
    {
        match size {
            1 => Ok(u64::from(self.read_u8()?)),
            2 => Ok(u64::from(self.read_u16()?)),
            4 => Ok(u64::from(self.read_u32()?)),
            8 => self.read_u64(),
            _ => Err(Error::UnsupportedAddressSize(size)),
        }
    }

    /// Reads a word of the format: four or eight bytes.
    ///
    /// # Errors
    ///
    /// - [`Error::UnexpectedEof`] if fewer bytes remain. None is consumed.
    /// - [`Error::UnsupportedOffset`] if the word doesn't fit the offset type. It is consumed.
    #[inline]
    fn read_word(&mut self, format: Format) -> Result<Self::Offset>
        ensures ok { IfOk result
            (λ x. TakesNumber (word_size format)
            (view self.old) (Self.Offset.value x) (view self.new)) }
        ensures in_range { IfOk result (λ x. Self.Offset.value x ≤ Self.Offset.GREATEST) }
        ensures err { IfErr result
            (λ e. ReadsNoWord Self.Offset.GREATEST (word_size format)
            (view self.old) e (view self.new)) }
        ensures order { order self.new ≡ order self.old }
    {
        let word = match format {
            Format::Dwarf32 => u64::from(self.read_u32()?),
            Format::Dwarf64 => self.read_u64()?,
        };
        Self::Offset::from_u64(word)
    }

    /// Reads a word of the format that is a length in bytes.
    ///
    /// # Errors
    ///
    /// As [`read_word`](Reader::read_word).
    #[inline]
    fn read_length(&mut self, format: Format) -> Result<Self::Offset>
        ensures ok { IfOk result
            (λ x. TakesNumber (word_size format)
            (view self.old) (Self.Offset.value x) (view self.new)) }
        ensures in_range { IfOk result (λ x. Self.Offset.value x ≤ Self.Offset.GREATEST) }
        ensures err { IfErr result
            (λ e. ReadsNoWord Self.Offset.GREATEST (word_size format)
            (view self.old) e (view self.new)) }
        ensures order { order self.new ≡ order self.old }
    {
        self.read_word(format)
    }

    /// Reads a word of the format that is an offset.
    ///
    /// # Errors
    ///
    /// As [`read_word`](Reader::read_word).
    #[inline]
    fn read_offset(&mut self, format: Format) -> Result<Self::Offset>
        ensures ok { IfOk result
            (λ x. TakesNumber (word_size format)
            (view self.old) (Self.Offset.value x) (view self.new)) }
        ensures in_range { IfOk result (λ x. Self.Offset.value x ≤ Self.Offset.GREATEST) }
        ensures err { IfErr result
            (λ e. ReadsNoWord Self.Offset.GREATEST (word_size format)
            (view self.old) e (view self.new)) }
        ensures order { order self.new ≡ order self.old }
    {
        self.read_word(format)
    }

    /// Reads an offset of `size` bytes.
    ///
    /// # Errors
    ///
    /// - [`Error::UnsupportedOffsetSize`] if `size` isn't 1, 2, 4 or 8. No byte is consumed.
    /// - [`Error::UnexpectedEof`] if fewer bytes remain. None is consumed.
    /// - [`Error::UnsupportedOffset`] if the number doesn't fit the offset type. It is consumed.
    #[inline]
    fn read_sized_offset(&mut self, size: u8) -> Result<Self::Offset>
        ensures ok { IfOk result
            (λ x. TakesNumber size (view self.old) (Self.Offset.value x) (view self.new)
            × IsTrue (is_number_size size)) }
        ensures in_range { IfOk result (λ x. Self.Offset.value x ≤ Self.Offset.GREATEST) }
        ensures err { IfErr result
            (λ e. ReadsNoOffset Self.Offset.GREATEST size (view self.old) e (view self.new)) }
        ensures order { order self.new ≡ order self.old }
    {
        let number = match size {
            1 => u64::from(self.read_u8()?),
            2 => u64::from(self.read_u16()?),
            4 => u64::from(self.read_u32()?),
            8 => self.read_u64()?,
            _ => return Err(Error::UnsupportedOffsetSize(size)),
        };
        Self::Offset::from_u64(number)
    }

    // What holds of every reader.
    ghost within: { (reader : Self) → IsBounded Self.Offset.GREATEST (view reader) };
}

/// Reads `N` bytes.
///
/// # Errors
///
/// [`Error::UnexpectedEof`] if fewer bytes remain. None is consumed then.
#[inline]
pub fn read_u8_array<R: Reader, const N: usize>(r: &mut R) -> Result<[u8; N]>
    ensures filled { IfOk result (λ bytes. bytes ≡ take N (R.view r.old).bytes) }
    ensures ok { OnOk result (Takes N (R.view r.old) (R.view r.new)) }
    ensures err { IfErr result (λ e. IsTooShort N (R.view r.old) e (R.view r.new)) }
    ensures order { R.order r.new ≡ R.order r.old }
{
    let mut bytes = [0; N];
    r.read_slice(&mut bytes)?;
    Ok(bytes)
}

//! A reader of borrowed bytes.

ghost use Rattle.std.specs.Prelude.{◌≡◌, ◌+◌, ◌<◌, ◌≤◌, ◌^◌, ◌-◌, ◌≢◌, ◌↔◌, ◌⊎◌, ◌++◌, [], length, All, nat_eq, true, ⊤, IsOk, OnOk, IfOk, IfErr, IfSome, IfNone};
ghost use Rattle.std.specs.Cmp.{and_equiv, on_equiv, partial_equiv_from_equiv};
ghost use Rattle.std.specs.Cmp.Lexicographic.{nat_list_eq_equiv, pointwise};
ghost use Rattle.std.specs.Cmp.Rules.{hashing};
ghost use Rattle.std.specs.Cow.{cow_slice_items, cow_str_bytes};
ghost use Rattle.std.specs.Hash as fed;
ghost use Rattle.std.specs.Ordering.{eq_of_both, on};
ghost use Rattle.std.specs.Str.{IsUtf8};
ghost use Rattle.std.specs.Str.Lossy.{utf8_lossy};
ghost use Rattle.std.proofs.Common.{arith, rules};
ghost use Rattle.dwarf_base_core.specs.declared.error.Error.TheVariants.{BadUtf8, OutOfMemory};
ghost use Rattle.dwarf_reader_core.specs.Input.{after, first, IsFirst, IsPartOf};

use crate::leb128::{
    MAX_TENTH_BYTE, has_continuation_bit, has_sign_bit, read_sleb128, read_uleb128, with_digit,
    with_sign,
};
use crate::reader::Reader;
use bstr::ByteSlice;
use dwarf_base_core::endianity::Endianity;
use dwarf_base_core::error::{Error, Result};
use dwarf_base_core::reader_offset::ReaderOffsetId;
use memchr::memchr;
use std::alloc::{AllocError, Global};
use std::borrow::{CowSlice, CowStr};
use std::hash::{Hash, Hasher};
use std::ops::{Range, RangeFrom, RangeTo};

/// A [`Reader`] of borrowed bytes.
///
/// Cloning or splitting it copies no bytes and allocates no memory. Two are equal if their bytes
/// and byte orders are, whatever their positions.
#[derive(Debug)]
pub struct EndianSlice<'input, Endian: Endianity> {
    slice: &'input [u8],
    endian: Endian,
    // The position after the last byte. Consuming bytes leaves it unchanged, which saves a store.
    end: u64,
    ghost starts: { length slice.now ≤ end },
    ghost ends: { end < 2 ^ 64 },
    ghost bytes: { All (λ b. b < 256) slice.now },
}

impl<'input, Endian: Endianity> Clone for EndianSlice<'input, Endian> {
    ghost is_clone = { λ a b. (b.slice.now ≡ a.slice.now) × (b.endian ≡ a.endian) × (b.end ≡ a.end) };

    ghost is_infallible = { λ _. ⊤ };

    #[inline]
    fn clone(&self) -> std::result::Result<Self, AllocError> {
        Ok(EndianSlice {
            slice: self.slice,
            endian: self.endian,
            end: self.end,
        })
    }
}

impl<'input, Endian: Endianity> Copy for EndianSlice<'input, Endian> {}

/// Two are equal exactly if their bytes and their byte orders are, whatever their positions.
impl<'input, Endian: Endianity> PartialEq for EndianSlice<'input, Endian> {
    ghost eq = { eq_of_both (on (λ s. s.slice.now) (pointwise nat_eq)) (on (λ s. s.endian) Endian.eq) };

    ghost laws = { partial_equiv_from_equiv (and_equiv (on_equiv (λ s. s.slice.now) nat_list_eq_equiv) (on_equiv (λ s. s.endian) Endian.Eq.laws)) };

    fn eq(&self, other: &Self) -> bool {
        self.slice == other.slice && self.endian == other.endian
    }
}

impl<'input, Endian: Endianity> Eq for EndianSlice<'input, Endian> {
    ghost laws = { and_equiv (on_equiv (λ s. s.slice.now) nat_list_eq_equiv) (on_equiv (λ s. s.endian) Endian.Eq.laws) };
}

/// The bytes and the byte order are hashed.
impl<'input, Endian: Endianity + Hash> Hash for EndianSlice<'input, Endian> {
    ghost hash_input = { λ s. fed.slice fed.u8 s.slice.now ++ Endian.hash_input s.endian };

    ghost respects_eq = { Prim.search (hashing, rules) };

    fn hash<H: Hasher>(&self, state: &mut H) {
        self.slice.hash(state);
        self.endian.hash(state);
    }
}

/// No bytes, at position 0, in the default byte order.
impl<'input, Endian: Endianity> Default for EndianSlice<'input, Endian> {
    ghost is_default = { λ s. (s.slice.now ≡ []) × (s.end ≡ 0) × Endian.is_default s.endian };

    fn default() -> EndianSlice<'input, Endian> {
        EndianSlice {
            slice: &[],
            endian: Endian::default(),
            end: 0,
        }
    }
}

impl<'input, Endian: Endianity> EndianSlice<'input, Endian> {
    ghost use Rattle.dwarf_reader_core.specs.Slice.{input_of};

    /// Returns a reader of these bytes, at position 0.
    #[inline]
    pub fn new(slice: &'input [u8], endian: Endian) -> EndianSlice<'input, Endian>
        ensures view { input_of result
            ≡ record { bytes = slice.now; position = 0; is_big = Endian.is_big endian } }
        ensures order { result.endian ≡ endian }
    {
        EndianSlice {
            slice,
            endian,
            end: slice.len() as u64,
        }
    }

    /// Returns a reader of these bytes, at the position `first`. Sections read side by side have
    /// identifiers of their own if each begins above the end of the one before.
    ///
    /// The caller has to make sure that the position after the last byte is below 2^64.
    #[inline]
    pub fn with_first_id(
        slice: &'input [u8],
        endian: Endian,
        first: ReaderOffsetId,
    ) -> EndianSlice<'input, Endian>
        requires { first.0 + length slice.now < 2 ^ 64 }
        ensures view { input_of result
            ≡ record { bytes = slice.now; position = first.0; is_big = Endian.is_big endian } }
        ensures order { result.endian ≡ endian }
    {
        EndianSlice {
            slice,
            endian,
            end: first.0 + slice.len() as u64,
        }
    }

    /// Returns the bytes that remain.
    #[inline]
    pub fn slice(&self) -> &'input [u8]
        ensures { result.now ≡ (input_of self.now).bytes }
    {
        self.slice
    }

    /// Returns the bytes that remain, borrowed from the reader.
    #[inline]
    pub fn as_slice(&self) -> &[u8]
        ensures { result.now ≡ (input_of self.now).bytes }
    {
        self.slice()
    }

    /// Returns a reader of the first `idx` bytes that remain, and one of those after them.
    ///
    /// The caller has to make sure that at least `idx` bytes remain.
    #[inline]
    pub fn split_at(&self, idx: usize) -> (EndianSlice<'input, Endian>, EndianSlice<'input, Endian>)
        requires { idx ≤ length (input_of self.now).bytes }
        ensures front { input_of result.0 ≡ first idx (input_of self.now) }
        ensures rest { input_of result.1 ≡ after idx (input_of self.now) }
        ensures front_order { result.0.endian ≡ self.now.endian }
        ensures rest_order { result.1.endian ≡ self.now.endian }
    {
        (self.range_to(..idx), self.range_from(idx..))
    }

    /// Returns the offset, in bytes from the position, of the first byte with this value, or
    /// `None`.
    #[inline]
    pub fn find(&self, byte: u8) -> Option<usize>
        ensures found { IfSome result (IsFirst byte (input_of self.now).bytes) }
        ensures none { IfNone result (All (λ b. b ≢ byte) (input_of self.now).bytes) }
    {
        find_byte(self.slice, byte)
    }

    /// Returns the distance, in bytes, from the position of `base` to that of this reader.
    ///
    /// The caller has to make sure that the bytes that remain here are a part of those that remain
    /// in `base`.
    #[inline]
    pub fn offset_from(&self, base: EndianSlice<'input, Endian>) -> usize
        requires { IsPartOf (input_of self.now) (input_of base) }
        ensures { result + (input_of base.entry).position ≡ (input_of self.now).position }
    {
        Reader::offset_from(self, &base)
    }

    /// Returns the bytes that remain, as text.
    ///
    /// # Errors
    ///
    /// [`Error::BadUtf8`] exactly if they aren't UTF-8.
    #[inline]
    pub fn to_string(&self) -> Result<&'input str>
        ensures ok { IfOk result (λ text. text.now ≡ (input_of self.now).bytes) }
        ensures utf8 { IsOk result ↔ IsUtf8 (input_of self.now).bytes }
        ensures err { IfErr result (λ e. e ≡ BadUtf8) }
    {
        str::from_utf8(self.slice).map_err(|_| Error::BadUtf8)
    }

    /// Returns the bytes that remain, as text. Each truncated sequence, as long as possible, and
    /// each other invalid byte becomes one U+FFFD, as in `String::from_utf8_lossy`.
    ///
    /// # Errors
    ///
    /// [`Error::OutOfMemory`] if memory runs out. Memory is allocated only if the bytes aren't
    /// UTF-8.
    #[inline]
    pub fn to_string_lossy(&self, mem: Global) -> Result<CowStr<'input>>
        ensures ok { IfOk result
            (λ text. cow_str_bytes text ≡ utf8_lossy (input_of self.now).bytes) }
        ensures free { IsUtf8 (input_of self.now).bytes → IsOk result }
        ensures err { IfErr result (λ e. e ≡ OutOfMemory) }
    {
        match self.slice.to_str_lossy(mem) {
            Ok(text) => Ok(text),
            Err(_) => Err(Error::OutOfMemory),
        }
    }

    /// Returns a reader of the bytes from `range.start` up to `range.end`, counted from the
    /// position.
    ///
    /// The caller has to make sure that `range.start` is at most `range.end`, and that at least
    /// `range.end` bytes remain.
    #[inline]
    pub fn range(&self, range: Range<usize>) -> EndianSlice<'input, Endian>
        requires ordered { range.start ≤ range.end }
        requires within { range.end ≤ length (input_of self.now).bytes }
        ensures view { input_of result
            ≡ first (range.end - range.start) (after range.start (input_of self.now)) }
        ensures order { result.endian ≡ self.now.endian }
    {
        EndianSlice {
            slice: &self.slice[range.start..range.end],
            endian: self.endian,
            end: self.end - (self.slice.len() - range.end) as u64,
        }
    }

    /// Returns a reader of the bytes from `range.start` on, counted from the position.
    ///
    /// The caller has to make sure that at least `range.start` bytes remain.
    #[inline]
    pub fn range_from(&self, range: RangeFrom<usize>) -> EndianSlice<'input, Endian>
        requires { range.start ≤ length (input_of self.now).bytes }
        ensures view { input_of result ≡ after range.start (input_of self.now) }
        ensures order { result.endian ≡ self.now.endian }
    {
        self.range(range.start..self.slice.len())
    }

    /// Returns a reader of the bytes up to `range.end`, counted from the position.
    ///
    /// The caller has to make sure that at least `range.end` bytes remain.
    #[inline]
    pub fn range_to(&self, range: RangeTo<usize>) -> EndianSlice<'input, Endian>
        requires { range.end ≤ length (input_of self.now).bytes }
        ensures view { input_of result ≡ first range.end (input_of self.now) }
        ensures order { result.endian ≡ self.now.endian }
    {
        self.range(0..range.end)
    }

    #[inline]
    fn position(&self) -> u64
        ensures { result ≡ (input_of self.now).position }
    {
        self.end - self.slice.len() as u64
    }

    // The value of `CLONE_IS_FREE`, tied by a contract to the ghost that contracts read.
    const fn takes_no_memory() -> bool
        ensures { result ≡ ⟦<EndianSlice<'input, Endian> as Reader>⟧.clone_is_free }
    {
        true
    }
}

impl<'input, Endian: Endianity> Reader for EndianSlice<'input, Endian> {
    ghost use Rattle.dwarf_reader_core.specs.Slice.{input_of};

    type Endian = Endian;

    type Offset = usize;

    const CLONE_IS_FREE: bool = EndianSlice::<'input, Endian>::takes_no_memory();

    ghost clone_is_free = { true };

    ghost view = { input_of };

    ghost order = { λ s. s.endian };

    ghost within = { λ s. record { positions = Prim.omega (arith, s.starts, s.ends); lengths = Prim.omega (arith, s.starts, s.ends); bytes = s.bytes } };

    #[inline]
    fn is_clone_free(&self) -> bool {
        EndianSlice::<'input, Endian>::takes_no_memory()
    }

    #[inline]
    fn try_clone(&self) -> Result<Self> {
        Ok(self.clone()?)
    }

    #[inline]
    fn endian(&self) -> Endian {
        self.endian
    }

    #[inline]
    fn len(&self) -> usize {
        self.slice.len()
    }

    #[inline]
    fn empty(&mut self) {
        *self = self.range_to(..0);
    }

    #[inline]
    fn truncate(&mut self, len: usize) -> Result<()> {
        *self = self.split(len)?;
        Ok(())
    }

    #[inline]
    fn offset_from(&self, base: &Self) -> usize {
        (self.position() - base.position()) as usize
    }

    #[inline]
    fn offset_id(&self) -> ReaderOffsetId {
        ReaderOffsetId(self.position())
    }

    #[inline]
    fn lookup_offset_id(&self, id: ReaderOffsetId) -> Option<usize> {
        if id.0 >= self.position() && id.0 <= self.end {
            Some((id.0 - self.position()) as usize)
        } else {
            None
        }
    }

    #[inline]
    fn find(&self, byte: u8) -> Result<usize> {
        match self.find(byte) {
            Some(index) => Ok(index),
            None => Err(Error::UnexpectedEof(self.offset_id())),
        }
    }

    #[inline]
    fn skip(&mut self, len: usize) -> Result<()> {
        self.split(len)?;
        Ok(())
    }

    #[inline]
    fn split(&mut self, len: usize) -> Result<Self> {
        if self.slice.len() < len {
            return Err(Error::UnexpectedEof(self.offset_id()));
        }
        let (front, rest) = self.slice.split_at(len);
        let part = EndianSlice {
            slice: front,
            endian: self.endian,
            end: self.end - rest.len() as u64,
        };
        self.slice = rest;
        Ok(part)
    }

    /// Returns all bytes that remain, borrowed, so that no memory is allocated.
    #[inline]
    fn to_slice(&self) -> Result<CowSlice<'_, u8>>
        ensures ok { IfOk result (λ bytes. cow_slice_items bytes ≡ (input_of self.now).bytes) }
        ensures err { IfErr result (λ e. e ≡ OutOfMemory) }
        ensures free { IsOk result }
    {
        Ok(CowSlice::Borrowed(self.slice))
    }

    /// Returns all bytes that remain as borrowed text, so that no memory is allocated.
    ///
    /// # Errors
    ///
    /// [`Error::BadUtf8`] exactly if they aren't UTF-8.
    #[inline]
    fn to_string(&self) -> Result<CowStr<'_>>
        ensures ok { IfOk result (λ text. cow_str_bytes text ≡ (input_of self.now).bytes) }
        ensures utf8 { OnOk result (IsUtf8 (input_of self.now).bytes) }
        ensures err { IfErr result
            (λ e. (¬ (IsUtf8 (input_of self.now).bytes) × (e ≡ BadUtf8)) ⊎ (e ≡ OutOfMemory)) }
        ensures free { IfErr result (λ e. e ≡ BadUtf8) }
    {
        Ok(CowStr::Borrowed(self.to_string()?))
    }

    /// Like the trait's call, but allocates only if the bytes aren't UTF-8.
    #[inline]
    fn to_string_lossy(&self, mem: Global) -> Result<CowStr<'_>>
        ensures ok { IfOk result
            (λ text. cow_str_bytes text ≡ utf8_lossy (input_of self.now).bytes) }
        ensures free { IsUtf8 (input_of self.now).bytes → IsOk result }
        ensures err { IfErr result (λ e. e ≡ OutOfMemory) }
    {
        self.to_string_lossy(mem)
    }

    #[inline]
    fn read_slice(&mut self, buf: &mut [u8]) -> Result<()> {
        let front = self.split(buf.len())?;
        buf.copy_from_slice(front.slice);
        Ok(())
    }

    #[inline]
    fn read_u8(&mut self) -> Result<u8> {
        let Some((byte, rest)) = self.slice.split_first() else {
            return Err(Error::UnexpectedEof(self.offset_id()));
        };
        self.slice = rest;
        Ok(*byte)
    }

    // Most numbers have one byte. The last byte of a longer one is found by its index, since
    // reading byte by byte would move the slice each time.
    #[inline(always)]
    fn skip_leb128(&mut self) -> Result<()> {
        let first = self.read_u8()?;
        if !has_continuation_bit(first) {
            return Ok(());
        }
        for (index, byte) in self.slice.iter().enumerate() {
            if !has_continuation_bit(*byte) {
                return self.skip(index + 1);
            }
        }
        self.skip(self.slice.len())?;
        Err(Error::UnexpectedEof(self.offset_id()))
    }

    // The next two have the bodies of the trait. A default body is called out of line, whatever its
    // hint says. These are inlined, so that the caller keeps the remaining bytes in registers.
    #[inline(always)]
    fn read_uleb128(&mut self) -> Result<u64> {
        read_uleb128!(self)
    }

    #[inline(always)]
    fn read_sleb128(&mut self) -> Result<i64> {
        read_sleb128!(self)
    }
}

// The index of the first byte of this value.
#[inline]
fn find_byte(bytes: &[u8], byte: u8) -> Option<usize>
    ensures found { IfSome result (IsFirst byte bytes.now) }
    ensures none { IfNone result (All (λ b. b ≢ byte) bytes.now) }
{
    memchr(byte, bytes)
}

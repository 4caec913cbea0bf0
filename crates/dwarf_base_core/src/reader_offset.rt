//! The types that offsets into a section can have.

ghost use Rattle.std.specs.Prelude.{◌≡◌, ◌≤◌, ◌<◌, ◌+◌, ◌-◌, ◌^◌, ◌%◌, ◌==◌, ◌↔◌, ℕ, Some};
ghost use Rattle.std.specs.Ordering.{nat_cmp};
ghost use Rattle.std.proofs.Common.{rules};
ghost use Rattle.dwarf_base_core.specs.Checked.{OkBelow};
ghost use Rattle.dwarf_base_core.specs.Offset.{offset_from_signed, DiffersBy};
ghost use Rattle.dwarf_base_core.specs.Hashes.{same_writes_32, same_writes_64};

use crate::error::{Error, Result};
use std::fmt::Debug;
use std::hash::Hash;
use std::ops::{Add, AddAssign, Sub};

/// A place in the input, as errors contain it.
///
/// It is the position of a reader, counted in bytes. If each section begins above the end of the
/// one before, an identifier says which section it belongs to.
#[derive(Debug, Clone, Copy, PartialEq, Eq)]
pub struct ReaderOffsetId(pub u64);

/// The type of a reader's offsets and lengths, such as `usize`.
///
/// An offset represents a number from 0 to [`GREATEST`](ReaderOffset::GREATEST), which is at
/// least 2^32 - 1. Equality, order and hash are those of the numbers, and so are `+`, `+=` and
/// `-`: a sum has to be at most `GREATEST`, and a difference may not be negative.
///
/// A section of more than `GREATEST` bytes has no reader with such offsets. A smaller type saves
/// room if sections are known to be small.
///
/// ```
/// // The end of a part, at any type of offsets.
/// fn end_of<O: ReaderOffset>(start: O, len: O) -> Result<O> {
///     let end = start
///         .into_u64()
///         .checked_add(len.into_u64())
///         .ok_or(Error::UnsupportedOffset)?;
///     O::from_u64(end)
/// }
/// ```
pub trait ReaderOffset: Debug
    + Copy
    + Eq
    + Ord
    + Hash
    + Add<Output = Self>
    + AddAssign
    + Sub<Output = Self> {
    /// The greatest number that is an offset of this type.
    const GREATEST: u64;

    // The greatest number that an offset represents, for contracts.
    ghost GREATEST: { ℕ };

    // The number that the offset represents.
    ghost value: { Self → ℕ };

    /// Returns the offset of this number.
    fn from_u8(offset: u8) -> Self
        ensures { value result ≡ offset };

    /// Returns the offset of this number.
    fn from_u16(offset: u16) -> Self
        ensures { value result ≡ offset };

    /// Returns the offset of this number, or for a negative one of `GREATEST + 1` plus it.
    ///
    /// So [`wrapping_add`](ReaderOffset::wrapping_add) with it goes back by that much.
    fn from_i16(offset: i16) -> Self
        ensures { value result ≡ offset_from_signed GREATEST offset };

    /// Returns the offset of this number.
    fn from_u32(offset: u32) -> Self
        ensures { value result ≡ offset };

    /// Returns the offset of this number.
    ///
    /// # Errors
    ///
    /// [`Error::UnsupportedOffset`] exactly if the number is above `GREATEST`.
    fn from_u64(offset: u64) -> Result<Self>
        ensures { OkBelow (GREATEST + 1) value offset Error.UnsupportedOffset result };

    /// Returns the number that the offset represents.
    fn into_u64(self) -> u64
        ensures number { result ≡ value self }
        ensures in_range { result ≤ GREATEST };

    /// Returns the sum modulo `GREATEST + 1`.
    fn wrapping_add(self, other: Self) -> Self
        ensures { value result ≡ (value self + value other) % (GREATEST + 1) };

    /// Returns the difference, or `None` exactly if it is negative.
    fn checked_sub(self, other: Self) -> Option<Self>
        ensures { DiffersBy value self other result };

    // Each number of 32 bits is an offset, and each offset a number of 64 bits.
    ghost holds_u32: { 2 ^ 32 ≤ GREATEST + 1 };

    ghost fits_u64: { GREATEST < 2 ^ 64 };

    // Offsets are the same, equal, and in order exactly if their numbers are.
    ghost same_law: { (x y : Self) → value x ≡ value y → x ≡ y };

    ghost eq_law: { (x y : Self) → Self.eq x y ≡ (value x == value y) };

    ghost cmp_law: { (x y : Self) → Self.cmp x y ≡ nat_cmp (value x) (value y) };

    ghost partial_cmp_law: { (x y : Self) → Self.partial_cmp x y ≡ Some (nat_cmp (value x) (value y)) };

    // The number is hashed: two offsets feed a hasher the same bytes exactly if their numbers are
    // equal.
    ghost hash_law: { (x y : Self) → value x ≤ GREATEST → value y ≤ GREATEST
        → (Self.hash_input x ≡ Self.hash_input y) ↔ (value x ≡ value y) };

    // `+`, `+=` and `-` are those of the numbers, if the result is an offset.
    ghost can_add_law: { (x y : Self) → value x + value y ≤ GREATEST → Self.can_add x y };

    ghost add_law: { (x y z : Self) → Self.add_gives x y z → value z ≡ value x + value y };

    ghost can_add_assign_law: { (x y : Self) → value x + value y ≤ GREATEST → Self.can_add_assign x y };

    ghost add_assign_law: { (x y z : Self) → Self.add_assign_gives x y z → value z ≡ value x + value y };

    ghost can_sub_law: { (x y : Self) → value y ≤ value x → Self.can_sub x y };

    ghost sub_law: { (x y z : Self) → Self.sub_gives x y z → value z ≡ value x - value y };
}

impl ReaderOffset for u64 {
    const GREATEST: u64 = u64::MAX;

    ghost GREATEST = { 2 ^ 64 - 1 };

    ghost value = { λ x. x };

    #[inline]
    fn from_u8(offset: u8) -> u64 {
        u64::from(offset)
    }

    #[inline]
    fn from_u16(offset: u16) -> u64 {
        u64::from(offset)
    }

    #[inline]
    fn from_i16(offset: i16) -> u64 {
        i64::from(offset).cast_unsigned()
    }

    #[inline]
    fn from_u32(offset: u32) -> u64 {
        u64::from(offset)
    }

    #[inline]
    fn from_u64(offset: u64) -> Result<u64> {
        Ok(offset)
    }

    #[inline]
    fn into_u64(self) -> u64 {
        self
    }

    #[inline]
    fn wrapping_add(self, other: u64) -> u64 {
        self.wrapping_add(other)
    }

    #[inline]
    fn checked_sub(self, other: u64) -> Option<u64> {
        self.checked_sub(other)
    }

    ghost holds_u32 = { Prim.search rules };

    ghost fits_u64 = { Prim.search rules };

    ghost same_law = { λ x y e. e };

    ghost eq_law = { Prim.search rules };

    ghost cmp_law = { Prim.search rules };

    ghost partial_cmp_law = { Prim.search rules };

    ghost hash_law = { same_writes_64 };

    ghost can_add_law = { Prim.search rules };

    ghost add_law = { Prim.search rules };

    ghost can_add_assign_law = { Prim.search rules };

    ghost add_assign_law = { Prim.search rules };

    ghost can_sub_law = { Prim.search rules };

    ghost sub_law = { Prim.search rules };
}

impl ReaderOffset for u32 {
    const GREATEST: u64 = u32::MAX as u64;

    ghost GREATEST = { 2 ^ 32 - 1 };

    ghost value = { λ x. x };

    #[inline]
    fn from_u8(offset: u8) -> u32 {
        u32::from(offset)
    }

    #[inline]
    fn from_u16(offset: u16) -> u32 {
        u32::from(offset)
    }

    #[inline]
    fn from_i16(offset: i16) -> u32 {
        i32::from(offset).cast_unsigned()
    }

    #[inline]
    fn from_u32(offset: u32) -> u32 {
        offset
    }

    #[inline]
    fn from_u64(offset: u64) -> Result<u32> {
        u32::try_from(offset).map_err(|_| Error::UnsupportedOffset)
    }

    #[inline]
    fn into_u64(self) -> u64 {
        u64::from(self)
    }

    #[inline]
    fn wrapping_add(self, other: u32) -> u32 {
        self.wrapping_add(other)
    }

    #[inline]
    fn checked_sub(self, other: u32) -> Option<u32> {
        self.checked_sub(other)
    }

    ghost holds_u32 = { Prim.search rules };

    ghost fits_u64 = { Prim.search rules };

    ghost same_law = { λ x y e. e };

    ghost eq_law = { Prim.search rules };

    ghost cmp_law = { Prim.search rules };

    ghost partial_cmp_law = { Prim.search rules };

    ghost hash_law = { same_writes_32 };

    ghost can_add_law = { Prim.search rules };

    ghost add_law = { Prim.search rules };

    ghost can_add_assign_law = { Prim.search rules };

    ghost add_assign_law = { Prim.search rules };

    ghost can_sub_law = { Prim.search rules };

    ghost sub_law = { Prim.search rules };
}

impl ReaderOffset for usize {
    const GREATEST: u64 = usize::MAX as u64;

    ghost GREATEST = { 2 ^ 64 - 1 };

    ghost value = { λ x. x };

    #[inline]
    fn from_u8(offset: u8) -> usize {
        offset as usize
    }

    #[inline]
    fn from_u16(offset: u16) -> usize {
        offset as usize
    }

    #[inline]
    fn from_i16(offset: i16) -> usize {
        isize::from(offset).cast_unsigned()
    }

    #[inline]
    fn from_u32(offset: u32) -> usize {
        offset as usize
    }

    #[inline]
    fn from_u64(offset: u64) -> Result<usize> {
        Ok(offset as usize)
    }

    #[inline]
    fn into_u64(self) -> u64 {
        self as u64
    }

    #[inline]
    fn wrapping_add(self, other: usize) -> usize {
        self.wrapping_add(other)
    }

    #[inline]
    fn checked_sub(self, other: usize) -> Option<usize> {
        self.checked_sub(other)
    }

    ghost holds_u32 = { Prim.search rules };

    ghost fits_u64 = { Prim.search rules };

    ghost same_law = { λ x y e. e };

    ghost eq_law = { Prim.search rules };

    ghost cmp_law = { Prim.search rules };

    ghost partial_cmp_law = { Prim.search rules };

    ghost hash_law = { same_writes_64 };

    ghost can_add_law = { Prim.search rules };

    ghost add_law = { Prim.search rules };

    ghost can_add_assign_law = { Prim.search rules };

    ghost add_assign_law = { Prim.search rules };

    ghost can_sub_law = { Prim.search rules };

    ghost sub_law = { Prim.search rules };
}

//! Byte orders, and numbers of a fixed width in them.

ghost use Rattle.std.specs.Prelude.{◌≡◌, ◌≤◌, Bool, true, false, not, length, take, drop};
ghost use Rattle.dwarf_base_core.specs.Number.{number_of, signed_number};

use std::fmt::Debug;

/// A byte order: whether a number's lowest or highest byte comes first.
///
/// The reads use the bytes at the front of a buffer, which has to have that many. The writes don't
/// change the rest of it. Use [`LittleEndian`] or [`BigEndian`] if the order is known when the
/// program is written, and [`RunTimeEndian`] if the input says it.
///
/// ```
/// let bytes = [0x78, 0x56, 0x34, 0x12];
/// let little = LittleEndian.read_u32(&bytes); // 0x12345678
/// let big = BigEndian.read_u32(&bytes); // 0x78563412
/// ```
pub trait Endianity: Debug + Default + Clone + Copy + PartialEq + Eq {
    // Whether the highest byte comes first.
    ghost is_big: { Self → Bool };

    /// Returns whether a number's highest byte comes first.
    fn is_big_endian(self) -> bool
        ensures { result ≡ is_big self };

    /// Returns whether a number's lowest byte comes first.
    #[inline]
    fn is_little_endian(self) -> bool
        ensures { result ≡ not (is_big self) }
    {
        !self.is_big_endian()
    }

    /// Returns the unsigned number of the first 2 bytes.
    #[inline]
    fn read_u16(self, buf: &[u8]) -> u16
        requires { 2 ≤ length buf.now }
        ensures { result ≡ number_of (is_big self) (take 2 buf.now) }
    {
        let bytes = *buf.first_chunk::<2>().unwrap();
        if self.is_big_endian() {
            u16::from_be_bytes(bytes)
        } else {
            u16::from_le_bytes(bytes)
        }
    }

    /// Returns the unsigned number of the first 4 bytes.
    #[inline]
    fn read_u32(self, buf: &[u8]) -> u32
        requires { 4 ≤ length buf.now }
        ensures { result ≡ number_of (is_big self) (take 4 buf.now) }
    {
        let bytes = *buf.first_chunk::<4>().unwrap();
        if self.is_big_endian() {
            u32::from_be_bytes(bytes)
        } else {
            u32::from_le_bytes(bytes)
        }
    }

    /// Returns the unsigned number of the first 8 bytes.
    #[inline]
    fn read_u64(self, buf: &[u8]) -> u64
        requires { 8 ≤ length buf.now }
        ensures { result ≡ number_of (is_big self) (take 8 buf.now) }
    {
        let bytes = *buf.first_chunk::<8>().unwrap();
        if self.is_big_endian() {
            u64::from_be_bytes(bytes)
        } else {
            u64::from_le_bytes(bytes)
        }
    }

    /// Returns the unsigned number of the first 16 bytes.
    #[inline]
    fn read_u128(self, buf: &[u8]) -> u128
        requires { 16 ≤ length buf.now }
        ensures { result ≡ number_of (is_big self) (take 16 buf.now) }
    {
        let bytes = *buf.first_chunk::<16>().unwrap();
        if self.is_big_endian() {
            u128::from_be_bytes(bytes)
        } else {
            u128::from_le_bytes(bytes)
        }
    }

    /// Returns the unsigned number of all bytes of the buffer, which has at most 8. An empty buffer
    /// gives 0.
    #[inline]
    fn read_uint(&mut self, buf: &[u8]) -> u64
        requires { length buf.now ≤ 8 }
        ensures number { result ≡ number_of (is_big self.old) buf.now }
        ensures order { self.new ≡ self.old }
    {
        let mut bytes = [0; 8];
        if self.is_big_endian() {
            bytes[8 - buf.len()..].copy_from_slice(buf);
        } else {
            bytes[..buf.len()].copy_from_slice(buf);
        }
        self.read_u64(&bytes)
    }

    /// Returns the signed number of the first 2 bytes, in two's complement.
    #[inline]
    fn read_i16(self, buf: &[u8]) -> i16
        requires { 2 ≤ length buf.now }
        ensures { result ≡ signed_number 2 (number_of (is_big self) (take 2 buf.now)) }
    {
        self.read_u16(buf).cast_signed()
    }

    /// Returns the signed number of the first 4 bytes, in two's complement.
    #[inline]
    fn read_i32(self, buf: &[u8]) -> i32
        requires { 4 ≤ length buf.now }
        ensures { result ≡ signed_number 4 (number_of (is_big self) (take 4 buf.now)) }
    {
        self.read_u32(buf).cast_signed()
    }

    /// Returns the signed number of the first 8 bytes, in two's complement.
    #[inline]
    fn read_i64(self, buf: &[u8]) -> i64
        requires { 8 ≤ length buf.now }
        ensures { result ≡ signed_number 8 (number_of (is_big self) (take 8 buf.now)) }
    {
        self.read_u64(buf).cast_signed()
    }

    /// Writes the number into the first 2 bytes.
    #[inline]
    fn write_u16(self, buf: &mut [u8], n: u16)
        requires { 2 ≤ length buf.old }
        ensures number { number_of (is_big self) (take 2 buf.new) ≡ n }
        ensures rest { drop 2 buf.new ≡ drop 2 buf.old }
    {
        if self.is_big_endian() {
            buf[..2].copy_from_slice(&n.to_be_bytes());
        } else {
            buf[..2].copy_from_slice(&n.to_le_bytes());
        }
    }

    /// Writes the number into the first 4 bytes.
    #[inline]
    fn write_u32(self, buf: &mut [u8], n: u32)
        requires { 4 ≤ length buf.old }
        ensures number { number_of (is_big self) (take 4 buf.new) ≡ n }
        ensures rest { drop 4 buf.new ≡ drop 4 buf.old }
    {
        if self.is_big_endian() {
            buf[..4].copy_from_slice(&n.to_be_bytes());
        } else {
            buf[..4].copy_from_slice(&n.to_le_bytes());
        }
    }

    /// Writes the number into the first 8 bytes.
    #[inline]
    fn write_u64(self, buf: &mut [u8], n: u64)
        requires { 8 ≤ length buf.old }
        ensures number { number_of (is_big self) (take 8 buf.new) ≡ n }
        ensures rest { drop 8 buf.new ≡ drop 8 buf.old }
    {
        if self.is_big_endian() {
            buf[..8].copy_from_slice(&n.to_be_bytes());
        } else {
            buf[..8].copy_from_slice(&n.to_le_bytes());
        }
    }

    /// Writes the number into the first 16 bytes.
    #[inline]
    fn write_u128(self, buf: &mut [u8], n: u128)
        requires { 16 ≤ length buf.old }
        ensures number { number_of (is_big self) (take 16 buf.new) ≡ n }
        ensures rest { drop 16 buf.new ≡ drop 16 buf.old }
    {
        if self.is_big_endian() {
            buf[..16].copy_from_slice(&n.to_be_bytes());
        } else {
            buf[..16].copy_from_slice(&n.to_le_bytes());
        }
    }

    // Two orders that are equal by `==` have the same end of a number first.
    ghost eq_law: { (x y : Self) → Self.eq x y ≡ true → is_big x ≡ is_big y };
}

/// A byte order that is chosen at run time. The default is `Little`.
#[derive(Debug, Clone, Copy, PartialEq, Eq, Hash)]
pub enum RunTimeEndian {
    /// The lowest byte first.
    Little,
    /// The highest byte first.
    Big,
}

impl Default for RunTimeEndian {
    ghost use Rattle.dwarf_base_core.specs.declared.endianity.RunTimeEndian.TheVariants.{Little};

    ghost is_default = { λ order. order ≡ Little };

    #[inline]
    fn default() -> RunTimeEndian {
        RunTimeEndian::Little
    }
}

impl Endianity for RunTimeEndian {
    ghost use Rattle.dwarf_base_core.specs.Endian.{is_big_at_run_time};

    ghost is_big = { is_big_at_run_time };

    #[inline]
    fn is_big_endian(self) -> bool {
        self != RunTimeEndian::Little
    }

    ghost use Rattle.std.proofs.Common.{rules};

    ghost eq_law = { Prim.search rules };
}

/// The byte order with the lowest byte first.
#[derive(Debug, Default, Clone, Copy, PartialEq, Eq, Hash)]
pub struct LittleEndian;

impl Endianity for LittleEndian {
    ghost is_big = { λ _. false };

    #[inline]
    fn is_big_endian(self) -> bool {
        false
    }

    ghost use Rattle.std.specs.Prelude.{refl};

    ghost eq_law = { λ x y same. refl };
}

/// The byte order with the highest byte first.
#[derive(Debug, Default, Clone, Copy, PartialEq, Eq, Hash)]
pub struct BigEndian;

impl Endianity for BigEndian {
    ghost is_big = { λ _. true };

    #[inline]
    fn is_big_endian(self) -> bool {
        true
    }

    ghost use Rattle.std.specs.Prelude.{refl};

    ghost eq_law = { λ x y same. refl };
}

/// The byte order of the targets that this crate is built for, which is little.
pub type NativeEndian = LittleEndian;

/// The value of the type [`NativeEndian`](type@NativeEndian).
#[allow(non_upper_case_globals)]
pub const NativeEndian: LittleEndian = LittleEndian;

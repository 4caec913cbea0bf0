//! Addresses of the target, as numbers of 1 to 8 bytes.

ghost use Rattle.std.specs.Prelude.{◌≡◌, ◌≤◌, ◌<◌, ◌+◌, ◌-◌, ◌*◌, ◌%◌, ℕ};
ghost use Rattle.dwarf_base_core.specs.Address.{address_count};
ghost use Rattle.dwarf_base_core.specs.Checked.{OkBelow};

use crate::error::{Error, Result};

/// An address of the target. Its size in bytes is an argument, since each unit has its own.
///
/// Every size has to be from 1 to 8. An address of size s is a number below 2^(8 s); the address
/// itself may be any number that the type holds.
///
/// ```
/// let end = 0xfe_u64.add_sized(1, 1); // Ok(0xff), the last address of size 1
/// let past = 0xff_u64.add_sized(1, 1); // Err(Error::AddressOverflow)
/// let wrapped = 0xff_u64.wrapping_add_sized(1, 1); // 0
/// ```
pub trait ReaderAddress: Sized {
    // The number that the address is.
    ghost value: { Self → ℕ };

    /// Returns the sum of the address and a length in bytes.
    ///
    /// # Errors
    ///
    /// [`Error::AddressOverflow`] exactly if the sum isn't an address of the size.
    fn add_sized(self, length: u64, size: u8) -> Result<Self>
        requires low { 1 ≤ size }
        requires high { size ≤ 8 }
        ensures { OkBelow (address_count size) value
            (value self + length) Error.AddressOverflow result };

    /// Returns the sum of the address and a length in bytes, modulo the number of addresses of the
    /// size.
    fn wrapping_add_sized(self, length: u64, size: u8) -> Self
        requires low { 1 ≤ size }
        requires high { size ≤ 8 }
        ensures { value result ≡ (value self + length) % address_count size };

    /// Returns the address 0.
    fn zeros() -> Self
        ensures { value result ≡ 0 };

    /// Returns the greatest address of the size, all of whose bits are ones.
    fn ones_sized(size: u8) -> Self
        requires low { 1 ≤ size }
        requires high { size ≤ 8 }
        ensures { value result ≡ address_count size - 1 };

    /// Returns the least address that can mark removed code: the second greatest of the size.
    ///
    /// Linkers write the greatest address if a unit describes code that they dropped, or the one
    /// below it if the greatest already means something else. So each address from this one on is
    /// such a mark.
    fn min_tombstone(size: u8) -> Self
        requires low { 1 ≤ size }
        requires high { size ≤ 8 }
        ensures { value result ≡ address_count size - 2 }
    {
        Self::zeros().wrapping_add_sized(u64::MAX - 1, size)
    }
}

impl ReaderAddress for u64 {
    ghost value = { λ x. x };

    #[inline]
    fn add_sized(self, length: u64, size: u8) -> Result<u64> {
        let address = self.checked_add(length).ok_or(Error::AddressOverflow)?;
        if address > u64::ones_sized(size) {
            return Err(Error::AddressOverflow);
        }
        Ok(address)
    }

    #[inline]
    fn wrapping_add_sized(self, length: u64, size: u8) -> u64 {
        self.wrapping_add(length) & u64::ones_sized(size)
    }

    #[inline]
    fn zeros() -> u64 {
        0
    }

    #[inline]
    fn ones_sized(size: u8) -> u64 {
        !0 >> (64 - size * 8)
    }
}

//! Addresses: the section `.debug_addr` (DWARF 5, 7.27).

ghost use Rattle.std.specs.Prelude.{◌≡◌, ◌+◌, ◌<◌, ◌≤◌, ℕ, [], true, length, IsTrue, IfOk, IfErr, IfSome, OnErr};
ghost use Rattle.std.specs.Fn.{CalledAt, TakesAt};
ghost use Rattle.dwarf_base_core.specs.declared.common.SectionId.TheVariants.{DebugAddr as debug_addr};
ghost use Rattle.std.specs.Result.{result_transpose};
ghost use Rattle.dwarf_reader_core.specs.Faults.{CloneRanOutOfMemory, is_number_size};
ghost use Rattle.dwarf_read_core.specs.Entries.{RepresentsAddresses};
ghost use Rattle.dwarf_read_core.specs.Items.{GivesFirst};
ghost use Rattle.dwarf_read_core.specs.Lookups.{UnlessCloneRanOut, Stays};
ghost use Rattle.dwarf_reader_core.specs.Headers.{AddressHeaderRead};
ghost use Rattle.dwarf_read_core.specs.Contributions.{addresses_of, remaining_of, seen_by};
ghost use Rattle.dwarf_read_core.specs.Words.{AddressAt, slot};

use super::contributions::{ContributionHeader, ContributionHeaderIter, HeaderFields, VERSION};
use super::indexed::skip_to_index;
use super::section::Section;
use dwarf_base_core::{
    DebugAddrBase, DebugAddrIndex, DebugAddrOffset, Encoding, Error, Format, Result, SectionId,
};
use dwarf_reader_core::Reader;
use std::alloc::AllocError;
use std::marker::Model;

/// The `.debug_addr` section (DWARF 5, 7.27): sets of addresses, each with a header.
#[derive(Debug, Default, Clone, Copy, Drop)]
pub struct DebugAddr<R> {
    section: R,
}

impl<R: Reader> DebugAddr<R> {
    ghost use Rattle.dwarf_read_core.specs.Sections.{debug_addr_reader};

    /// Returns the address with this `index` among those that begin at `base`. Indices begin at 0.
    ///
    /// `base` is the offset of the first address of a set, in bytes from the section's start: the
    /// value of `DW_AT_addr_base`. `index` is the value of an attribute of the form
    /// `DW_FORM_addrx`, or `DW_FORM_addrx1` to `DW_FORM_addrx4`. Addresses have `address_size`
    /// bytes, as the unit's header says. The header of the set isn't read, because GNU's split
    /// DWARF 4 has none.
    ///
    /// # Errors
    ///
    /// The first of these:
    ///
    /// - `UnexpectedEof` at the section's start if `base` is past its end;
    /// - `UnsupportedOffset` if `index` times `address_size` doesn't fit the offset type;
    /// - `UnexpectedEof` at `base` if the address would begin past the section's end;
    /// - `UnsupportedAddressSize` if `address_size` isn't 1, 2, 4 or 8;
    /// - `UnexpectedEof` at the address if it ends past the section's end.
    ///
    /// `OutOfMemory` if a clone of the reader runs out of memory.
    pub fn get_address(
        &self,
        address_size: u8,
        base: DebugAddrBase<R::Offset>,
        index: DebugAddrIndex<R::Offset>,
    ) -> Result<u64>
        ensures answer { let section = R.view (debug_addr_reader self.now) in
            let s = slot (R.Offset.value base.0) (R.Offset.value index.0) address_size in
            UnlessCloneRanOut (AddressAt R.Offset.GREATEST section s)
            (λ address. address) R.clone_is_free result }

        // Appended bytes don't change the result, unless it is `UnexpectedEof` or memory ran out.
        ensures stable { let section = R.view (debug_addr_reader self.now) in
            let s = slot (R.Offset.value base.0) (R.Offset.value index.0) address_size in
            Stays (λ input. AddressAt R.Offset.GREATEST input s)
            (λ address. address) R.clone_is_free section result }
    {
        let input = &mut self.section.try_clone()?;
        skip_to_index(input, base.0, index.0, address_size)?;
        input.read_address(address_size)
    }

    /// Returns the sets of addresses in order, from the section's start.
    ///
    /// GNU's split DWARF 4 has addresses without headers. Only [`get_address`](Self::get_address)
    /// reads them, and this call would take entries for a header.
    ///
    /// # Errors
    ///
    /// `OutOfMemory` if a clone of the reader runs out of memory.
    pub fn headers(&self) -> Result<AddrHeaderIter<R>>
        ensures ok { let section = R.view (debug_addr_reader self.now) in
            IfOk result
            (λ headers. remaining_of R.view headers ≡ record { offset = 0; rest = section }) }
        ensures order { let order = R.order (debug_addr_reader self.now) in
            IfOk result (λ headers. R.order headers.rest ≡ order) }
        ensures err { IfErr result (CloneRanOutOfMemory R.clone_is_free) }
    {
        Ok(AddrHeaderIter::new(self.section.try_clone()?))
    }
}

impl<T> DebugAddr<T> {
    ghost use Rattle.dwarf_read_core.specs.Sections.{debug_addr_reader};

    /// Returns a section that borrows this one's data. Use it if this one owns its bytes, such as
    /// `DebugAddr<Vec<u8>>`, which has no `Reader`: `borrow` makes one, such as an
    /// `EndianSlice`, of a reference to them.
    ///
    /// `borrow` is called once. The caller makes sure that it may be called with that reference.
    pub fn borrow<'a, F, R>(&'a self, mut borrow: F) -> DebugAddr<R>
    where
        F: FnMut(&'a T) -> R + Drop,
        requires { TakesAt F.FnMut borrow (debug_addr_reader self.now) }
        ensures { (after : F)
            × CalledAt F.FnMut borrow (debug_addr_reader self.now)
            (debug_addr_reader result) after }
    {
        borrow(&self.section).into()
    }
}

impl<R> Section<R> for DebugAddr<R> {
    ghost use Rattle.dwarf_read_core.specs.Sections.{debug_addr_reader};

    ghost section_id = { debug_addr };

    ghost section_reader = { debug_addr_reader };

    fn id() -> SectionId {
        SectionId::DebugAddr
    }

    fn reader(&self) -> &R {
        &self.section
    }

    ghost holds_reader = { λ reader section h. h };
}

impl<R> From<R> for DebugAddr<R> {
    ghost use Rattle.dwarf_read_core.specs.Sections.{debug_addr_reader};

    ghost from_gives = { λ reader section. debug_addr_reader section ≡ reader };

    fn from(section: R) -> Self {
        DebugAddr { section }
    }
}

/// The sets of addresses that remain of a section, each by its header.
///
/// ```
/// for header in section.headers()? {
///     for address in header?.entries()? {
///         addresses.push(address?)?;
///     }
/// }
/// ```
pub type AddrHeaderIter<R> = ContributionHeaderIter<R, AddressSize>;

/// The header of a set of addresses, and the addresses that follow it.
pub type AddrHeader<R> = ContributionHeader<R, AddressSize>;

/// The size of the addresses of a set: 1, 2, 4 or 8 bytes. The header also has a segment size,
/// which has to be 0 and isn't kept.
#[derive(Clone, Copy, Debug, PartialEq, Eq)]
pub struct AddressSize {
    size: u8,
}

impl Model for AddressSize {
    ghost use Rattle.std.specs.Prelude.{ℕ, IsTrue};
    ghost use Rattle.dwarf_reader_core.specs.Faults.{is_number_size};

    ghost Value = { ℕ };

    ghost view = { λ a. a.size };

    ghost inverse = { λ size. record { size = size } };

    ghost invariant = { λ a. IsTrue (is_number_size a.size) };
}

impl AddressSize {
    /// Returns the size in bytes.
    pub fn bytes(self) -> u8
        ensures size { result ≡ self }
        ensures sized { IsTrue (is_number_size result) }
    {
        self.size
    }
}

impl<R: Reader> HeaderFields<R> for AddressSize {
    ghost Said = { ℕ };

    ghost said = { λ size. size };

    ghost header = { AddressHeaderRead };

    const NAME: &'static str = "AddrHeader";

    fn parse(unit: &mut R, _format: Format) -> Result<Self> {
        let version = unit.read_u16()?;
        if version != VERSION {
            return Err(Error::UnknownVersion(u64::from(version)));
        }
        let size = unit.read_address_size()?;
        match unit.read_u8()? {
            0 => Ok(AddressSize { size }),
            segment_size => Err(Error::UnsupportedSegmentSize(segment_size)),
        }
    }

    fn law() {}
}

impl<R: Reader> AddrHeader<R> {
    /// Returns where the set begins, in bytes from the section's start.
    pub fn offset(&self) -> DebugAddrOffset<R::Offset>
        ensures { R.Offset.value result.0 ≡ self.now.offset }
    {
        DebugAddrOffset(self.offset)
    }

    /// Returns the set's format and address size. The size is 1, 2, 4 or 8, and the version is 5.
    pub fn encoding(&self) -> Encoding
        ensures fields { result ≡ record {
          address_size = self.now.header;
          format = self.now.format;
          version = 5;
        } }
        ensures sized { IsTrue (is_number_size result.address_size) }
    {
        Encoding {
            address_size: self.fields.bytes(),
            format: self.format,
            version: VERSION,
        }
    }

    /// Returns the addresses of the set.
    ///
    /// # Errors
    ///
    /// `OutOfMemory` if a clone of the reader runs out of memory.
    pub fn entries(&self) -> Result<AddrEntryIter<R>>
        ensures ok { IfOk result
            (λ entries. entries ≡ addresses_of (seen_by R.view self.now)) }
        ensures sized { IfOk result (λ entries. IsTrue (is_number_size entries.width)) }
        ensures err { IfErr result (CloneRanOutOfMemory R.clone_is_free) }
    {
        Ok(AddrEntryIter {
            input: self.entries.try_clone()?,
            size: self.fields.bytes(),
        })
    }
}

/// The addresses that remain of a set.
#[derive(Debug, Drop)]
pub struct AddrEntryIter<R: Reader> {
    input: R,
    // How many bytes an address has.
    size: u8,
}

impl<R: Reader> Model for AddrEntryIter<R> {
    ghost use Rattle.std.specs.Prelude.{IsTrue};
    ghost use Rattle.dwarf_reader_core.specs.Faults.{is_number_size};
    ghost use Rattle.dwarf_read_core.specs.Entries.{Entries};

    ghost Value = { Entries };

    ghost view = { λ entries. record { width = entries.size; rest = R.view entries.input } };

    ghost invariant = { λ entries. IsTrue (is_number_size entries.size) };
}

impl<R: Reader> AddrEntryIter<R> {
    /// Returns the next address, or `None` if no bytes remain. It doesn't allocate.
    ///
    /// # Errors
    ///
    /// `UnexpectedEof` at the bytes that remain if they are fewer than an address has. After it
    /// `next` returns `Ok(None)`.
    pub fn next(&mut self) -> Result<Option<u64>>
        ensures first { GivesFirst RepresentsAddresses
            (λ address. address) true self.old (result_transpose result) self.new }
        ensures failed { OnErr result (self.new.rest.bytes ≡ []) }
        ensures bound { IfOk result
            (λ item. IfSome item
            (λ _. (length self.new.rest.bytes + self.old.width ≡ length self.old.rest.bytes)
            × (length self.new.rest.bytes < length self.old.rest.bytes))) }
        ensures some { OnErr result (1 ≤ length self.old.rest.bytes) }
        ensures width { self.new.width ≡ self.old.width }
    {
        if self.input.is_empty() {
            return Ok(None);
        }
        match self.input.read_address(self.size) {
            Ok(entry) => Ok(Some(entry)),
            Err(error) => {
                self.input.empty();
                Err(error)
            }
        }
    }
}

impl<R: Reader> Iterator for AddrEntryIter<R> {
    type Item = Result<u64>;

    ghost use Rattle.std.specs.Prelude.{length, true};
    ghost use Rattle.std.specs.Iterator.{at_most};
    ghost use Rattle.dwarf_read_core.specs.Entries.{RepresentsAddresses};
    ghost use Rattle.dwarf_read_core.specs.Items.{GivesFirst};

    ghost next_gives = { GivesFirst RepresentsAddresses (λ address. address) true };

    ghost remaining = { λ entries. at_most (length entries.rest.bytes) };

    #[tactic(auto, using(crate::proofs::contributions::IteratorsEnd::entries_progress))]
    fn next(&mut self) -> Option<Result<u64>> {
        self.next().transpose()
    }
}

impl<R: Reader + Clone> Clone for AddrEntryIter<R> {
    ghost is_clone = { λ entries copy. copy ≡ entries };

    ghost is_infallible = { λ _. R.clone_is_free ≡ true };

    fn clone(&self) -> std::result::Result<Self, AllocError> {
        Ok(AddrEntryIter {
            input: self.input.try_clone().map_err(|_| AllocError)?,
            size: self.size,
        })
    }
}

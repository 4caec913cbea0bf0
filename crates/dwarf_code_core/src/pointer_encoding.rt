//! Encodings of the pointers of `.eh_frame`.

ghost use Rattle.std.specs.Prelude.{◌≡◌, ◌%◌, ◌↔◌, IsTrue, IsBitSet, Some, bit_and, bit_or, option_map};
ghost use Rattle.std.specs.Fmt.{padded};
ghost use Rattle.dwarf_const_core.specs.Names.{is_among, name_of};
ghost use Rattle.dwarf_code_core.specs.DwEhPe.{IsValidEncoding, applications, formats, pointer_encoding_names, pointer_encoding_text};

use dwarf_const_core::names;
use dwarf_const_core::names::{Names, pad_name};
use std::{fmt, ops};

/// How a pointer of `.eh_frame` is encoded: the format of a number in the low four bits, what it is
/// relative to in bits 4 to 6, and in bit 7 whether the pointer is elsewhere (Linux Standard
/// Base Core 5.0, section 10.5.1).
///
/// `Display` writes the name, or `Unknown DwEhPe: 99` for a value without one, and honours width,
/// precision, fill and alignment.
#[derive(Debug, Clone, Copy, PartialEq, Eq, Hash, PartialOrd, Ord)]
pub struct DwEhPe(pub u8);

// The formats: the low four bits.

/// An unsigned LEB128 number.
pub const DW_EH_PE_uleb128: DwEhPe = DwEhPe(0x01);
/// An unsigned number of two bytes.
pub const DW_EH_PE_udata2: DwEhPe = DwEhPe(0x02);
/// An unsigned number of four bytes.
pub const DW_EH_PE_udata4: DwEhPe = DwEhPe(0x03);
/// An unsigned number of eight bytes.
pub const DW_EH_PE_udata8: DwEhPe = DwEhPe(0x04);
/// A signed LEB128 number.
pub const DW_EH_PE_sleb128: DwEhPe = DwEhPe(0x09);
/// A signed number of two bytes.
pub const DW_EH_PE_sdata2: DwEhPe = DwEhPe(0x0a);
/// A signed number of four bytes.
pub const DW_EH_PE_sdata4: DwEhPe = DwEhPe(0x0b);
/// A signed number of eight bytes.
pub const DW_EH_PE_sdata8: DwEhPe = DwEhPe(0x0c);

// The ways to apply the number: bits 4 to 6.

/// Relative to the place of the number.
pub const DW_EH_PE_pcrel: DwEhPe = DwEhPe(0x10);
/// Relative to the code.
pub const DW_EH_PE_textrel: DwEhPe = DwEhPe(0x20);
/// Relative to the data.
pub const DW_EH_PE_datarel: DwEhPe = DwEhPe(0x30);
/// Relative to the start of the function.
pub const DW_EH_PE_funcrel: DwEhPe = DwEhPe(0x40);
/// An address, after bytes that align it.
pub const DW_EH_PE_aligned: DwEhPe = DwEhPe(0x50);

// Bit 7.

/// The number is the address of the pointer.
pub const DW_EH_PE_indirect: DwEhPe = DwEhPe(0x80);

// Whole values.

/// An address as it is: no bit is set.
pub const DW_EH_PE_absptr: DwEhPe = DwEhPe(0x00);
/// There is no pointer.
pub const DW_EH_PE_omit: DwEhPe = DwEhPe(0xff);

// tools/constants writes this list from the declarations.
#[rattlefmt::skip]
const NAMES: Names = names![
    DW_EH_PE_absptr, DW_EH_PE_uleb128, DW_EH_PE_udata2, DW_EH_PE_udata4, DW_EH_PE_udata8,
    DW_EH_PE_sleb128, DW_EH_PE_sdata2, DW_EH_PE_sdata4, DW_EH_PE_sdata8, DW_EH_PE_pcrel,
    DW_EH_PE_textrel, DW_EH_PE_datarel, DW_EH_PE_funcrel, DW_EH_PE_aligned, DW_EH_PE_indirect,
    DW_EH_PE_omit,
];

impl DwEhPe {
    /// Returns the name of this value, such as `DW_EH_PE_uleb128`, or `None` if it has none.
    #[tactic(auto, unfolding(crate::specs::DwEhPe::pointer_encoding_names))]
    pub fn static_string(&self) -> Option<&'static str>
        ensures { option_map (λ s. s.now) result ≡ name_of pointer_encoding_names self.now.0 }
    {
        NAMES.find(self.0 as u64)
    }
}

impl fmt::Display for DwEhPe {
    ghost output = { λ pointer_encoding. Some (pointer_encoding_text pointer_encoding.0) };

    ghost styled_output = { λ pointer_encoding spec. Some (padded spec (pointer_encoding_text pointer_encoding.0)) };

    fn fmt<W: fmt::Write>(&self, f: &mut fmt::Formatter<W>) -> fmt::Result {
        pad_name(f, self.static_string(), "DwEhPe", self.0 as u64)
    }
}

const DW_EH_PE_FORMAT_MASK: u8 = 0b0000_1111;

const DW_EH_PE_APPLICATION_MASK: u8 = 0b0111_0000;

/// A format and an application joined, bit by bit.
impl ops::BitOr for DwEhPe {
    type Output = DwEhPe;

    ghost bitor_gives = { λ left right either. either.0 ≡ bit_or left.0 right.0 };

    fn bitor(self, rhs: DwEhPe) -> DwEhPe {
        DwEhPe(self.0 | rhs.0)
    }
}

impl DwEhPe {
    /// Returns the format of the number alone: the low four bits, such as `DW_EH_PE_uleb128` for
    /// 0x11.
    pub fn format(self) -> DwEhPe
        ensures { result.0 ≡ self.0 % 16 }
    {
        DwEhPe(self.0 & DW_EH_PE_FORMAT_MASK)
    }

    /// Returns what the number is relative to: bits 4 to 6 in their place, such as `DW_EH_PE_pcrel`
    /// for 0x11.
    pub fn application(self) -> DwEhPe
        ensures { result.0 ≡ bit_and self.0 0x70 }
    {
        DwEhPe(self.0 & DW_EH_PE_APPLICATION_MASK)
    }

    /// Returns whether this is `DW_EH_PE_omit`: there is no pointer.
    pub fn is_absent(self) -> bool
        ensures { IsTrue result ↔ (self ≡ DW_EH_PE_omit) }
    {
        self == DW_EH_PE_omit
    }

    /// Returns whether bit 7 is set: the number is the address of the pointer. It is set in
    /// `DW_EH_PE_omit` too.
    pub fn is_indirect(self) -> bool
        ensures { IsTrue result ↔ IsBitSet self.0 7 }
    {
        self.0 & DW_EH_PE_indirect.0 != 0
    }

    /// Returns whether the value is an encoding: `DW_EH_PE_omit`, or else a format and an
    /// application that are among the constants above, with or without `DW_EH_PE_indirect`.
    pub fn is_valid_encoding(self) -> bool
        ensures { IsTrue result ↔ IsValidEncoding self.0 }
    {
        self.is_absent()
            || (is_known_format(self.format()) && is_known_application(self.application()))
    }
}

fn is_known_format(format: DwEhPe) -> bool
    ensures { result ≡ is_among formats format.0 }
{
    matches!(
        format,
        DW_EH_PE_absptr
            | DW_EH_PE_uleb128
            | DW_EH_PE_udata2
            | DW_EH_PE_udata4
            | DW_EH_PE_udata8
            | DW_EH_PE_sleb128
            | DW_EH_PE_sdata2
            | DW_EH_PE_sdata4
            | DW_EH_PE_sdata8
    )
}

fn is_known_application(application: DwEhPe) -> bool
    ensures { result ≡ is_among applications application.0 }
{
    matches!(
        application,
        DW_EH_PE_absptr
            | DW_EH_PE_pcrel
            | DW_EH_PE_textrel
            | DW_EH_PE_datarel
            | DW_EH_PE_funcrel
            | DW_EH_PE_aligned
    )
}

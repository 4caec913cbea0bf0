//! The names of constants, by the number of their family.

ghost use Rattle.std.specs.Prelude.{◌≡◌, ◌≢◌, ◌<◌, ◌^◌, nat_lt, option_map, Some, None, if◌then◌else◌};
ghost use Rattle.dwarf_read_c.specs.Families.{name_in};

use dwarf_read_core::{
    DwAccess, DwAddr, DwAt, DwAte, DwCc, DwCfa, DwChildren, DwDefaulted, DwDs, DwDsc, DwEhPe,
    DwEnd, DwForm, DwId, DwIdx, DwInl, DwLang, DwLle, DwLnct, DwLne, DwLns, DwMacinfo, DwMacro,
    DwOp, DwOrd, DwRle, DwSect, DwSectV2, DwTag, DwUt, DwVirtuality, DwVis, GdbIndexSymbolKind,
};

// Returns the name of a value of a family, if there is a family with this number. A value that the
// type of the family can't hold has no name.
#[tactic(auto, unfolding(crate::specs::Families::families))]
pub(crate) fn name_in(family: u32, value: u64) -> Option<&'static str>
    ensures { option_map (λ s. s.now) result ≡ name_in family value }
{
    match family {
        0..=6 => half_name(family, half_of(value)?),
        8 => DwAddr(value).static_string(),
        28 => DwSect(word_of(value)?).static_string(),
        29 => DwSectV2(word_of(value)?).static_string(),
        _ => byte_name(family, byte_of(value)?),
    }
}

// The same for the families whose type has two bytes.
#[tactic(auto, unfolding(crate::specs::Families::families))]
fn half_name(family: u32, value: u16) -> Option<&'static str>
    requires { family < 7 }
    ensures { option_map (λ s. s.now) result ≡ name_in family value }
{
    match family {
        1 => DwTag(value).static_string(),
        2 => DwAt(value).static_string(),
        3 => DwForm(value).static_string(),
        4 => DwIdx(value).static_string(),
        5 => DwLang(value).static_string(),
        6 => DwLnct(value).static_string(),
        _ => None,
    }
}

// The same for those whose type has one byte.
#[tactic(auto, unfolding(crate::specs::Families::families))]
fn byte_name(family: u32, value: u8) -> Option<&'static str>
    requires halves { 6 < family }
    requires address_class { family ≢ 8 }
    requires section { family ≢ 28 }
    requires section_v2 { family ≢ 29 }
    ensures { option_map (λ s. s.now) result ≡ name_in family value }
{
    match family {
        7 => DwAccess(value).static_string(),
        9 => DwAte(value).static_string(),
        10 => DwCc(value).static_string(),
        11 => DwCfa(value).static_string(),
        12 => DwChildren(value).static_string(),
        13 => DwDefaulted(value).static_string(),
        14 => DwDs(value).static_string(),
        15 => DwDsc(value).static_string(),
        16 => DwEhPe(value).static_string(),
        17 => DwEnd(value).static_string(),
        18 => DwId(value).static_string(),
        19 => DwInl(value).static_string(),
        20 => DwLle(value).static_string(),
        21 => DwLne(value).static_string(),
        22 => DwLns(value).static_string(),
        23 => DwMacinfo(value).static_string(),
        24 => DwMacro(value).static_string(),
        25 => DwOp(value).static_string(),
        26 => DwOrd(value).static_string(),
        27 => DwRle(value).static_string(),
        30 => DwUt(value).static_string(),
        31 => DwVirtuality(value).static_string(),
        32 => DwVis(value).static_string(),
        33 => GdbIndexSymbolKind(value).static_string(),
        _ => None,
    }
}

fn byte_of(value: u64) -> Option<u8>
    ensures { result ≡ (if nat_lt value (2 ^ 8) then Some value else None) }
{
    u8::try_from(value).ok()
}

fn half_of(value: u64) -> Option<u16>
    ensures { result ≡ (if nat_lt value (2 ^ 16) then Some value else None) }
{
    u16::try_from(value).ok()
}

fn word_of(value: u64) -> Option<u32>
    ensures { result ≡ (if nat_lt value (2 ^ 32) then Some value else None) }
{
    u32::try_from(value).ok()
}

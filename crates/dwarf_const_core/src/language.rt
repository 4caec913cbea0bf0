//! Source languages.

ghost use Rattle.std.specs.Prelude.{◌≡◌, Some, option_map};
ghost use Rattle.std.specs.Fmt.{padded};
ghost use Rattle.dwarf_const_core.specs.Names.{name_of};
ghost use Rattle.dwarf_const_core.specs.DwLang.{default_lower_bound, language_names, language_text};

use crate::names::{Names, pad_name};
use std::fmt;

/// A source language (DWARF 5, section 7.12).
///
/// `Display` writes the name, or `Unknown DwLang: 4660` for a value without one, and honours width,
/// precision, fill and alignment.
#[derive(Debug, Clone, Copy, PartialEq, Eq, Hash, PartialOrd, Ord)]
pub struct DwLang(pub u16);

// DWARF 2.

/// ANSI C of 1989, which is ISO C of 1990.
pub const DW_LANG_C89: DwLang = DwLang(0x0001);
/// C of no stated version.
pub const DW_LANG_C: DwLang = DwLang(0x0002);
/// Ada 83.
pub const DW_LANG_Ada83: DwLang = DwLang(0x0003);
/// C++ of 1998.
pub const DW_LANG_C_plus_plus: DwLang = DwLang(0x0004);
/// COBOL of 1974.
pub const DW_LANG_Cobol74: DwLang = DwLang(0x0005);
/// COBOL of 1985.
pub const DW_LANG_Cobol85: DwLang = DwLang(0x0006);
/// FORTRAN 77.
pub const DW_LANG_Fortran77: DwLang = DwLang(0x0007);
/// Fortran 90.
pub const DW_LANG_Fortran90: DwLang = DwLang(0x0008);
/// Pascal of 1983.
pub const DW_LANG_Pascal83: DwLang = DwLang(0x0009);
/// Modula-2.
pub const DW_LANG_Modula2: DwLang = DwLang(0x000a);

// DWARF 3.

/// Java.
pub const DW_LANG_Java: DwLang = DwLang(0x000b);
/// ISO C of 1999.
pub const DW_LANG_C99: DwLang = DwLang(0x000c);
/// Ada 95.
pub const DW_LANG_Ada95: DwLang = DwLang(0x000d);
/// Fortran 95.
pub const DW_LANG_Fortran95: DwLang = DwLang(0x000e);
/// PL/I of 1976.
pub const DW_LANG_PLI: DwLang = DwLang(0x000f);
/// Objective-C.
pub const DW_LANG_ObjC: DwLang = DwLang(0x0010);
/// Objective-C++.
pub const DW_LANG_ObjC_plus_plus: DwLang = DwLang(0x0011);
/// Unified Parallel C.
pub const DW_LANG_UPC: DwLang = DwLang(0x0012);
/// D.
pub const DW_LANG_D: DwLang = DwLang(0x0013);

// DWARF 4.

/// Python.
pub const DW_LANG_Python: DwLang = DwLang(0x0014);

// DWARF 5.

/// OpenCL.
pub const DW_LANG_OpenCL: DwLang = DwLang(0x0015);
/// Go.
pub const DW_LANG_Go: DwLang = DwLang(0x0016);
/// Modula-3.
pub const DW_LANG_Modula3: DwLang = DwLang(0x0017);
/// Haskell.
pub const DW_LANG_Haskell: DwLang = DwLang(0x0018);
/// C++ of 2003.
pub const DW_LANG_C_plus_plus_03: DwLang = DwLang(0x0019);
/// C++ of 2011.
pub const DW_LANG_C_plus_plus_11: DwLang = DwLang(0x001a);
/// OCaml.
pub const DW_LANG_OCaml: DwLang = DwLang(0x001b);
/// Rust.
pub const DW_LANG_Rust: DwLang = DwLang(0x001c);
/// ISO C of 2011.
pub const DW_LANG_C11: DwLang = DwLang(0x001d);
/// Swift.
pub const DW_LANG_Swift: DwLang = DwLang(0x001e);
/// Julia.
pub const DW_LANG_Julia: DwLang = DwLang(0x001f);
/// Dylan.
pub const DW_LANG_Dylan: DwLang = DwLang(0x0020);
/// C++ of 2014.
pub const DW_LANG_C_plus_plus_14: DwLang = DwLang(0x0021);
/// Fortran 2003.
pub const DW_LANG_Fortran03: DwLang = DwLang(0x0022);
/// Fortran 2008.
pub const DW_LANG_Fortran08: DwLang = DwLang(0x0023);
/// RenderScript's kernel language.
pub const DW_LANG_RenderScript: DwLang = DwLang(0x0024);
/// BLISS.
pub const DW_LANG_BLISS: DwLang = DwLang(0x0025);

// Assigned by the DWARF committee after DWARF 5 was published.

/// Kotlin.
pub const DW_LANG_Kotlin: DwLang = DwLang(0x0026);
/// Zig.
pub const DW_LANG_Zig: DwLang = DwLang(0x0027);
/// Crystal.
pub const DW_LANG_Crystal: DwLang = DwLang(0x0028);
/// C++ of 2017.
pub const DW_LANG_C_plus_plus_17: DwLang = DwLang(0x002a);
/// C++ of 2020.
pub const DW_LANG_C_plus_plus_20: DwLang = DwLang(0x002b);
/// ISO C of 2017, a correction of C11.
pub const DW_LANG_C17: DwLang = DwLang(0x002c);
/// Fortran 2018.
pub const DW_LANG_Fortran18: DwLang = DwLang(0x002d);
/// Ada 2005.
pub const DW_LANG_Ada2005: DwLang = DwLang(0x002e);
/// Ada 2012.
pub const DW_LANG_Ada2012: DwLang = DwLang(0x002f);

// The values that vendors may use.

/// The first value open to vendors.
pub const DW_LANG_lo_user: DwLang = DwLang(0x8000);
/// The last value open to vendors.
pub const DW_LANG_hi_user: DwLang = DwLang(0xffff);

// Vendors.

/// Assembly language, by SGI and MIPS.
pub const DW_LANG_Mips_Assembler: DwLang = DwLang(0x8001);
/// RenderScript, before DWARF 5 had a value for it.
pub const DW_LANG_GOOGLE_RenderScript: DwLang = DwLang(0x8e57);
/// Assembly language, by Sun.
pub const DW_LANG_SUN_Assembler: DwLang = DwLang(0x9001);
/// Assembly language, by Altium.
pub const DW_LANG_ALTIUM_Assembler: DwLang = DwLang(0x9101);
/// Delphi, by Borland.
pub const DW_LANG_BORLAND_Delphi: DwLang = DwLang(0xb000);

// tools/constants writes this list from the declarations.
#[rattlefmt::skip]
const NAMES: Names = names![
    DW_LANG_C89, DW_LANG_C, DW_LANG_Ada83, DW_LANG_C_plus_plus, DW_LANG_Cobol74, DW_LANG_Cobol85,
    DW_LANG_Fortran77, DW_LANG_Fortran90, DW_LANG_Pascal83, DW_LANG_Modula2, DW_LANG_Java,
    DW_LANG_C99, DW_LANG_Ada95, DW_LANG_Fortran95, DW_LANG_PLI, DW_LANG_ObjC,
    DW_LANG_ObjC_plus_plus, DW_LANG_UPC, DW_LANG_D, DW_LANG_Python, DW_LANG_OpenCL, DW_LANG_Go,
    DW_LANG_Modula3, DW_LANG_Haskell, DW_LANG_C_plus_plus_03, DW_LANG_C_plus_plus_11, DW_LANG_OCaml,
    DW_LANG_Rust, DW_LANG_C11, DW_LANG_Swift, DW_LANG_Julia, DW_LANG_Dylan, DW_LANG_C_plus_plus_14,
    DW_LANG_Fortran03, DW_LANG_Fortran08, DW_LANG_RenderScript, DW_LANG_BLISS, DW_LANG_Kotlin,
    DW_LANG_Zig, DW_LANG_Crystal, DW_LANG_C_plus_plus_17, DW_LANG_C_plus_plus_20, DW_LANG_C17,
    DW_LANG_Fortran18, DW_LANG_Ada2005, DW_LANG_Ada2012, DW_LANG_lo_user, DW_LANG_Mips_Assembler,
    DW_LANG_GOOGLE_RenderScript, DW_LANG_SUN_Assembler, DW_LANG_ALTIUM_Assembler,
    DW_LANG_BORLAND_Delphi, DW_LANG_hi_user,
];

impl DwLang {
    /// Returns the name of this value, such as `DW_LANG_C89`, or `None` if it has none.
    #[tactic(auto, unfolding(crate::specs::DwLang::language_names))]
    pub fn static_string(&self) -> Option<&'static str>
        ensures { option_map (λ s. s.now) result ≡ name_of language_names self.now.0 }
    {
        NAMES.find(self.0 as u64)
    }

    /// Returns the least index of an array in this language if a declaration doesn't say it: 0 or
    /// 1, or `None` for a language that has no such default here (DWARF 5, section 7.12, table
    /// 7.17).
    pub fn default_lower_bound(self) -> Option<usize>
        ensures { result ≡ default_lower_bound self.0 }
    {
        match self {
            DW_LANG_C89
            | DW_LANG_C
            | DW_LANG_C_plus_plus
            | DW_LANG_Java
            | DW_LANG_C99
            | DW_LANG_ObjC
            | DW_LANG_ObjC_plus_plus
            | DW_LANG_UPC
            | DW_LANG_D
            | DW_LANG_Python
            | DW_LANG_OpenCL
            | DW_LANG_Go
            | DW_LANG_Haskell
            | DW_LANG_C_plus_plus_03
            | DW_LANG_C_plus_plus_11
            | DW_LANG_OCaml
            | DW_LANG_Rust
            | DW_LANG_C11
            | DW_LANG_Swift
            | DW_LANG_Dylan
            | DW_LANG_C_plus_plus_14
            | DW_LANG_RenderScript
            | DW_LANG_BLISS => Some(0),
            DW_LANG_Ada83
            | DW_LANG_Cobol74
            | DW_LANG_Cobol85
            | DW_LANG_Fortran77
            | DW_LANG_Fortran90
            | DW_LANG_Pascal83
            | DW_LANG_Modula2
            | DW_LANG_Ada95
            | DW_LANG_Fortran95
            | DW_LANG_PLI
            | DW_LANG_Modula3
            | DW_LANG_Julia
            | DW_LANG_Fortran03
            | DW_LANG_Fortran08 => Some(1),
            _ => None,
        }
    }
}

impl fmt::Display for DwLang {
    ghost output = { λ language. Some (language_text language.0) };

    ghost styled_output = { λ language spec. Some (padded spec (language_text language.0)) };

    fn fmt<W: fmt::Write>(&self, f: &mut fmt::Formatter<W>) -> fmt::Result {
        pad_name(f, self.static_string(), "DwLang", self.0 as u64)
    }
}

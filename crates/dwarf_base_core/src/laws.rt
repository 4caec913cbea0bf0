//! Laws of the definitions that the contracts cite, each a clause of a function that does nothing.

ghost use Rattle.dwarf_base_core.specs.Number.{NumberIsBounded, NumberDeterminesBytes};
ghost use Rattle.dwarf_base_core.specs.Section.{NamesAreDistinct};

/// The number of n bytes, in either order, is below 256^n and determines the bytes. So a contract
/// that states the number of written bytes determines them.
pub fn numbers_of_bytes()
    ensures bounded { NumberIsBounded }
    ensures determined { NumberDeterminesBytes }
{}

/// No two sections have the same name.
pub fn names_of_sections()
    ensures { NamesAreDistinct }
{}

//! Laws of entries, which follow from the definitions alone.

ghost use Rattle.std.specs.Prelude.{◌≡◌, ℕ, ℤ, negsuc, List, [], ◌∷◌, Some, None, Ok, Err, true, false};
ghost use Rattle.std.specs.FinMap as finite;
ghost use Rattle.dwarf_read_core.specs.declared.Encoding.{Encoding};
ghost use Rattle.dwarf_read_core.specs.declared.Error.TheVariants.{InvalidAbbreviationCode, InvalidImplicitConst, UnknownForm};
ghost use Rattle.dwarf_read_core.specs.Grammar.{Declaration, Specification, Table};
ghost use Rattle.dwarf_read_core.specs.Input.{Input, section_of};
ghost use Rattle.dwarf_read_core.specs.Once.{HasOne};
ghost use Rattle.dwarf_read_core.specs.Readings.{IsRead};
ghost use Rattle.dwarf_entry_core.specs.Entries.{AreEntries, AttributeRead, AttributesRead, EntryRead};
ghost use Rattle.dwarf_entry_core.specs.Rows.{IsValue, five, long, part, two};
ghost use Rattle.dwarf_entry_core.specs.Seen.{SeenAttribute};
ghost use Rattle.dwarf_entry_core.specs.Skipped.{AttributesSkipped};
ghost use Rattle.dwarf_entry_core.specs.Values.{ValueRead};
ghost use Rattle.dwarf_entry_core.specs.declared.value.AttributeValue.TheVariants.{Addr, Block, Data1, Data2, Data4, Data8, Data16, Sdata, Udata, Exprloc, Flag, SecOffset, UnitRef, DebugInfoRef, DebugInfoRefSup, DebugTypesRef, DebugStrRef, DebugStrRefSup, DebugLineStrRef, DebugStrOffsetsIndex, DebugAddrIndex, DebugLocListsIndex, DebugRngListsIndex, String};

/// The next bytes decide an attribute, the attributes of an entry, and an entry: each input has
/// exactly one result, and where bytes are missing, the error has the position at which it stops.
/// They decide what is skipped in place of attributes, too.
pub fn exactly_one_entry()
    ensures attribute { (greatest : ℕ) (e : Encoding) (s : Specification)
        → IsRead (AttributeRead greatest e s) }
    ensures attributes { (greatest : ℕ) (e : Encoding) (specs : List Specification)
        → IsRead (AttributesRead greatest e specs) }
    ensures skipped { (greatest : ℕ) (e : Encoding) (specs : List Specification)
        → IsRead (AttributesSkipped greatest e specs) }
    ensures entry { (greatest : ℕ) (e : Encoding) (table : Table)
        → IsRead (EntryRead greatest e table) }
{}

/// The bytes of a unit have exactly one list of entries, up to their end or up to one error.
pub fn exactly_one_list_of_entries()
    ensures { (greatest : ℕ) (e : Encoding) (table : Table) (old : Input)
        → HasOne (AreEntries greatest e table old) }
{}

/// Where attributes are read, skipping them leaves the same bytes.
pub fn skipping_leaves_what_reading_leaves()
    ensures { (greatest : ℕ) (e : Encoding) (specs : List Specification) (old new : Input)
        (xs : List SeenAttribute) → AttributesRead greatest e specs old (Ok xs, new)
        → AttributesSkipped greatest e specs old (Ok tt, new) }
{}

/// Values by their bytes, of each form: in a unit of version 5 (`five`), and where the unit decides,
/// in one of the 64-bit format (`long`) or of version 2 (`two`). In an offset or a number 1 and 2 are
/// the lowest bytes of 513, and as a LEB128 number 129 and 1 are 129.
pub fn values_by_their_bytes()
    ensures addresses { IsValue five 0x01 (1 ∷ 2 ∷ 0 ∷ 0 ∷ 0 ∷ 0 ∷ 0 ∷ 0 ∷ []) (Addr 513)
        × IsValue two 0x01 (1 ∷ 2 ∷ []) (Addr 513) }
    ensures blocks { IsValue five 0x0a (2 ∷ 7 ∷ 8 ∷ []) (Block (part 1 (7 ∷ 8 ∷ [])))
        × IsValue five 0x03 (2 ∷ 0 ∷ 7 ∷ 8 ∷ []) (Block (part 2 (7 ∷ 8 ∷ [])))
        × IsValue five 0x04 (2 ∷ 0 ∷ 0 ∷ 0 ∷ 7 ∷ 8 ∷ []) (Block (part 4 (7 ∷ 8 ∷ [])))
        × IsValue five 0x09 (130 ∷ 0 ∷ 7 ∷ 8 ∷ []) (Block (part 2 (7 ∷ 8 ∷ [])))
        × IsValue five 0x18 (2 ∷ 7 ∷ 8 ∷ []) (Exprloc (part 1 (7 ∷ 8 ∷ []))) }
    ensures constants { IsValue five 0x0b (7 ∷ []) (Data1 7)
        × IsValue five 0x05 (1 ∷ 2 ∷ []) (Data2 513)
        × IsValue five 0x06 (1 ∷ 2 ∷ 0 ∷ 0 ∷ []) (Data4 513)
        × IsValue five 0x07 (1 ∷ 2 ∷ 0 ∷ 0 ∷ 0 ∷ 0 ∷ 0 ∷ 0 ∷ []) (Data8 513)
        × IsValue five 0x1e
        (1 ∷ 2 ∷ 0 ∷ 0 ∷ 0 ∷ 0 ∷ 0 ∷ 0 ∷ 0 ∷ 0 ∷ 0 ∷ 0 ∷ 0 ∷ 0 ∷ 0 ∷ 0 ∷ []) (Data16 513)
        × IsValue five 0x0d (127 ∷ []) (Sdata (negsuc 0))
        × IsValue five 0x0f (129 ∷ 1 ∷ []) (Udata 129) }
    ensures flags { IsValue five 0x0c (0 ∷ []) (Flag false)
        × IsValue five 0x0c (2 ∷ []) (Flag true)
        × IsValue five 0x19 [] (Flag true) }
    ensures offsets { IsValue five 0x17 (1 ∷ 2 ∷ 0 ∷ 0 ∷ []) (SecOffset 513)
        × IsValue long 0x17 (1 ∷ 2 ∷ 0 ∷ 0 ∷ 0 ∷ 0 ∷ 0 ∷ 0 ∷ []) (SecOffset 513)
        × IsValue five 0x0e (1 ∷ 2 ∷ 0 ∷ 0 ∷ []) (DebugStrRef (record { 0 = 513 }))
        × IsValue long 0x0e (1 ∷ 2 ∷ 0 ∷ 0 ∷ 0 ∷ 0 ∷ 0 ∷ 0 ∷ []) (DebugStrRef
        (record { 0 = 513 }))
        × IsValue five 0x1d (1 ∷ 2 ∷ 0 ∷ 0 ∷ []) (DebugStrRefSup (record { 0 = 513 }))
        × IsValue five 0x1f (1 ∷ 2 ∷ 0 ∷ 0 ∷ []) (DebugLineStrRef (record { 0 = 513 }))
        × IsValue five 0x1f21 (1 ∷ 2 ∷ 0 ∷ 0 ∷ []) (DebugStrRefSup (record { 0 = 513 })) }
    ensures references { IsValue five 0x11 (7 ∷ []) (UnitRef (record { 0 = 7 }))
        × IsValue five 0x12 (1 ∷ 2 ∷ []) (UnitRef (record { 0 = 513 }))
        × IsValue five 0x13 (1 ∷ 2 ∷ 0 ∷ 0 ∷ []) (UnitRef (record { 0 = 513 }))
        × IsValue five 0x14 (1 ∷ 2 ∷ 0 ∷ 0 ∷ 0 ∷ 0 ∷ 0 ∷ 0 ∷ []) (UnitRef (record { 0 = 513 }))
        × IsValue five 0x15 (129 ∷ 1 ∷ []) (UnitRef (record { 0 = 129 }))
        × IsValue two 0x10 (1 ∷ 2 ∷ []) (DebugInfoRef (record { 0 = 513 }))
        × IsValue five 0x10 (1 ∷ 2 ∷ 0 ∷ 0 ∷ []) (DebugInfoRef (record { 0 = 513 }))
        × IsValue long 0x10 (1 ∷ 2 ∷ 0 ∷ 0 ∷ 0 ∷ 0 ∷ 0 ∷ 0 ∷ []) (DebugInfoRef
        (record { 0 = 513 }))
        × IsValue long 0x1c (1 ∷ 2 ∷ 0 ∷ 0 ∷ []) (DebugInfoRefSup (record { 0 = 513 }))
        × IsValue five 0x24 (1 ∷ 2 ∷ 0 ∷ 0 ∷ 0 ∷ 0 ∷ 0 ∷ 0 ∷ []) (DebugInfoRefSup
        (record { 0 = 513 }))
        × IsValue five 0x1f20 (1 ∷ 2 ∷ 0 ∷ 0 ∷ []) (DebugInfoRefSup (record { 0 = 513 }))
        × IsValue long 0x1f20 (1 ∷ 2 ∷ 0 ∷ 0 ∷ 0 ∷ 0 ∷ 0 ∷ 0 ∷ []) (DebugInfoRefSup
        (record { 0 = 513 }))
        × IsValue five 0x20 (1 ∷ 2 ∷ 0 ∷ 0 ∷ 0 ∷ 0 ∷ 0 ∷ 0 ∷ []) (DebugTypesRef
        (record { 0 = 513 })) }
    ensures indexes { IsValue five 0x1a (129 ∷ 1 ∷ []) (DebugStrOffsetsIndex (record { 0 = 129 }))
        × IsValue five 0x25 (7 ∷ []) (DebugStrOffsetsIndex (record { 0 = 7 }))
        × IsValue five 0x26 (1 ∷ 2 ∷ []) (DebugStrOffsetsIndex (record { 0 = 513 }))
        × IsValue five 0x27 (1 ∷ 2 ∷ 0 ∷ []) (DebugStrOffsetsIndex (record { 0 = 513 }))
        × IsValue five 0x28 (1 ∷ 2 ∷ 0 ∷ 0 ∷ []) (DebugStrOffsetsIndex (record { 0 = 513 }))
        × IsValue five 0x1f02 (129 ∷ 1 ∷ []) (DebugStrOffsetsIndex (record { 0 = 129 }))
        × IsValue five 0x1b (129 ∷ 1 ∷ []) (DebugAddrIndex (record { 0 = 129 }))
        × IsValue five 0x29 (7 ∷ []) (DebugAddrIndex (record { 0 = 7 }))
        × IsValue five 0x2a (1 ∷ 2 ∷ []) (DebugAddrIndex (record { 0 = 513 }))
        × IsValue five 0x2b (1 ∷ 2 ∷ 0 ∷ []) (DebugAddrIndex (record { 0 = 513 }))
        × IsValue five 0x2c (1 ∷ 2 ∷ 0 ∷ 0 ∷ []) (DebugAddrIndex (record { 0 = 513 }))
        × IsValue five 0x1f01 (129 ∷ 1 ∷ []) (DebugAddrIndex (record { 0 = 129 }))
        × IsValue five 0x22 (129 ∷ 1 ∷ []) (DebugLocListsIndex (record { 0 = 129 }))
        × IsValue five 0x23 (129 ∷ 1 ∷ []) (DebugRngListsIndex (record { 0 = 129 })) }
    ensures strings { IsValue five 0x08 (97 ∷ 98 ∷ 0 ∷ []) (String (part 0 (97 ∷ 98 ∷ []))) }
{}

/// Values whose form or constant the specification alone doesn't say: a constant of the abbreviation,
/// a form that the entry has, and forms that are no form of a value.
pub fn forms_by_their_bytes()
    ensures constant { (greatest : ℕ) (e : Encoding) (x : ℤ) (old : Input)
        → let s : Specification = record { name = 3; form = 0x21; value = Some x } in
        ValueRead greatest e s old (Ok (0x21, Sdata x), old) }
    ensures indirect { (greatest : ℕ) (e : Encoding) (bytes : List ℕ)
        → let s : Specification = record { name = 3; form = 0x16; value = None } in
        ValueRead greatest e s (section_of (0x16 ∷ 0x0b ∷ 7 ∷ bytes) false)
        (Ok (0x0b, Data1 7), part 3 bytes) }
    ensures no_constant { (greatest : ℕ) (e : Encoding) (bytes : List ℕ)
        → let s : Specification = record { name = 3; form = 0x16; value = None } in
        ValueRead greatest e s (section_of (0x21 ∷ bytes) false)
        (Err InvalidImplicitConst, part 1 bytes) }
    ensures unknown { (greatest : ℕ) (e : Encoding) (old : Input)
        → let s : Specification = record { name = 3; form = 0x02; value = None } in
        ValueRead greatest e s old (Err (UnknownForm (record { 0 = 2 })), old) }
{}

/// Entries by their bytes: a null entry, one with a constant and a flag, and a code that the table
/// doesn't have.
pub fn entries_by_their_bytes()
    ensures null { (greatest : ℕ) (e : Encoding) (table : Table) (bytes : List ℕ)
        → EntryRead greatest e table (section_of (0 ∷ bytes) false) (Ok None, part 1 bytes) }
    ensures entry { (greatest : ℕ) (e : Encoding) (table : Table) (d : Declaration)
        → finite.get table.by_code 2 ≡ Some d
        → d.attributes ≡ record { name = 0x1c; form = 0x0b; value = None }
        ∷ record { name = 0x3f; form = 0x19; value = None } ∷ []
        → (bytes : List ℕ) → EntryRead greatest e table (section_of (2 ∷ 7 ∷ bytes) false) (
          Ok (Some (
            d,
            record { name = record { 0 = 0x1c }; form = record { 0 = 0x0b }; value = Data1 7 }
                ∷ record { name = record { 0 = 0x3f }; form = record { 0 = 0x19 }; value = Flag true }
                ∷ [],
          )),
          part 2 bytes,
        ) }
    ensures code { (greatest : ℕ) (e : Encoding) (table : Table) (bytes : List ℕ)
        → finite.get table.by_code 2 ≡ None
        → EntryRead greatest e table (section_of (2 ∷ bytes) false)
        (Err (InvalidAbbreviationCode 2), part 1 bytes) }
{}

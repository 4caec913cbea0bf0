//! Laws over the definitions: each function has one as its contract, and does nothing.

ghost use Rattle.std.specs.Prelude.{◌≡◌, ◌≢◌, ◌↔◌, ◌+◌, ◌-◌, ◌*◌, ◌/◌, Bool, true, false, IsTrue, IsSome, Option, Some, None, ℕ, ◌<◌, ◌≤◌, List, [], ◌∷◌, ◌++◌, codes, map, length, slice_get, slice_index, count_by, All, IfErr, IfSome, Ok, Err, Result, is_err, is_ok, replicate};
ghost use Rattle.std.specs.FinMap as finite;
ghost use Rattle.std.specs.Iterator.{YieldsFirst, YieldsThen};
ghost use Rattle.std.specs.List.{filter_map, sum_by};
ghost use Rattle.std.specs.Result.{result_ok};
ghost use Rattle.dwarf_base_core.specs.declared.error.Error.{Error};
ghost use Rattle.dwarf_code_core.specs.DwChildren.{children_names};
ghost use Rattle.dwarf_const_core.specs.DwForm.{form_names};
ghost use Rattle.dwarf_const_core.specs.Names.{name_of};
ghost use Rattle.dwarf_reader_core.specs.Input.{Input, after, end_of, first};
ghost use Rattle.dwarf_base_core.specs.Format.{initial_length_size};
ghost use Rattle.dwarf_base_core.specs.Number.{number_of};
ghost use Rattle.dwarf_base_core.specs.declared.common.Format.{Format};
ghost use Rattle.dwarf_reader_core.specs.Faults.{IsCutIn, eof, is_number_size};
ghost use Rattle.dwarf_reader_core.specs.InitialLength.{HasLength};
ghost use Rattle.dwarf_reader_core.specs.Once.{HasOne};
ghost use Rattle.dwarf_reader_core.specs.Readings.{IsDecided, NumberRead, WordRead};
ghost use Rattle.dwarf_reader_core.specs.Appended.{followed_by, IsNotEof, IsShortestFront};
ghost use Rattle.dwarf_read_core.specs.Answer.{Answer, DeclarationsEndAt, IsFinal, IsStrictlyFinal, IsTableError, StrictAnswer, TableEndsAt, unterminated};
ghost use Rattle.dwarf_read_core.specs.Cache.{KeepsAnswers, NamesOffsets, least_count};
ghost use Rattle.dwarf_read_core.specs.declared.read.abbrev.cache.AbbreviationsCacheStrategy.{AbbreviationsCacheStrategy};
ghost use Rattle.dwarf_read_core.specs.declared.read.abbrev.cache.AbbreviationsCacheStrategy.TheVariants.{Duplicates, All as AllOffsets};
ghost use Rattle.dwarf_read_core.specs.Equality.{HasValueByForm, same_contribution, same_declaration};
ghost use Rattle.dwarf_read_core.specs.Grammar.{Declaration, Table, children_byte, implicit_const};
ghost use Rattle.dwarf_read_core.specs.Entries.{Entries, RepresentsAddresses, RepresentsStringOffsets};
ghost use Rattle.dwarf_reader_core.specs.Headers.{IsHeader};
ghost use Rattle.dwarf_read_core.specs.Items.{GivesFirst, StaysFirst};
ghost use Rattle.dwarf_read_core.specs.Lookups.{Stays};
ghost use Rattle.dwarf_read_core.specs.Ranges.{RangeAt};
ghost use Rattle.dwarf_read_core.specs.Contributions.{Remaining, Contribution, ContributionAtOffset, ContributionOf, ContributionRead, RepresentsContributions, contribution_size, followed_remaining};
ghost use Rattle.dwarf_read_core.specs.Strings.{StringAt};
ghost use Rattle.dwarf_read_core.specs.Words.{AddressAt, Slot, WordAt, distance, slot_offset};

use crate::read::{AddressSize, HeaderFields, NoFields, Reader};
pub use dwarf_base_core::laws::{names_of_sections, numbers_of_bytes};
pub use dwarf_code_core::laws::{names_are_distinct, negate_ra_state_is_window_save};
pub use dwarf_const_core::laws::names_are_distinct as names_of_two_bytes_are_distinct;
pub use dwarf_reader_core::laws::{
    bad_bytes_stay_bad, exactly_one_outcome, exactly_one_read, exactly_one_shortest,
    headers_of_sets_by_their_bytes, headers_of_sets_have_four_bytes, missing_bytes_of_headers,
    no_encoding_begins_another, promises_are_read, written_is_read,
};

/// Every section has exactly one result at every offset: a table, or the first error.
#[tactic(auto, using(crate::proofs::tables::ExactlyOneAnswer::answer_exactly_one))]
pub fn exactly_one_answer()
    ensures { (section : Input) (offset : ℕ) → HasOne (Answer section offset) }
{}

/// In place of a table a section has one of these errors: bytes are missing, a number is malformed,
/// a tag, a name or a form is 0, the byte for children is above 1, or a code is repeated.
#[tactic(auto, using(crate::proofs::tables::TableErrors::table_error))]
pub fn errors_of_tables()
    ensures { (section : Input) (offset : ℕ) (e : Error) → Answer section offset (Err e)
        → IsTableError e }
{}

/// Every section has exactly one strict result at every offset. Some appended bytes, all of them
/// zero, change it exactly if it depends on where the section ends.
pub fn exactly_one_strict_answer()
    ensures one { (section : Input) (offset : ℕ) → HasOne (StrictAnswer section offset) }
    ensures stable { (section : Input) (more : List ℕ) (offset : ℕ) (answer : Result Table Error)
        → StrictAnswer section offset answer → IsStrictlyFinal answer
        → StrictAnswer (followed_by section more) offset answer }
    ensures changed { (section : Input) (offset : ℕ) (answer : Result Table Error)
        → StrictAnswer section offset answer → (IsStrictlyFinal answer → ⊥)
        → (count : ℕ)
        × (StrictAnswer (followed_by section (replicate count 0)) offset answer → ⊥) }
{}

/// Some appended bytes, all of them zero, change a result exactly if it depends on where the section
/// ends.
pub fn appended_bytes_change_nothing()
    ensures stable { (section : Input) (more : List ℕ) (offset : ℕ) (answer : Result Table Error)
        → Answer section offset answer → IsFinal answer
        → Answer (followed_by section more) offset answer }
    ensures changed { (section : Input) (offset : ℕ) (answer : Result Table Error)
        → Answer section offset answer → (IsFinal answer → ⊥)
        → (count : ℕ) × (Answer (followed_by section (replicate count 0)) offset answer → ⊥) }
{}

/// Tables have no byte order: a section has the same result in either one.
#[tactic(auto, using(crate::proofs::tables::ByteOrders::answer_in_either_order))]
pub fn tables_have_no_byte_order()
    ensures { (section : Input) (is_big : Bool) (offset : ℕ) (answer : Result Table Error)
        → Answer section offset answer
        → Answer (record section { is_big = is_big }) offset answer }
{}

/// A table at an offset ends at exactly one offset. Appended bytes don't change where a table ends
/// that a code of value 0 closes. A table that begins before the section's end takes at least one
/// byte, so a walk from table to table ends. The end of a table is that of the shortest front of
/// the section with the same table.
#[tactic(auto, using(crate::proofs::tables::TableEnds::ends))]
pub fn exactly_one_end()
    ensures one { (section : Input) (offset : ℕ) (t : Table) → Answer section offset (Ok t)
        → HasOne (TableEndsAt section offset t) }
    ensures stable { (section : Input) (more : List ℕ) (offset end : ℕ) (t : Table)
        → Answer section offset (Ok t) → IsFinal (Ok t) → TableEndsAt section offset t end
        → TableEndsAt (followed_by section more) offset t end }
    ensures after { (section : Input) (offset end : ℕ) (t : Table) → offset < length section.bytes
        → TableEndsAt section offset t end → offset < end }
    ensures front { (section : Input) (offset end : ℕ) (t : Table) → Answer section offset (Ok t)
        → TableEndsAt section offset t end
        ↔ IsShortestFront (λ front. Answer front offset (Ok t)) section end }
{}

/// The declarations at an offset before the first that can't follow are the same for everybody, and
/// end at one offset. The section that is cut there has their table. Where the section has an error,
/// it has another declaration there, which begins before the section's end.
pub fn declarations_end_at_one_offset()
    ensures one { (section : Input) (offset end other : ℕ) (t u : Table)
        → DeclarationsEndAt section offset t end → DeclarationsEndAt section offset u other
        → (u ≡ t) × (other ≡ end) }
    ensures front { (section : Input) (offset end : ℕ) (t : Table)
        → offset ≤ length section.bytes → DeclarationsEndAt section offset t end
        → Answer (first end section) offset (Ok t) }
    ensures error { (section : Input) (offset end : ℕ) (t : Table)
        → offset ≤ length section.bytes → DeclarationsEndAt section offset t end
        → (e : Error) → Answer section offset (Err e) → end < length section.bytes }
{}

/// A strategy, a section and offsets determine what a cache keeps: at each offset its one result,
/// or nothing.
pub fn exactly_one_cache()
    ensures some { (least : ℕ) (section : Input) (offsets : List ℕ)
        → (kept : ℕ → Option (Result Table Error)) × KeepsAnswers least section offsets kept }
    ensures same { (least : ℕ) (section : Input) (offsets : List ℕ)
        (kept others : ℕ → Option (Result Table Error)) → KeepsAnswers least section offsets kept
        → KeepsAnswers least section offsets others → (key : ℕ) → others key ≡ kept key }
{}

/// `All` keeps each offset that occurs, and `Duplicates` each that occurs at least twice. Neither
/// keeps any other.
#[tactic(auto, using(crate::proofs::cache::CountingOffsets::strategies))]
pub fn strategies_count_offsets()
    ensures all { (section : Input) (before after : List ℕ) (key : ℕ)
        (kept : ℕ → Option (Result Table Error))
        → KeepsAnswers (least_count AllOffsets) section (before ++ key ∷ after) kept
        → IsSome (kept key) }
    ensures duplicates { (section : Input) (before between after : List ℕ) (key : ℕ)
        (kept : ℕ → Option (Result Table Error)) → KeepsAnswers (least_count Duplicates) section
        (before ++ key ∷ between ++ key ∷ after) kept → IsSome (kept key) }
    ensures duplicates_none { (section : Input) (before after : List ℕ) (key : ℕ)
        (kept : ℕ → Option (Result Table Error)) → All (λ offset. offset ≢ key) before
        → All (λ offset. offset ≢ key) after
        → KeepsAnswers (least_count Duplicates) section (before ++ key ∷ after) kept
        → kept key ≡ None }
    ensures never { (strategy : AbbreviationsCacheStrategy) (section : Input) (offsets : List ℕ)
        (key : ℕ) (kept : ℕ → Option (Result Table Error)) → All (λ offset. offset ≢ key) offsets
        → KeepsAnswers (least_count strategy) section offsets kept → kept key ≡ None }
{}

/// An iterator names exactly its offsets if it yields no error, and exactly those before its first
/// error if that isn't `OutOfMemory`. Otherwise it names none.
pub fn offsets_are_named_to_their_end()
    ensures named { (numbers offsets : List ℕ)
        → NamesOffsets (YieldsFirst (λ rest. rest)) (λ n. n) (map (λ n. Ok n) numbers) offsets
        ↔ (offsets ≡ numbers) }
    ensures until { (numbers offsets : List ℕ) (e : Error) (rest : List (Result ℕ Error))
        → NamesOffsets (YieldsFirst (λ rest. rest)) (λ n. n)
        (map (λ n. Ok n) numbers ++ Err e ∷ rest) offsets
        ↔ ((e ≢ Error.OutOfMemory) × (offsets ≡ numbers)) }
{}

/// The numbers in the grammar are those of the constants that have these names.
pub fn grammar_has_names()
    ensures without_children { name_of children_names (children_byte false)
        ≡ Some (codes "DW_CHILDREN_no") }
    ensures with_children { name_of children_names (children_byte true)
        ≡ Some (codes "DW_CHILDREN_yes") }
    ensures with_value { name_of form_names implicit_const
        ≡ Some (codes "DW_FORM_implicit_const") }
{}

/// Two abbreviations are equal exactly if they are the same declaration.
#[tactic(auto, using(crate::proofs::tables::EqualDeclarations::same_declaration_is_equality))]
pub fn equality_is_of_declarations()
    ensures { (a b : Declaration) → All HasValueByForm a.attributes
        → All HasValueByForm b.attributes → IsTrue (same_declaration a b) ↔ (a ≡ b) }
{}

/// The headers of two contributions are equal exactly if their offsets, lengths and formats are, and
/// what they say and their entries are by their own `==`.
#[tactic(auto, using(crate::proofs::contributions::EqualHeaders::same_contribution_is_equality))]
pub fn equality_is_of_contributions<R: Reader + PartialEq, H: HeaderFields<R> + Eq>()
    ensures { (a b : ContributionOf H R) → IsTrue (same_contribution H.eq R.eq a b)
        ↔ (a.offset ≡ b.offset) × (a.unit_length ≡ b.unit_length) × (a.format ≡ b.format)
        × IsTrue (H.eq a.header b.header) × IsTrue (R.eq a.entries b.entries) }
{}

/// No table has code 0, and each declaration is found by its own code.
#[tactic(auto, using(crate::proofs::tables::CodesOnce::code_is_key))]
pub fn codes_are_keys()
    ensures { (section : Input) (offset code : ℕ) (t : Table) (d : Declaration)
        → Answer section offset (Ok t) → finite.get t.by_code code ≡ Some d
        → (d.code ≡ code) × (0 < code) }
{}

/// Every section has exactly one result for a string at every offset, for a part at every offset
/// and of every size, and for a string offset and an address at every slot: a value, or an error.
pub fn exactly_one_lookup()
    ensures string { (section : Input) (offset : ℕ) → HasOne (StringAt section offset) }
    ensures range { (section : Input) (offset size : ℕ) → HasOne (RangeAt section offset size) }
    ensures word { (greatest : ℕ) (section : Input) (s : Slot)
        → HasOne (WordAt greatest section s) }
    ensures address { (greatest : ℕ) (section : Input) (s : Slot)
        → HasOne (AddressAt greatest section s) }
{}

/// The part of a section from its start on, of its length, is the section, and a part of a part is
/// a part, at the sum of their offsets. A string is the part of its length at its offset, and a
/// zero byte follows it. A string offset and an address are the number of the part at the place of
/// their slot.
pub fn lookups_are_parts()
    ensures whole { (section : Input) → RangeAt section 0 (length section.bytes) (Ok section) }
    ensures nested { (section part inner : Input) (offset size at n : ℕ)
        → RangeAt section offset size (Ok part) → RangeAt part at n (Ok inner)
        → RangeAt section (offset + at) n (Ok inner) }
    ensures string { (section : Input) (offset : ℕ) (string : Input)
        → StringAt section offset (Ok string)
        → RangeAt section offset (length string.bytes) (Ok string)
        × (slice_index section.bytes (offset + length string.bytes) ≡ 0) }
    ensures word { (greatest : ℕ) (section : Input) (s : Slot) (x : ℕ)
        → WordAt greatest section s (Ok x)
        → (part : Input) × RangeAt section (slot_offset s) s.width (Ok part)
        × (x ≡ number_of part.is_big part.bytes) }
    ensures address { (greatest : ℕ) (section : Input) (s : Slot) (x : ℕ)
        → AddressAt greatest section s (Ok x)
        → (part : Input) × RangeAt section (slot_offset s) s.width (Ok part)
        × (x ≡ number_of part.is_big part.bytes) }
{}

/// An `UnexpectedEof` in place of a table, a word or an address, and each error in place of a
/// string or a range, is that of the first consecutive part that isn't there whole, at the position
/// where the part begins. A table's parts are the bytes before its offset, those from there to the
/// section's end, and the byte that is missing; a string's are the bytes before its offset, and one
/// more than the section has; a range's are the bytes before its offset, and its own; those of a
/// word or an address are the bytes before its base, those from there to its slot, and the slot's.
/// An `UnterminatedAbbreviations` is at the section's end.
pub fn missing_bytes_are_those_of_a_field()
    ensures table { (section : Input) (offset position : ℕ)
        → Answer section offset (Err (eof position))
        → IsCutIn section (offset ∷ (length section.bytes - offset) ∷ 1 ∷ []) (eof position) }
    ensures strict { (section : Input) (offset position : ℕ)
        → StrictAnswer section offset (Err (unterminated position)) → position ≡ end_of section }
    ensures string { (section : Input) (offset : ℕ) (e : Error) → StringAt section offset (Err e)
        → IsCutIn section (offset ∷ (length section.bytes + 1) ∷ []) e }
    ensures range { (section : Input) (offset size : ℕ) (e : Error)
        → RangeAt section offset size (Err e) ↔ IsCutIn section (offset ∷ size ∷ []) e }
    ensures word { (greatest : ℕ) (section : Input) (s : Slot) (position : ℕ)
        → WordAt greatest section s (Err (eof position))
        → IsCutIn section (s.base ∷ distance s ∷ s.width ∷ []) (eof position) }
    ensures address { (greatest : ℕ) (section : Input) (s : Slot) (position : ℕ)
        → AddressAt greatest section s (Err (eof position))
        → IsCutIn section (s.base ∷ distance s ∷ s.width ∷ []) (eof position) }
{}

/// What can be judged without the bytes of a slot is judged first. So bytes are missing only if its
/// distance is an offset, and if the width of an address is a size of addresses.
pub fn slots_are_judged_before_their_bytes()
    ensures word { (greatest : ℕ) (section : Input) (s : Slot) (position : ℕ)
        → WordAt greatest section s (Err (eof position)) → s.base ≤ length section.bytes
        → distance s ≤ greatest }
    ensures address { (greatest : ℕ) (section : Input) (s : Slot) (position : ℕ)
        → AddressAt greatest section s (Err (eof position)) → s.base ≤ length section.bytes
        → distance s ≤ greatest }
    ensures width { (greatest : ℕ) (section : Input) (s : Slot) (position : ℕ)
        → AddressAt greatest section s (Err (eof position)) → slot_offset s ≤ length section.bytes
        → is_number_size s.width ≡ true }
{}

/// Appended bytes don't change the string at an offset, and some zero bytes change each error there.
pub fn appended_bytes_change_no_string()
    ensures stable { (section : Input) (offset : ℕ) (found : Input) (more : List ℕ)
        → StringAt section offset (Ok found)
        → StringAt (followed_by section more) offset (Ok found) }
    ensures changed { (section : Input) (offset : ℕ) (e : Error) → StringAt section offset (Err e)
        → (count : ℕ) × (StringAt (followed_by section (replicate count 0)) offset (Err e) → ⊥) }
{}

/// Appended bytes change neither the string offset at a slot nor its error, unless that is an
/// `UnexpectedEof`. Some zero bytes change each `UnexpectedEof`.
pub fn appended_bytes_change_no_word()
    ensures stable { (greatest : ℕ) (section : Input) (s : Slot) (answer : Result ℕ Error)
        (more : List ℕ)
        → WordAt greatest section s answer → IfErr answer IsNotEof
        → WordAt greatest (followed_by section more) s answer }
    ensures changed { (greatest : ℕ) (section : Input) (s : Slot) (answer : Result ℕ Error)
        → WordAt greatest section s answer → (IfErr answer IsNotEof → ⊥)
        → (count : ℕ)
        × (WordAt greatest (followed_by section (replicate count 0)) s answer → ⊥) }
{}

/// Appended bytes change neither the address at a slot nor its error, unless that is an
/// `UnexpectedEof`. Some zero bytes change each `UnexpectedEof`.
pub fn appended_bytes_change_no_address()
    ensures stable { (greatest : ℕ) (section : Input) (s : Slot) (answer : Result ℕ Error)
        (more : List ℕ)
        → AddressAt greatest section s answer → IfErr answer IsNotEof
        → AddressAt greatest (followed_by section more) s answer }
    ensures changed { (greatest : ℕ) (section : Input) (s : Slot) (answer : Result ℕ Error)
        → AddressAt greatest section s answer → (IfErr answer IsNotEof → ⊥)
        → (count : ℕ)
        × (AddressAt greatest (followed_by section (replicate count 0)) s answer → ⊥) }
{}

/// The bytes that remain of a section have exactly one list of contributions of each kind, and then
/// at most one error. So the list ends: a contribution has its initial length and as many bytes as
/// that says, and an error takes up at least one byte.
pub fn exactly_one_list_of_contributions<R: Reader, H: HeaderFields<R>>()
    ensures one { (greatest : ℕ) (remaining : Remaining)
        → HasOne (RepresentsContributions H.header greatest remaining) }
    ensures bound { (greatest : ℕ) (remaining : Remaining)
        (items : List (Result (Contribution H.Said) Error))
        → RepresentsContributions H.header greatest remaining items
        → sum_by contribution_size (filter_map result_ok items) + count_by is_err items
        ≤ length remaining.rest.bytes }
{
    H::law();
}

/// A set of addresses or of string offsets has at least eight bytes: four of its initial length, and
/// four of its header. So the bytes that remain are at least eight for each set of their list, and
/// one for an error.
pub fn sets_have_eight_bytes<R: Reader>()
    ensures address { (greatest offset : ℕ) (old new : Input) (s : Contribution ℕ)
        → ContributionRead ⟦<AddressSize as HeaderFields<R>>⟧.header greatest offset old (Ok s, new)
        → 8 ≤ contribution_size s }
    ensures string_offsets { (greatest offset : ℕ) (old new : Input) (s : Contribution (Unit {0}))
        → ContributionRead ⟦<NoFields as HeaderFields<R>>⟧.header greatest offset old (Ok s, new)
        → 8 ≤ contribution_size s }
    ensures address_list { (greatest : ℕ) (remaining : Remaining)
        (items : List (Result (Contribution ℕ) Error))
        → RepresentsContributions ⟦<AddressSize as HeaderFields<R>>⟧.header greatest remaining items
        → count_by is_ok items * 8 + count_by is_err items ≤ length remaining.rest.bytes }
    ensures string_offsets_list { (greatest : ℕ) (remaining : Remaining)
        (items : List (Result (Contribution (Unit {0})) Error))
        → RepresentsContributions ⟦<NoFields as HeaderFields<R>>⟧.header greatest remaining items
        → count_by is_ok items * 8 + count_by is_err items ≤ length remaining.rest.bytes }
{}

/// The next bytes decide a contribution of each kind: an input begins with exactly one, or with
/// exactly one error in place of it, and after either what follows some of the bytes remains.
/// Appended bytes change it only if bytes were missing.
pub fn exactly_one_contribution<R: Reader, H: HeaderFields<R>>()
    ensures { (greatest offset : ℕ) → IsDecided (ContributionRead H.header greatest offset) }
{
    H::law();
}

/// A section has exactly one result for a contribution of each kind at every offset: the
/// contribution, or an error.
pub fn exactly_one_contribution_at_an_offset<R: Reader, H: HeaderFields<R>>()
    ensures { (greatest : ℕ) (section : Input) (offset : ℕ)
        → HasOne (ContributionAtOffset H.header greatest section offset) }
{
    H::law();
}

/// The next bytes and a format decide a header of each kind: there is exactly one, or exactly one
/// error in place of it, and after either what follows some of the bytes remains. Appended bytes
/// change it only if bytes were missing, and then the position in the `UnexpectedEof` is that of
/// what remains.
pub fn exactly_one_header<R: Reader, H: HeaderFields<R>>()
    ensures { IsHeader H.header }
{
    H::law();
}

/// An `UnexpectedEof` in place of an entry is that of its bytes. The error in place of a contribution
/// that begins past the section's end, or that the end cuts, is that of the first part that isn't
/// there whole: the bytes before its offset, its initial length, and the bytes that this measures.
pub fn missing_bytes_of_contributions<R: Reader, H: HeaderFields<R>>()
    ensures address { (width : ℕ) (input new : Input) (position : ℕ)
        → NumberRead width input (Err (eof position), new)
        → IsCutIn input (width ∷ []) (eof position) }
    ensures string_offset { (greatest width : ℕ) (input new : Input) (position : ℕ)
        → WordRead greatest width input (Err (eof position), new)
        → IsCutIn input (width ∷ []) (eof position) }
    ensures outside { (greatest : ℕ) (section : Input) (offset : ℕ) (e : Error)
        → length section.bytes < offset
        → ContributionAtOffset H.header greatest section offset (Err e)
        → IsCutIn section (offset ∷ []) e }
    ensures cut { (greatest : ℕ) (section mid : Input) (offset n : ℕ) (format : Format) (e : Error)
        → offset ≤ length section.bytes
        → HasLength greatest (after offset section) format n mid → length mid.bytes < n
        → ContributionAtOffset H.header greatest section offset (Err e)
        → IsCutIn section (offset ∷ initial_length_size format ∷ n ∷ []) e }
{}

/// Each contribution of a list is where its offset says: the bytes there begin with it. Its entries
/// are the part of the section after its initial length and its header, up to its end.
pub fn contributions_are_at_their_offsets<R: Reader, H: HeaderFields<R>>()
    ensures { (greatest : ℕ) (remaining : Remaining)
        (items : List (Result (Contribution H.Said) Error)) (index : ℕ) (s : Contribution H.Said)
        → RepresentsContributions H.header greatest remaining items
        → slice_get items index ≡ Some (Ok s)
        → (far of_header of_entries : ℕ) × (s.offset ≡ remaining.offset + far)
        × ((new : Input)
        × ContributionRead H.header greatest s.offset (after far remaining.rest) (Ok s, new))
        × (s.unit_length ≡ of_header + of_entries) × RangeAt remaining.rest
        (far + initial_length_size s.format + of_header) of_entries (Ok s.entries) }
{
    H::law();
}

/// The entry of a set with an index is the number of the bytes at its place, or the error there. As
/// many entries are addresses as fit into the bytes.
pub fn entries_are_numbers()
    ensures address { (entries : Entries) (items : List (Result ℕ Error)) (index : ℕ)
        → RepresentsAddresses entries items → IfSome (slice_get items index)
        (λ r. (new : Input)
        × NumberRead entries.width (after (index * entries.width) entries.rest) (r, new)) }
    ensures string_offset { (greatest : ℕ) (entries : Entries) (items : List (Result ℕ Error))
        (index : ℕ)
        → RepresentsStringOffsets greatest entries items → IfSome (slice_get items index)
        (λ r. (new : Input)
        × WordRead greatest entries.width (after (index * entries.width) entries.rest) (r, new)) }
    ensures counted { (entries : Entries) (items : List (Result ℕ Error)) → 0 < entries.width
        → RepresentsAddresses entries items
        → count_by is_ok items ≡ length entries.rest.bytes / entries.width }
{}

/// The bytes that remain of a set have exactly one list of addresses, and then at most one error.
/// So the list ends: an address has as many bytes as its size, and an error takes up at least one
/// byte.
pub fn exactly_one_list_of_addresses()
    ensures one { (entries : Entries) → 0 < entries.width → HasOne (RepresentsAddresses entries) }
    ensures bound { (entries : Entries) (items : List (Result ℕ Error))
        → RepresentsAddresses entries items
        → count_by is_ok items * entries.width + count_by is_err items
        ≤ length entries.rest.bytes }
{}

/// The bytes that remain of a set have exactly one list of string offsets, and then at most one
/// error. So the list ends: an offset has as many bytes as a word, and an error takes up at least
/// one byte.
pub fn exactly_one_list_of_string_offsets()
    ensures one { (greatest : ℕ) (entries : Entries) → 0 < entries.width
        → HasOne (RepresentsStringOffsets greatest entries) }
    ensures bound { (greatest : ℕ) (entries : Entries) (items : List (Result ℕ Error))
        → RepresentsStringOffsets greatest entries items
        → count_by is_ok items * entries.width + count_by is_err items
        ≤ length entries.rest.bytes }
{}

/// The first contribution stays the first when bytes are appended. So does a first error, unless it
/// is an `UnexpectedEof`. The result for a contribution at an offset stays in the same way.
pub fn appended_bytes_change_no_contribution<R: Reader, H: HeaderFields<R>>()
    ensures contribution { (greatest : ℕ) (remaining : Remaining) (s : Contribution H.Said)
        (items others : List (Result (Contribution H.Said) Error)) (more : List ℕ)
        → RepresentsContributions H.header greatest remaining (Ok s ∷ items)
        → RepresentsContributions H.header greatest (followed_remaining more remaining) others
        → (rest : List (Result (Contribution H.Said) Error)) × (others ≡ Ok s ∷ rest) }
    ensures error { (greatest : ℕ) (remaining : Remaining) (e : Error) (more : List ℕ)
        → RepresentsContributions H.header greatest remaining (Err e ∷ []) → IsNotEof e
        → RepresentsContributions H.header greatest (followed_remaining more remaining)
        (Err e ∷ []) }
    ensures at { (greatest : ℕ) (section : Input) (offset : ℕ)
        (answer : Result (Contribution H.Said) Error) (more : List ℕ)
        → ContributionAtOffset H.header greatest section offset answer → IfErr answer IsNotEof
        → ContributionAtOffset H.header greatest (followed_by section more) offset answer }
{
    H::law();
}

/// Calls of `next` up to `None` yield the items that the bytes represent, and nothing remains then.
/// What stays first is the first item of every longer list. Clones can't fail here.
pub fn calls_of_next_yield_the_list<R: Reader, H: HeaderFields<R>>()
    ensures items { (greatest : ℕ) (from left : Remaining)
        (items : List (Result (Contribution H.Said) Error))
        → YieldsThen (GivesFirst (RepresentsContributions H.header greatest) (λ s. s) true)
        from items None left
        → RepresentsContributions H.header greatest from items
        × RepresentsContributions H.header greatest left [] }
    ensures stays { (greatest : ℕ) (old new : Remaining) (s : Contribution H.Said) (more : List ℕ)
        (others : List (Result (Contribution H.Said) Error))
        → StaysFirst (RepresentsContributions H.header greatest) (λ s. s) true followed_remaining
        old (Some (Ok s)) new
        → RepresentsContributions H.header greatest (followed_remaining more old) others
        → (rest : List (Result (Contribution H.Said) Error)) × (others ≡ Ok s ∷ rest) }
    ensures error_stays { (greatest : ℕ) (old new : Remaining) (e : Error) (more : List ℕ)
        (others : List (Result (Contribution H.Said) Error))
        → StaysFirst (RepresentsContributions H.header greatest) (λ s. s) true followed_remaining
        old (Some (Err e)) new → IsNotEof e
        → RepresentsContributions H.header greatest (followed_remaining more old) others
        → others ≡ Err e ∷ [] }
{
    H::law();
}

/// What a lookup keeps is the result of every longer section, if clones can't fail: a string offset
/// or an error in place of one, unless that is an `UnexpectedEof`.
pub fn kept_lookups_are_those_of_longer_sections()
    ensures { (greatest : ℕ) (section : Input) (s : Slot) (result : Result ℕ Error) (more : List ℕ)
        → Stays (λ input. WordAt greatest input s) (λ x. x) true section result
        → IfErr result IsNotEof → WordAt greatest (followed_by section more) s result }
{}

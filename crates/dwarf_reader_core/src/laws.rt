//! Laws of the definitions that the contracts cite.

ghost use Rattle.std.specs.Prelude.{◌≡◌, ◌<◌, ◌≤◌, ◌↔◌, ◌⊎◌, ◌++◌, ℕ, ℤ, ⊤, true, false, List, [], ◌∷◌, Result, Ok, Err, IfOk, IfErr, OnOk, length, take, IsTrue};
ghost use Rattle.dwarf_base_core.specs.declared.common.Format.{Format};
ghost use Rattle.dwarf_base_core.specs.declared.error.Error.{Error};
ghost use Rattle.dwarf_base_core.specs.declared.error.Error.TheVariants.{UnknownVersion, UnsupportedSegmentSize};
ghost use Rattle.dwarf_reader_core.specs.Input.{Input, Takes, TakesNumber, TakesSigned, section_of};
ghost use Rattle.dwarf_reader_core.specs.Faults.{IsCutIn, IsTooShort, ReadsNoOffset, eof, is_number_size};
ghost use Rattle.dwarf_reader_core.specs.Headers.{AddressHeaderRead, StringOffsetsHeaderRead};
ghost use Rattle.dwarf_reader_core.specs.InitialLength.{LengthRead};
ghost use Rattle.dwarf_reader_core.specs.Leb128.{unsigned64, unsigned16, signed64, HasLeb128, HasOutcome, IsEncoding, IsMalformed, IsOver, Kind, Number, ReadsNoLeb128, ReadsLeb128, TakesEncoding, TakesNoEncoding, is_in_range, limit};
ghost use Rattle.dwarf_reader_core.specs.Once.{HasOne};
ghost use Rattle.dwarf_reader_core.specs.Readings.{AddressRead, AddressSizeRead, AsOffset, BoundedRead, BytesRead, EncodingRead, IsRead, Leb128Read, NumberRead, OffsetRead, PartRead, SignedRead, SkipRead, StringRead, WordRead};
ghost use Rattle.dwarf_reader_core.specs.Shortest.{Encodes, IsShortest};

use dwarf_base_core::laws::numbers_of_bytes;

/// Bytes have exactly one outcome for each kind of number: they begin with a number, end before it
/// does, or are malformed.
pub fn exactly_one_outcome()
    ensures unsigned { (bytes : List ℕ) → HasOne (HasOutcome unsigned64 bytes) }
    ensures short { (bytes : List ℕ) → HasOne (HasOutcome unsigned16 bytes) }
    ensures signed { (bytes : List ℕ) → HasOne (HasOutcome signed64 bytes) }
{}

/// Bytes are malformed exactly if no bytes after them make them begin with a number.
#[tactic(auto, using(crate::proofs::leb::Malformed::bad_bytes))]
pub fn bad_bytes_stay_bad()
    ensures { (k : Kind) (bytes : List ℕ) → IsMalformed k bytes
        ↔ ((more : List ℕ) (number : Number k) (n : ℕ) → HasLeb128 k (bytes ++ more) number n → ⊥) }
{}

/// No encoding begins another.
#[tactic(auto, using(crate::proofs::leb::Encodings::encodings_same))]
pub fn no_encoding_begins_another()
    ensures { (a b x y : List ℕ) → IsEncoding a → IsEncoding b → a ++ x ≡ b ++ y
        → (a ≡ b) × (x ≡ y) }
{}

/// Every number has exactly one shortest encoding.
#[tactic(auto, using(crate::proofs::leb::ShortestExists::shortest_exactly_one))]
pub fn exactly_one_shortest()
    ensures { (k : Kind) (number : Number k) → HasOne (IsShortest k number) }
{}

/// Bytes that encode a number are read as that number, whatever follows, if they are within the
/// limit of its kind, and the number is in its range.
#[tactic(auto, using(crate::proofs::leb::Shortest::HasLeb128_append))]
pub fn written_is_read()
    ensures { (k : Kind) (number : Number k) (bytes rest : List ℕ) → Encodes k bytes number
        → length bytes ≤ limit k → IsTrue (is_in_range k number)
        → HasLeb128 k (bytes ++ rest) number (length bytes) }
{}

/// An `UnexpectedEof` in place of a header or an initial length is that of the first field that isn't
/// there whole, at the position where the field begins.
#[tactic(auto, using(crate::proofs::public::Headers::missing_fields))]
pub fn missing_bytes_of_headers()
    ensures address { (greatest : ℕ) (format : Format) (unit new : Input) (position : ℕ)
        → AddressHeaderRead greatest format unit (Err (eof position), new)
        → IsCutIn unit (2 ∷ 1 ∷ 1 ∷ []) (eof position) }
    ensures string_offsets { (greatest : ℕ) (format : Format) (unit new : Input) (position : ℕ)
        → StringOffsetsHeaderRead greatest format unit (Err (eof position), new)
        → IsCutIn unit (2 ∷ 2 ∷ []) (eof position) }
    ensures initial_length { (greatest : ℕ) (old new : Input) (position : ℕ)
        → LengthRead greatest old (Err (eof position), new)
        → IsCutIn old (4 ∷ 8 ∷ []) (eof position) }
{}

/// The header of a set has four bytes.
#[tactic(auto, using(crate::proofs::public::Headers::four_bytes))]
pub fn headers_of_sets_have_four_bytes()
    ensures address { (greatest : ℕ) (format : Format) (unit rest : Input) (size : ℕ)
        → AddressHeaderRead greatest format unit (Ok size, rest) → Takes 4 unit rest }
    ensures string_offsets { (greatest : ℕ) (format : Format) (unit rest : Input)
        → StringOffsetsHeaderRead greatest format unit (Ok tt, rest) → Takes 4 unit rest }
{}

/// What a call reads is determined by the bytes: there is exactly one result, and exactly one input
/// remains, after an error, too: what follows some of the bytes. Appended bytes change it only if
/// bytes were missing, and then the position in the `UnexpectedEof` is that of what remains.
#[tactic(auto, using(crate::proofs::public::Readings::readings))]
pub fn exactly_one_read()
    ensures skip { (n : ℕ) → IsRead (SkipRead n) }
    ensures split { (n : ℕ) → IsRead (PartRead n) }
    ensures slice { (n : ℕ) → IsRead (BytesRead n) }
    ensures null_terminated_slice { IsRead StringRead }
    ensures unsigned_number { (n : ℕ) → IsRead (NumberRead n) }
    ensures signed_number { (n : ℕ) → IsRead (SignedRead n) }
    ensures leb128 { (k : Kind) → IsRead (Leb128Read k) }
    ensures bounded_leb128 { (bound : ℕ) → IsRead (BoundedRead bound) }
    ensures skipped_leb128 { IsRead EncodingRead }
    ensures initial_length { (greatest : ℕ) → IsRead (LengthRead greatest) }
    ensures address_size { IsRead AddressSizeRead }
    ensures address { (size : ℕ) → IsRead (AddressRead size) }
    ensures word { (greatest n : ℕ) → IsRead (WordRead greatest n) }
    ensures sized_offset { (greatest size : ℕ) → IsRead (OffsetRead greatest size) }
{}

/// A call reads what its contract promises, of a value and of an error. The buffer of `read_slice`
/// and the array of `read_u8_array` hold the bytes that are read.
pub fn promises_are_read()
    ensures slice { (n : ℕ) (old new : Input) (result : Result (List ℕ) Error)
        → IfOk result (λ bytes. bytes ≡ take n old.bytes) → OnOk result (Takes n old new)
        → IfErr result (λ e. IsTooShort n old e new) → BytesRead n old (result, new) }
    ensures signed_number { (n : ℕ) (old new : Input) (result : Result ℤ Error)
        → IfOk result (λ x. TakesSigned n old x new)
        → IfErr result (λ e. IsTooShort n old e new) → SignedRead n old (result, new) }
    ensures leb128 { (k : Kind) (old new : Input) (result : Result (Number k) Error)
        → IfOk result (λ x. ReadsLeb128 k old x new)
        → IfErr result (λ e. ReadsNoLeb128 k old e new) → Leb128Read k old (result, new) }
    ensures bounded_leb128 { (bound : ℕ) (old new : Input) (result : Result ℕ Error)
        → IfOk result (λ x. ReadsLeb128 unsigned64 old x new) → IfOk result (λ x. x < bound)
        → IfErr result (λ e. ReadsNoLeb128 unsigned64 old e new ⊎ IsOver bound old e new)
        → BoundedRead bound old (result, new) }
    ensures skipped_leb128 { (old new : Input) (result : Result ⊤ Error)
        → OnOk result (TakesEncoding old new) → IfErr result (λ e. TakesNoEncoding old e new)
        → EncodingRead old (result, new) }
    ensures sized_offset { (greatest size : ℕ) (old new : Input) (result : Result ℕ Error)
        → IfOk result (λ x. TakesNumber size old x new × IsTrue (is_number_size size))
        → IfOk result (λ x. x ≤ greatest)
        → IfErr result (λ e. ReadsNoOffset greatest size old e new)
        → OffsetRead greatest size old (result, new) }
{}

/// A number of `n` bytes that has to be an offset is a word.
#[tactic(auto, using(crate::proofs::public::Readings::words))]
pub fn words_are_offsets()
    ensures { (greatest n : ℕ) (old new : Input) (result : Result ℕ Error)
        → AsOffset greatest (NumberRead n) old (result, new) ↔ WordRead greatest n old (result, new) }
{}

/// Headers of sets by their bytes. One of addresses has a version, an address size and a segment
/// size; one of string offsets, here in the big-endian order, a version and two bytes more. What
/// isn't supported is an error, and the bytes up to it are consumed.
pub fn headers_of_sets_by_their_bytes()
    ensures address { (greatest : ℕ) (format : Format) (bytes : List ℕ)
        → AddressHeaderRead greatest format (section_of (5 ∷ 0 ∷ 8 ∷ 0 ∷ bytes) false)
        (Ok 8, record { bytes = bytes; position = 4; is_big = false }) }
    ensures version { (greatest : ℕ) (format : Format) (bytes : List ℕ)
        → AddressHeaderRead greatest format (section_of (4 ∷ 0 ∷ bytes) false)
        (Err (UnknownVersion 4), record { bytes = bytes; position = 2; is_big = false }) }
    ensures segment_size { (greatest : ℕ) (format : Format) (bytes : List ℕ)
        → AddressHeaderRead greatest format (section_of (5 ∷ 0 ∷ 8 ∷ 1 ∷ bytes) false) (
          Err (UnsupportedSegmentSize 1),
          record { bytes = bytes; position = 4; is_big = false },
        ) }
    ensures string_offsets { (greatest : ℕ) (format : Format) (bytes : List ℕ)
        → StringOffsetsHeaderRead greatest format (section_of (0 ∷ 5 ∷ 7 ∷ 9 ∷ bytes) true)
        (Ok tt, record { bytes = bytes; position = 4; is_big = true }) }
{}

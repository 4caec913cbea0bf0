//! The attributes of abbreviations, and the sizes of their forms.

ghost use Rattle.std.specs.Prelude.{◌≡◌, ◌↔◌, Ok, Err, IsSome, IfSome, IfNone, IfOk, IfErr, OnOk};
ghost use Rattle.dwarf_reader_core.specs.Input.{end_of};
ghost use Rattle.dwarf_read_core.specs.Forms.{form_size};
ghost use Rattle.dwarf_read_core.specs.Grammar.{implicit_const};
ghost use Rattle.dwarf_read_core.specs.Reading.{PairRead, ReturnsUnlessOutOfMemory, specification_at};

use dwarf_base_core::{Encoding, Error, Result};
use dwarf_const_core::attribute::{DW_AT_null, DwAt};
use dwarf_const_core::form::{
    DW_FORM_GNU_ref_alt, DW_FORM_GNU_strp_alt, DW_FORM_addr, DW_FORM_addrx1, DW_FORM_addrx2,
    DW_FORM_addrx3, DW_FORM_addrx4, DW_FORM_data1, DW_FORM_data2, DW_FORM_data4, DW_FORM_data8,
    DW_FORM_data16, DW_FORM_flag, DW_FORM_flag_present, DW_FORM_implicit_const, DW_FORM_line_strp,
    DW_FORM_null, DW_FORM_ref_addr, DW_FORM_ref_sig8, DW_FORM_ref_sup4, DW_FORM_ref_sup8,
    DW_FORM_ref1, DW_FORM_ref2, DW_FORM_ref4, DW_FORM_ref8, DW_FORM_sec_offset, DW_FORM_strp,
    DW_FORM_strp_sup, DW_FORM_strx1, DW_FORM_strx2, DW_FORM_strx3, DW_FORM_strx4, DwForm,
};
use dwarf_reader_core::{Reader, read_u8_array};
use smallvec::SmallVec;
use std::alloc::Global;
use std::default::MadeWith;
use std::marker::Model;

/// An attribute of an abbreviation: its name, and the form of its value.
///
/// The value of an attribute of the form `DW_FORM_implicit_const` is in the table itself, and not
/// in the entries (DWARF 5, 7.5.3).
#[derive(Clone, Copy, Debug, PartialEq, Eq)]
pub struct AttributeSpecification {
    name: DwAt,
    form: DwForm,
    implicit_const_value: i64,
}

impl Model for AttributeSpecification {
    ghost use Rattle.dwarf_read_core.specs.Codes.{specification_code};
    ghost use Rattle.dwarf_read_core.specs.Grammar.{Specification};

    ghost Value = { Specification };

    ghost coded = { specification_code };

    ghost use Rattle.dwarf_read_core.specs.Views.{specification_view, specification_fields, IsCanonical, fields_again};

    ghost view = { specification_view };

    ghost invariant = { IsCanonical };

    ghost inverse = { specification_fields };

    ghost inverse_ok = { fields_again };
}

// What a list holds in a place that has no attribute yet.
impl MadeWith<Global> for AttributeSpecification {
    fn made_with(_mem: Global) -> Self {
        AttributeSpecification {
            name: DwAt(0),
            form: DwForm(0),
            implicit_const_value: 0,
        }
    }
}

impl AttributeSpecification {
    /// Returns the attribute with this name and form.
    ///
    /// The caller has to pass a value if the form is `DW_FORM_implicit_const`, and `None`
    /// otherwise.
    pub fn new(
        name: DwAt,
        form: DwForm,
        implicit_const_value: Option<i64>,
    ) -> AttributeSpecification
        requires { IsSome implicit_const_value ↔ (form.0 ≡ implicit_const) }
        ensures { result ≡ record { name = name.0; form = form.0; value = implicit_const_value } }
    {
        AttributeSpecification {
            name,
            form,
            implicit_const_value: implicit_const_value.unwrap_or(0),
        }
    }

    /// Returns the name of the attribute.
    pub fn name(&self) -> DwAt
        ensures { result.0 ≡ self.now.name }
    {
        self.name
    }

    /// Returns the form of the attribute's value.
    pub fn form(&self) -> DwForm
        ensures { result.0 ≡ self.now.form }
    {
        self.form
    }

    /// Returns the value of the attribute if its form is `DW_FORM_implicit_const`, and `None`
    /// otherwise.
    pub fn implicit_const_value(&self) -> Option<i64>
        ensures value { result ≡ self.now.value }
        ensures some { IsSome result ↔ (self.now.form ≡ implicit_const) }
    {
        if self.form == DW_FORM_implicit_const {
            Some(self.implicit_const_value)
        } else {
            None
        }
    }

    /// Returns how many bytes a value of this attribute has in a unit with this encoding. `None` if
    /// the form doesn't determine it (DWARF 5, 7.5.6).
    pub fn size(&self, encoding: Encoding) -> Option<usize>
        ensures { result ≡ form_size self.now.form encoding }
    {
        get_attribute_size(self.form, encoding).map(usize::from)
    }

    // Reads an attribute, or `None` if name and form are 0, which ends the declaration.
    pub(super) fn parse<R: Reader>(input: &mut R) -> Result<Option<AttributeSpecification>>
        ensures read { ReturnsUnlessOutOfMemory (λ s. (s, (R.view input.new).bytes)) result
            (specification_at (end_of (R.view input.old)) (R.view input.old).bytes) }
        ensures same_end { OnOk result (end_of (R.view input.new) ≡ end_of (R.view input.old)) }
    {
        let (name, form) = read_pair(input)?;
        let (name, form) = (DwAt(name), DwForm(form));
        match (name, form) {
            (DW_AT_null, DW_FORM_null) => Ok(None),
            (DW_AT_null, _) => Err(Error::AttributeNameZero),
            (_, DW_FORM_null) => Err(Error::AttributeFormZero),
            (_, DW_FORM_implicit_const) => {
                let value = input.read_sleb128()?;
                Ok(Some(AttributeSpecification::new(name, form, Some(value))))
            }
            (_, _) => Ok(Some(AttributeSpecification::new(name, form, None))),
        }
    }
}

// Reads the number of a name and the number of its form.
#[inline(always)]
fn read_pair<R: Reader>(input: &mut R) -> Result<(u16, u16)>
    ensures ok { IfOk result (λ pair. PairRead (R.view input.old) (Ok pair, R.view input.new)) }
    ensures err { IfErr result (λ e. PairRead (R.view input.old) (Err e, R.view input.new)) }
{
    if let Some(pair) = read_short_pair(input) {
        return Ok(pair);
    }
    let name = input.read_uleb128_u16()?;
    let form = input.read_uleb128_u16()?;
    Ok((name, form))
}

// Reads them if each has one byte, as most do: then one test finds that both are there. It looks
// ahead by a clone, so it reads nothing if a clone can fail.
#[inline(always)]
fn read_short_pair<R: Reader>(input: &mut R) -> Option<(u16, u16)>
    ensures some { IfSome result
        (λ pair. PairRead (R.view input.old) (Ok pair, R.view input.new)) }
    ensures none { IfNone result (R.view input.new ≡ R.view input.old) }
{
    if !input.is_clone_free() {
        return None;
    }
    let Ok(mut ahead) = input.try_clone() else {
        return None;
    };
    let Ok(pair) = read_u8_array::<R, 2>(&mut ahead) else {
        return None;
    };
    if pair[0] >= 128 || pair[1] >= 128 {
        return None;
    }
    *input = ahead;
    Some((u16::from(pair[0]), u16::from(pair[1])))
}

#[inline]
#[tactic(auto, unfolding(crate::specs::Forms::form_sizes))]
fn get_attribute_size(form: DwForm, encoding: Encoding) -> Option<u8>
    ensures { result ≡ form_size form.0 encoding }
{
    match form {
        DW_FORM_addr => Some(encoding.address_size),
        DW_FORM_implicit_const | DW_FORM_flag_present => Some(0),
        DW_FORM_data1 | DW_FORM_flag | DW_FORM_strx1 | DW_FORM_ref1 | DW_FORM_addrx1 => Some(1),
        DW_FORM_data2 | DW_FORM_ref2 | DW_FORM_addrx2 | DW_FORM_strx2 => Some(2),
        DW_FORM_addrx3 | DW_FORM_strx3 => Some(3),
        DW_FORM_data4 | DW_FORM_ref_sup4 | DW_FORM_ref4 | DW_FORM_strx4 | DW_FORM_addrx4 => Some(4),
        DW_FORM_data8 | DW_FORM_ref8 | DW_FORM_ref_sig8 | DW_FORM_ref_sup8 => Some(8),
        DW_FORM_data16 => Some(16),
        DW_FORM_sec_offset
        | DW_FORM_GNU_ref_alt
        | DW_FORM_strp
        | DW_FORM_strp_sup
        | DW_FORM_GNU_strp_alt
        | DW_FORM_line_strp => Some(encoding.format.word_size()),
        DW_FORM_ref_addr => {
            if encoding.version == 2 {
                Some(encoding.address_size)
            } else {
                Some(encoding.format.word_size())
            }
        }
        _ => None,
    }
}

// Most declarations have at most five attributes. These are in the abbreviation itself, and only
// a longer list allocates.
pub(super) type Attributes = SmallVec<AttributeSpecification, 5>;

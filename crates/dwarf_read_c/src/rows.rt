//! What the calls write of an abbreviation table.

/// How large an abbreviation table is, where it ends, and what closes it.
#[repr(C)]
#[derive(Clone, Copy)]
pub struct DwarfMeasure {
    /// How many abbreviations the table declares.
    pub abbreviations: usize,
    /// How many attributes they have together.
    pub attributes: usize,
    /// The offset after the code of value 0 that closes the table, or the section's length.
    pub end: usize,
    /// 1 if a code of value 0 closes the table, and 0 if the section's end does.
    pub closed_by_null: u8,
}

/// An abbreviation.
#[repr(C)]
#[derive(Clone, Copy)]
pub struct DwarfAbbreviation {
    /// Its code, which entries refer to. It is not 0.
    pub code: u64,
    /// The tag of the entries.
    pub tag: u16,
    /// 1 if an entry is followed by its children, and 0 otherwise.
    pub has_children: u8,
    /// Where its attributes begin among those of the table.
    pub first_attribute: usize,
    /// How many attributes it has.
    pub attribute_count: usize,
}

/// An attribute of an abbreviation.
#[repr(C)]
#[derive(Clone, Copy)]
pub struct DwarfAttributeSpec {
    pub name: u16,
    pub form: u16,
    /// The value that is in the table itself, if the form is `DW_FORM_implicit_const`. It is 0 for
    /// all other forms.
    pub implicit_const: i64,
}

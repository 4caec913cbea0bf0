//! How the header of a contribution at an offset is read, and how far the contribution goes.

ghost use Rattle.std.specs.Prelude.{◌≡◌, ◌+◌, ◌-◌, ◌^◌, true, Ok, Err, IfOk, IfErr};
ghost use Rattle.dwarf_read_core.specs.Contributions.{ContributionAtOffset};
ghost use Rattle.dwarf_read_core.specs.Format.{initial_length_size};
ghost use Rattle.dwarf_read_c.specs.Extents.{StepsOver};

use dwarf_read_core::{Error, Format, HeaderFields, Reader};

// The format, the fields and the entries of a contribution.
pub(crate) type Header<R, H> = (Format, H, R);

// Reads the header of the contribution at an offset. Where the contribution ends, and how many bytes
// follow its initial length, is written before the fields are read, if all of it is in the section.
#[inline]
pub(crate) fn header_at<R: Reader<Offset = usize>, H: HeaderFields<R>>(
    section: R,
    offset: usize,
    next: &mut usize,
    unit_length: &mut usize,
) -> Result<Header<R, H>, Error>
    requires clones { R.clone_is_free ≡ true }
    ensures found { let s = R.view section in
        IfOk result (λ x. ContributionAtOffset H.header (2 ^ 64 - 1) s offset (Ok record {
          offset = offset;
          format = x.0;
          unit_length = unit_length.new;
          header = H.said x.1;
          entries = R.view x.2;
        })) }
    ensures ends { IfOk result
        (λ x. next.new ≡ offset + initial_length_size x.0 + unit_length.new) }
    ensures err { let s = R.view section in
        IfErr result (λ e. ContributionAtOffset H.header (2 ^ 64 - 1) s offset (Err e)) }
    ensures stepped { StepsOver (R.view section) offset
        (next.old, unit_length.old) (next.new, unit_length.new) }
{
    let mut input = section;
    input.skip(offset)?;
    let (length, format) = input.read_initial_length()?;
    let mut entries = input.split(length)?;
    *next = offset + usize::from(format.initial_length_size()) + length;
    *unit_length = length;
    let fields = H::parse(&mut entries, format)?;
    Ok((format, fields, entries))
}

//! Laws of the definitions, for anyone who uses a contract.

ghost use Rattle.dwarf_const_core.specs.DwAt.{attribute_names};
ghost use Rattle.dwarf_const_core.specs.DwForm.{form_names};
ghost use Rattle.dwarf_const_core.specs.DwIdx.{index_attribute_names};
ghost use Rattle.dwarf_const_core.specs.DwLang.{language_names};
ghost use Rattle.dwarf_const_core.specs.DwLnct.{line_content_names};
ghost use Rattle.dwarf_const_core.specs.DwTag.{tag_names};
ghost use Rattle.dwarf_const_core.specs.Names.{HasDistinctValues};

/// No list of names has a value twice, so a value has at most one name.
pub fn names_are_distinct()
    ensures attribute { HasDistinctValues attribute_names }
    ensures form { HasDistinctValues form_names }
    ensures index_attribute { HasDistinctValues index_attribute_names }
    ensures language { HasDistinctValues language_names }
    ensures line_content { HasDistinctValues line_content_names }
    ensures tag { HasDistinctValues tag_names }
{}

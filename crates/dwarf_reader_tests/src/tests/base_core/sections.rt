//! The identifiers of sections, and their names.

use crate::tests::same;
use dwarf_base_core::SectionId;

// An identifier, its name, the name in a split file, and that in XCOFF.
#[rattlefmt::skip]
static SECTIONS: [(SectionId, &str, Option<&str>, Option<&str>); 25] = [
    (SectionId::DebugAbbrev, ".debug_abbrev", Some(".debug_abbrev.dwo"), Some(".dwabrev")),
    (SectionId::DebugAddr, ".debug_addr", None, None),
    (SectionId::DebugAranges, ".debug_aranges", None, Some(".dwarnge")),
    (SectionId::DebugCuIndex, ".debug_cu_index", Some(".debug_cu_index"), None),
    (SectionId::DebugFrame, ".debug_frame", None, Some(".dwframe")),
    (SectionId::EhFrame, ".eh_frame", None, None),
    (SectionId::EhFrameHdr, ".eh_frame_hdr", None, None),
    (SectionId::DebugGnuPubNames, ".debug_gnu_pubnames", None, None),
    (SectionId::DebugGnuPubTypes, ".debug_gnu_pubtypes", None, None),
    (SectionId::DebugInfo, ".debug_info", Some(".debug_info.dwo"), Some(".dwinfo")),
    (SectionId::DebugLine, ".debug_line", Some(".debug_line.dwo"), Some(".dwline")),
    (SectionId::DebugLineStr, ".debug_line_str", None, None),
    (SectionId::DebugLoc, ".debug_loc", Some(".debug_loc.dwo"), Some(".dwloc")),
    (SectionId::DebugLocLists, ".debug_loclists", Some(".debug_loclists.dwo"), None),
    (SectionId::DebugMacinfo, ".debug_macinfo", Some(".debug_macinfo.dwo"), Some(".dwmac")),
    (SectionId::DebugMacro, ".debug_macro", Some(".debug_macro.dwo"), None),
    (SectionId::DebugNames, ".debug_names", None, None),
    (SectionId::DebugPubNames, ".debug_pubnames", None, Some(".dwpbnms")),
    (SectionId::DebugPubTypes, ".debug_pubtypes", None, Some(".dwpbtyp")),
    (SectionId::DebugRanges, ".debug_ranges", None, Some(".dwrnges")),
    (SectionId::DebugRngLists, ".debug_rnglists", Some(".debug_rnglists.dwo"), None),
    (SectionId::DebugStr, ".debug_str", Some(".debug_str.dwo"), Some(".dwstr")),
    (SectionId::DebugStrOffsets, ".debug_str_offsets", Some(".debug_str_offsets.dwo"), None),
    (SectionId::DebugTuIndex, ".debug_tu_index", Some(".debug_tu_index"), None),
    (SectionId::DebugTypes, ".debug_types", Some(".debug_types.dwo"), None),
];

#[test]
fn names_are_as_published(rt: HostRuntime) {
    for (id, name, dwo_name, xcoff_name) in &SECTIONS {
        let names = (id.name(), id.dwo_name(), id.xcoff_name());
        same(&rt, names, (*name, *dwo_name, *xcoff_name), name);
        let is_string = *name == ".debug_str" || *name == ".debug_line_str";
        same(&rt, id.is_string(), is_string, name);
    }
    for next in 1..SECTIONS.len() {
        let (id, next_id) = (SECTIONS[next - 1].0, SECTIONS[next].0);
        assert!(rt; id < next_id, "{id:?} {next_id:?}");
    }
}

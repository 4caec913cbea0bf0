//! Lists the abbreviations at the start of a `.debug_abbrev` section, which it reads from standard
//! input. It is the whole of a program over the library, to start from.
#![tactic(auto)]

use anyhow::Result;
use dwarf_read_core::{DebugAbbrev, DebugAbbrevOffset, LittleEndian};
use std::io::Read;

fn main(rt: HostRuntime) -> Result<()> {
    let mem = rt.alloc();
    let mut bytes = Vec::new(mem);
    rt.stdin().read_to_end(&mut bytes)?;
    let section = DebugAbbrev::new(&bytes, LittleEndian);
    let table = section.abbreviations(mem, DebugAbbrevOffset(0))?;
    for abbreviation in table.iter() {
        let (code, tag) = (abbreviation.code(), abbreviation.tag());
        println!(rt; "{code} {tag}")?;
    }
    Ok(())
}

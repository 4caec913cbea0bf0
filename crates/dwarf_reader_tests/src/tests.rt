//! The public calls of each crate, by worked results.

use std::alloc::Global;
use std::fmt::{Debug, Display};
use std::hash::{DefaultHasher, Hash, Hasher};
use std::process::Abort;

// The error that bytes are missing at a position.
macro_rules! eof {
    ($position:expr) => {
        dwarf_base_core::Error::UnexpectedEof(dwarf_base_core::ReaderOffsetId($position))
    };
}

mod base_core;
mod code_core;
mod const_core;
mod reader_core;

// Ends the test where a value isn't the one that is wanted, and says what it is the value of.
fn same<T: PartialEq + Debug + Drop, W: Debug + Copy>(rt: &impl Abort, got: T, wanted: T, what: W) {
    assert_eq!(rt; got, wanted, "{what:?}");
}

// Makes the last allocation of a test whose allocations `tools/fail-alloc` makes fail in turn. If it fails, each one
// before it failed in an earlier run of the test.
fn end_requests(rt: &impl Print, mem: Global) {
    if Vec::from_slice(mem, &[0u8]).is_err() {
        let _ = println!(rt; "every request was refused");
    }
}

fn hash_of<T: Hash>(value: &T) -> u64 {
    let mut state = DefaultHasher::new();
    value.hash(&mut state);
    state.finish()
}

// A family of constants, by the type of its values without the `Dw`.
#[derive(Clone, Copy)]
enum Family {
    Access,
    Addr,
    At,
    Ate,
    Cc,
    Cfa,
    Children,
    Defaulted,
    Ds,
    Dsc,
    EhPe,
    End,
    Form,
    GdbIndexSymbolKind,
    Id,
    Idx,
    Inl,
    Lang,
    Lle,
    Lnct,
    Lne,
    Lns,
    Macinfo,
    Macro,
    Op,
    Ord,
    Rle,
    Sect,
    SectV2,
    Tag,
    Ut,
    Virtuality,
    Vis,
}

// The name of the value that these hexadecimal digits write.
fn name_of(family: Family, digits: &str) -> Option<&'static str> {
    let value = u16::from_str_radix(digits, 16).ok()?;
    match u8::try_from(value) {
        Ok(byte) => const_core::name_of(family, value).or(code_core::name_of(family, byte)),
        Err(_) => const_core::name_of(family, value),
    }
}

// Each word has a name, and the value that is published for it. The macro `names!` makes the name of a value from
// the constant itself. So the constant has the value, too.
fn check_names(rt: &impl Abort, family: Family, published: &str) {
    for word in published.split_ascii_whitespace() {
        let (name, digits) = word.split_once("=0x").unwrap_or((word, ""));
        same(rt, name_of(family, digits), Some(name), word);
    }
}

// A value prints as its name.
fn check_text<T: Display>(rt: &impl Abort, mem: Global, value: &T, name: &str) {
    match format!(in mem; "{value}") {
        Ok(text) => same(rt, text.as_str(), name, name),
        Err(_) => assert!(rt; false, "{name}"),
    }
}

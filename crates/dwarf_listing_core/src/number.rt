//! Numbers of the command line: ASCII digits, and before a signed one an optional minus.

ghost use Rattle.std.specs.Prelude.{◌≡◌};
ghost use Rattle.std.specs.Char.{is_ascii_digit};
ghost use Rattle.std.specs.List.{list_all};
ghost use Rattle.dwarf_listing_core.specs.Number.{signed_of, unsigned_of, without_minus};

/// Parses one or more ASCII digits as a number below 2^64. Leading zeros are allowed.
#[tactic(auto, using(crate::proofs::Numbers::parsed_unsigned))]
pub fn parse_unsigned(text: &str) -> Option<u64>
    ensures { result ≡ unsigned_of text.now }
{
    if is_all_digits(text.as_bytes()) {
        text.parse().ok()
    } else {
        None
    }
}

/// Parses ASCII digits, with or without a minus in front, as a number from -2^63 to 2^63 - 1.
#[tactic(auto, using(crate::proofs::Numbers::parsed_signed))]
pub fn parse_signed(text: &str) -> Option<i64>
    ensures { result ≡ signed_of text.now }
{
    if is_all_digits(without_minus(text.as_bytes())) {
        text.parse().ok()
    } else {
        None
    }
}

fn is_all_digits(text: &[u8]) -> bool
    ensures { result ≡ list_all is_ascii_digit text.now }
{
    text.iter().all(|byte| byte.is_ascii_digit())
}

fn without_minus(text: &[u8]) -> &[u8]
    ensures { result.now ≡ without_minus text.now }
{
    match text {
        [b'-', digits @ ..] => digits,
        _ => text,
    }
}

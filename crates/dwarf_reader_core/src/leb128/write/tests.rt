//! The seven bits of a byte, which no public call returns alone.

use super::low_bits_of_u64;
use crate::leb128::low_bits_of_byte;

// Bits above the seven lowest change nothing.
#[test]
fn seven_bits_are_kept(rt: HostRuntime) {
    for digit in 0..128u8 {
        let number = u64::from(digit);
        let found = [
            low_bits_of_byte(digit),
            low_bits_of_byte(digit + 128),
            low_bits_of_u64(65536 + number),
            low_bits_of_u64(65536 * number + number + 128),
        ];
        assert_eq!(rt; found, [digit; 4]);
    }
}

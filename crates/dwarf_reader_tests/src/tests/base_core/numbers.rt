//! Byte orders, and the numbers that a reader counts in.

use crate::tests::same;
use dwarf_base_core::{
    BigEndian, Endianity, Error, LittleEndian, NativeEndian, ReaderAddress, ReaderOffset, Result,
    RunTimeEndian,
};

const ONE: [u8; 16] = [1, 0, 0, 0, 0, 0, 0, 0, 0, 0, 0, 0, 0, 0, 0, 0];

const MINUS_TWO: [u8; 8] = [0xfe, 0xff, 0xff, 0xff, 0xff, 0xff, 0xff, 0xff];

fn unsigned<E: Endianity>(order: E) -> (u16, u32, u64, u128) {
    (
        order.read_u16(&ONE),
        order.read_u32(&ONE),
        order.read_u64(&ONE),
        order.read_u128(&ONE),
    )
}

fn signed<E: Endianity>(order: E) -> (i16, i32, i64) {
    (
        order.read_i16(&MINUS_TWO),
        order.read_i32(&MINUS_TWO),
        order.read_i64(&MINUS_TWO),
    )
}

fn short<E: Endianity>(mut order: E) -> (u64, u64, u64) {
    let none = order.read_uint(&[]);
    let three = order.read_uint(&[1, 2, 3]);
    (none, three, order.read_uint(&MINUS_TWO))
}

fn written<E: Endianity>(order: E) -> ([u8; 3], [u8; 5], [u8; 9], [u8; 17]) {
    let mut two = [7; 3];
    order.write_u16(&mut two, 0x0102);
    let mut four = [7; 5];
    order.write_u32(&mut four, 0x0102_0304);
    let mut eight = [7; 9];
    order.write_u64(&mut eight, 0x0102_0304_0506_0708);
    let mut sixteen = [7; 17];
    order.write_u128(&mut sixteen, 1);
    (two, four, eight, sixteen)
}

fn is_big_and_little<E: Endianity>(order: E) -> (bool, bool) {
    (order.is_big_endian(), order.is_little_endian())
}

#[test]
fn numbers_are_read_in_their_order(rt: HostRuntime) {
    let (little, big) = (RunTimeEndian::Little, RunTimeEndian::Big);
    for (order, wanted) in [
        (is_big_and_little(LittleEndian), (false, true)),
        (is_big_and_little(NativeEndian), (false, true)),
        (is_big_and_little(BigEndian), (true, false)),
        (is_big_and_little(RunTimeEndian::default()), (false, true)),
        (is_big_and_little(big), (true, false)),
    ] {
        same(&rt, order, wanted, "is big, is little");
    }
    same(
        &rt,
        unsigned(LittleEndian),
        (1, 1, 1, 1),
        "unsigned, little",
    );
    let ones = (1 << 8, 1 << 24, 1 << 56, 1 << 120);
    same(&rt, unsigned(BigEndian), ones, "unsigned, big");
    same(&rt, signed(LittleEndian), (-2, -2, -2), "signed, little");
    let odd = (-257, -16_777_217, -72_057_594_037_927_937);
    same(&rt, signed(BigEndian), odd, "signed, big");
    let numbers = (0, 197_121, u64::MAX - 1);
    same(&rt, short(little), numbers, "0, 3 and 8 bytes, little");
    let numbers = (0, 66_051, 0xfeff_ffff_ffff_ffff);
    same(&rt, short(big), numbers, "0, 3 and 8 bytes, big");
}

#[test]
fn numbers_are_written_in_their_order(rt: HostRuntime) {
    let (two, four, eight, sixteen) = written(LittleEndian);
    same(&rt, two, [2, 1, 7], "2 bytes, little");
    same(&rt, four, [4, 3, 2, 1, 7], "4 bytes, little");
    same(&rt, eight, [8, 7, 6, 5, 4, 3, 2, 1, 7], "8 bytes, little");
    let mut one = [0; 17];
    (one[0], one[16]) = (1, 7);
    same(&rt, sixteen, one, "16 bytes, little");
    let (two, four, eight, sixteen) = written(BigEndian);
    same(&rt, two, [1, 2, 7], "2 bytes, big");
    same(&rt, four, [1, 2, 3, 4, 7], "4 bytes, big");
    same(&rt, eight, [1, 2, 3, 4, 5, 6, 7, 8, 7], "8 bytes, big");
    let mut one = [0; 17];
    (one[15], one[16]) = (1, 7);
    same(&rt, sixteen, one, "16 bytes, big");
}

fn value_or_zero<O: ReaderOffset>(offset: Option<O>) -> u64 {
    match offset {
        Some(offset) => offset.into_u64(),
        None => 0,
    }
}

fn offsets<O: ReaderOffset>() -> [u64; 8] {
    let mut sum = O::from_u16(300);
    sum += O::from_u8(5);
    let last = O::from_i16(-1);
    [
        O::GREATEST,
        last.into_u64(),
        last.wrapping_add(sum).into_u64(),
        (sum + O::from_i16(7) - O::from_u8(2)).into_u64(),
        sum.max(last).into_u64(),
        O::from_u32(u32::MAX).into_u64(),
        value_or_zero(sum.checked_sub(O::from_u8(5))),
        value_or_zero(O::from_u8(5).checked_sub(sum)),
    ]
}

fn read_back<O: ReaderOffset>(number: u64) -> Result<u64> {
    Ok(O::from_u64(number)?.into_u64())
}

#[test]
fn offsets_are_numbers_up_to_the_greatest(rt: HostRuntime) {
    let least = u64::from(u32::MAX);
    let short = [least, least, 304, 310, least, least, 300, 0];
    same(&rt, offsets::<u32>(), short, "u32");
    let most = u64::MAX;
    let long = [most, most, 304, 310, most, least, 300, 0];
    same(&rt, offsets::<u64>(), long, "u64");
    same(&rt, offsets::<usize>(), long, "usize");
    for (number, wanted) in [
        (read_back::<u32>(least), Ok(least)),
        (read_back::<u32>(1 << 32), Err(Error::UnsupportedOffset)),
        (read_back::<u64>(most), Ok(most)),
        (read_back::<usize>(most), Ok(most)),
    ] {
        same(&rt, number, wanted, "read back");
    }
}

fn tombstones<A: ReaderAddress>() -> (A, A, A, A) {
    (
        A::min_tombstone(1),
        A::min_tombstone(2),
        A::min_tombstone(4),
        A::min_tombstone(8),
    )
}

#[test]
fn addresses_have_a_size(rt: HostRuntime) {
    for (sum, wanted) in [
        (0xff.add_sized(1, 1), Err(Error::AddressOverflow)),
        (0xfe.add_sized(1, 1), Ok(0xff)),
        (u64::MAX.add_sized(1, 8), Err(Error::AddressOverflow)),
    ] {
        same(&rt, sum, wanted, "sum");
    }
    let sums = (
        0xff.wrapping_add_sized(1, 1),
        u64::MAX.wrapping_add_sized(3, 4),
    );
    same(&rt, sums, (0, 2), "sums that wrap");
    same(
        &rt,
        (u64::zeros(), u64::ones_sized(3)),
        (0, 0xff_ffff),
        "bounds",
    );
    let wanted = (0xfe, 0xfffe, 0xffff_fffe, 0xffff_ffff_ffff_fffe);
    same(&rt, tombstones::<u64>(), wanted, "tombstones");
}

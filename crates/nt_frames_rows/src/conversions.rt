//! Rows of the conversions on bit patterns, as exact fractions give them.

use nt_values::{double_of_float, double_of_int, float_of_double, float_of_int};

/// Floats, and the doubles of the same value.
const DOUBLES_OF_FLOATS: [(u32, u64); 26] = [
    // the zeros
    (0x0000_0000, 0x0000_0000_0000_0000),
    (0x8000_0000, 0x8000_0000_0000_0000),
    // the least and the greatest subnormal, and others
    (0x0000_0001, 0x36a0_0000_0000_0000),
    (0x8000_0001, 0xb6a0_0000_0000_0000),
    (0x0000_0002, 0x36b0_0000_0000_0000),
    (0x0000_0003, 0x36b8_0000_0000_0000),
    (0x0040_0000, 0x3800_0000_0000_0000),
    (0x007f_ffff, 0x380f_ffff_c000_0000),
    (0x807f_ffff, 0xb80f_ffff_c000_0000),
    // the least normal and its next
    (0x0080_0000, 0x3810_0000_0000_0000),
    (0x0080_0001, 0x3810_0000_2000_0000),
    // 1 and its next, a third
    (0x3f80_0000, 0x3ff0_0000_0000_0000),
    (0x3f80_0001, 0x3ff0_0000_2000_0000),
    (0xbf80_0000, 0xbff0_0000_0000_0000),
    (0x3eaa_aaab, 0x3fd5_5555_6000_0000),
    // the greatest finite, the infinities
    (0x7f7f_ffff, 0x47ef_ffff_e000_0000),
    (0xff7f_ffff, 0xc7ef_ffff_e000_0000),
    (0x7f80_0000, 0x7ff0_0000_0000_0000),
    (0xff80_0000, 0xfff0_0000_0000_0000),
    // not-a-numbers, quiet and signalling
    (0x7fc0_0000, 0x7ff8_0000_0000_0000),
    (0xffc0_0000, 0xfff8_0000_0000_0000),
    (0x7f80_0001, 0x7ff0_0000_2000_0000),
    (0xff80_0001, 0xfff0_0000_2000_0000),
    (0x7fff_ffff, 0x7fff_ffff_e000_0000),
    (0xffff_ffff, 0xffff_ffff_e000_0000),
    (0x7fa0_0000, 0x7ff4_0000_0000_0000),
];

/// Doubles, and the floats nearest to them.
const FLOATS_OF_DOUBLES: [(u64, u32); 60] = [
    // the zeros, and what is too small
    (0x0000_0000_0000_0000, 0x0000_0000),
    (0x8000_0000_0000_0000, 0x8000_0000),
    (0x0000_0000_0000_0001, 0x0000_0000),
    (0x8000_0000_0000_0001, 0x8000_0000),
    (0x000f_ffff_ffff_ffff, 0x0000_0000),
    (0x0010_0000_0000_0000, 0x0000_0000),
    (0x368f_ffff_ffff_ffff, 0x0000_0000),
    // the middle below the least subnormal, and both sides
    (0x3690_0000_0000_0000, 0x0000_0000),
    (0xb690_0000_0000_0000, 0x8000_0000),
    (0x3690_0000_0000_0001, 0x0000_0001),
    (0xb690_0000_0000_0001, 0x8000_0001),
    (0x369f_ffff_ffff_ffff, 0x0000_0001),
    // subnormals, and the middles at an odd and at an even one
    (0x36a0_0000_0000_0000, 0x0000_0001),
    (0x36a7_ffff_ffff_ffff, 0x0000_0001),
    (0x36a8_0000_0000_0000, 0x0000_0002),
    (0x36a8_0000_0000_0001, 0x0000_0002),
    (0x36b0_0000_0000_0000, 0x0000_0002),
    (0x36b3_ffff_ffff_ffff, 0x0000_0002),
    (0x36b4_0000_0000_0000, 0x0000_0002),
    (0x36b4_0000_0000_0001, 0x0000_0003),
    // the greatest subnormal and the least normal
    (0x380f_ffff_c000_0000, 0x007f_ffff),
    (0x380f_ffff_dfff_ffff, 0x007f_ffff),
    (0x380f_ffff_e000_0000, 0x0080_0000),
    (0x380f_ffff_ffff_ffff, 0x0080_0000),
    (0x3810_0000_0000_0000, 0x0080_0000),
    (0x3810_0000_1000_0000, 0x0080_0000),
    (0x3810_0000_1000_0001, 0x0080_0001),
    // the middles above 1, at an even and at an odd fraction, and both sides
    (0x3ff0_0000_0000_0000, 0x3f80_0000),
    (0x3ff0_0000_0fff_ffff, 0x3f80_0000),
    (0x3ff0_0000_1000_0000, 0x3f80_0000),
    (0x3ff0_0000_1000_0001, 0x3f80_0001),
    (0x3ff0_0000_2fff_ffff, 0x3f80_0001),
    (0x3ff0_0000_3000_0000, 0x3f80_0002),
    (0x3ff0_0000_3000_0001, 0x3f80_0002),
    (0xbff0_0000_1000_0000, 0xbf80_0000),
    (0xbff0_0000_3000_0000, 0xbf80_0002),
    // the middle below 2
    (0x3fff_ffff_efff_ffff, 0x3fff_ffff),
    (0x3fff_ffff_f000_0000, 0x4000_0000),
    // the greatest finite float, and the middle below 2^128
    (0x47ef_ffff_e000_0000, 0x7f7f_ffff),
    (0x47ef_ffff_efff_ffff, 0x7f7f_ffff),
    (0xc7ef_ffff_efff_ffff, 0xff7f_ffff),
    (0x47ef_ffff_f000_0000, 0x7f80_0000),
    (0xc7ef_ffff_f000_0000, 0xff80_0000),
    (0x47ef_ffff_ffff_ffff, 0x7f80_0000),
    // 2^128, the greatest finite double, the infinities
    (0x47f0_0000_0000_0000, 0x7f80_0000),
    (0xc7f0_0000_0000_0000, 0xff80_0000),
    (0x47f0_0000_0000_0001, 0x7f80_0000),
    (0x7fef_ffff_ffff_ffff, 0x7f80_0000),
    (0xffef_ffff_ffff_ffff, 0xff80_0000),
    (0x7ff0_0000_0000_0000, 0x7f80_0000),
    (0xfff0_0000_0000_0000, 0xff80_0000),
    // not-a-numbers, quiet and signalling, some with low bits alone
    (0x7ff8_0000_0000_0000, 0x7fc0_0000),
    (0xfff8_0000_0000_0000, 0xffc0_0000),
    (0x7ff0_0000_0000_0001, 0x7fc0_0000),
    (0xfff0_0000_0000_0001, 0xffc0_0000),
    (0x7ff0_0000_1fff_ffff, 0x7fc0_0000),
    (0x7ff0_0000_2000_0000, 0x7fc0_0001),
    (0xfff4_0000_0000_0000, 0xffe0_0000),
    (0x7fff_ffff_ffff_ffff, 0x7fff_ffff),
    (0xffff_ffff_ffff_ffff, 0xffff_ffff),
];

/// Whole numbers, and the doubles and floats nearest to them.
const WHOLE_NUMBERS: [(u64, u64, u32); 38] = [
    // small
    (0, 0x0000_0000_0000_0000, 0x0000_0000),
    (1, 0x3ff0_0000_0000_0000, 0x3f80_0000),
    (2, 0x4000_0000_0000_0000, 0x4000_0000),
    (3, 0x4008_0000_0000_0000, 0x4040_0000),
    (10, 0x4024_0000_0000_0000, 0x4120_0000),
    // 24 bits and the middles behind them
    (16_777_215, 0x416f_ffff_e000_0000, 0x4b7f_ffff),
    (16_777_216, 0x4170_0000_0000_0000, 0x4b80_0000),
    (16_777_217, 0x4170_0000_1000_0000, 0x4b80_0000),
    (16_777_218, 0x4170_0000_2000_0000, 0x4b80_0001),
    (16_777_219, 0x4170_0000_3000_0000, 0x4b80_0002),
    (33_554_431, 0x417f_ffff_f000_0000, 0x4c00_0000),
    (33_554_433, 0x4180_0000_0800_0000, 0x4c00_0000),
    (33_554_434, 0x4180_0000_1000_0000, 0x4c00_0000),
    (33_554_435, 0x4180_0000_1800_0000, 0x4c00_0001),
    (33_554_438, 0x4180_0000_3000_0000, 0x4c00_0002),
    // 53 bits and the middles behind them
    (9_007_199_254_740_991, 0x433f_ffff_ffff_ffff, 0x5a00_0000),
    (9_007_199_254_740_992, 0x4340_0000_0000_0000, 0x5a00_0000),
    (9_007_199_254_740_993, 0x4340_0000_0000_0000, 0x5a00_0000),
    (9_007_199_254_740_994, 0x4340_0000_0000_0001, 0x5a00_0000),
    (9_007_199_254_740_995, 0x4340_0000_0000_0002, 0x5a00_0000),
    (18_014_398_509_481_985, 0x4350_0000_0000_0000, 0x5a80_0000),
    (18_014_398_509_481_986, 0x4350_0000_0000_0000, 0x5a80_0000),
    (18_014_398_509_481_987, 0x4350_0000_0000_0001, 0x5a80_0000),
    (18_014_398_509_481_990, 0x4350_0000_0000_0002, 0x5a80_0000),
    // middles of a float at 63 and 64 bits
    (
        9_223_371_487_098_961_920,
        0x43df_ffff_e000_0000,
        0x5eff_ffff,
    ),
    (
        9_223_372_586_610_589_696,
        0x43e0_0000_1000_0000,
        0x5f00_0000,
    ),
    (
        9_223_372_586_610_589_697,
        0x43e0_0000_1000_0000,
        0x5f00_0001,
    ),
    (
        9_223_373_686_122_217_472,
        0x43e0_0000_3000_0000,
        0x5f00_0002,
    ),
    (
        18_446_743_523_953_737_727,
        0x43ef_ffff_f000_0000,
        0x5f7f_ffff,
    ),
    (
        18_446_743_523_953_737_728,
        0x43ef_ffff_f000_0000,
        0x5f80_0000,
    ),
    // middles of a double at 64 bits
    (
        9_223_372_036_854_776_832,
        0x43e0_0000_0000_0000,
        0x5f00_0000,
    ),
    (
        9_223_372_036_854_776_833,
        0x43e0_0000_0000_0001,
        0x5f00_0000,
    ),
    (
        9_223_372_036_854_778_880,
        0x43e0_0000_0000_0002,
        0x5f00_0000,
    ),
    (
        18_446_744_073_709_550_591,
        0x43ef_ffff_ffff_ffff,
        0x5f80_0000,
    ),
    (
        18_446_744_073_709_550_592,
        0x43f0_0000_0000_0000,
        0x5f80_0000,
    ),
    // the greatest
    (
        9_223_372_036_854_775_807,
        0x43e0_0000_0000_0000,
        0x5f00_0000,
    ),
    (
        9_223_372_036_854_775_808,
        0x43e0_0000_0000_0000,
        0x5f00_0000,
    ),
    (
        18_446_744_073_709_551_615,
        0x43f0_0000_0000_0000,
        0x5f80_0000,
    ),
];

/// Negative whole numbers likewise.
const NEGATIVE_NUMBERS: [(i64, u64, u32); 13] = [
    // small
    (-1, 0xbff0_0000_0000_0000, 0xbf80_0000),
    (-2, 0xc000_0000_0000_0000, 0xc000_0000),
    (-3, 0xc008_0000_0000_0000, 0xc040_0000),
    // middles
    (-16_777_217, 0xc170_0000_1000_0000, 0xcb80_0000),
    (-16_777_219, 0xc170_0000_3000_0000, 0xcb80_0002),
    (-9_007_199_254_740_993, 0xc340_0000_0000_0000, 0xda00_0000),
    (-9_007_199_254_740_995, 0xc340_0000_0000_0002, 0xda00_0000),
    (
        -4_611_686_293_305_294_848,
        0xc3d0_0000_1000_0000,
        0xde80_0000,
    ),
    (
        -4_611_686_843_061_108_736,
        0xc3d0_0000_3000_0000,
        0xde80_0002,
    ),
    (
        -4_611_686_018_427_388_160,
        0xc3d0_0000_0000_0000,
        0xde80_0000,
    ),
    (
        -4_611_686_018_427_388_672,
        0xc3d0_0000_0000_0001,
        0xde80_0000,
    ),
    // the least
    (
        -9_223_372_036_854_775_807,
        0xc3e0_0000_0000_0000,
        0xdf00_0000,
    ),
    (
        -9_223_372_036_854_775_808,
        0xc3e0_0000_0000_0000,
        0xdf00_0000,
    ),
];

#[test]
fn a_float_becomes_the_double_of_its_value(rt: HostRuntime) {
    for (float, double) in DOUBLES_OF_FLOATS.iter() {
        assert_eq!(rt; double_of_float(*float), *double);
    }
}

#[test]
fn a_double_becomes_the_nearest_float(rt: HostRuntime) {
    for (double, float) in FLOATS_OF_DOUBLES.iter() {
        assert_eq!(rt; float_of_double(*double), *float);
    }
}

#[test]
fn a_whole_number_becomes_the_nearest_of_both(rt: HostRuntime) {
    for (number, double, float) in WHOLE_NUMBERS.iter() {
        assert_eq!(rt; double_of_int(i128::from(*number)), *double);
        assert_eq!(rt; float_of_int(i128::from(*number)), *float);
    }
}

#[test]
fn a_negative_number_becomes_the_nearest_of_both(rt: HostRuntime) {
    for (number, double, float) in NEGATIVE_NUMBERS.iter() {
        assert_eq!(rt; double_of_int(i128::from(*number)), *double);
        assert_eq!(rt; float_of_int(i128::from(*number)), *float);
    }
}

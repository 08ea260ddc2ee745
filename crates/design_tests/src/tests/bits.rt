// Operations on rows of bits, against whole numbers.

ghost use Rattle.std.specs.Prelude.{◌≡◌, ◌≤◌, length};

use sby_bits::{
    add, concat, div, equal, extend, less, mul, reduce_and, reduce_or, reduce_xor, rem, shift_any,
    shift_left, shift_right, slice, sub,
};
use std::process::Abort;

// The lowest eight bits of a number.
fn row(n: i64) -> [bool; 8] {
    [
        n & 1 == 1,
        n >> 1 & 1 == 1,
        n >> 2 & 1 == 1,
        n >> 3 & 1 == 1,
        n >> 4 & 1 == 1,
        n >> 5 & 1 == 1,
        n >> 6 & 1 == 1,
        n >> 7 & 1 == 1,
    ]
}

// What a row of this width and number stands for.
fn value(n: u8, width: usize, signed: bool) -> i64 {
    let above = power(width);
    let n = n as i64;
    if signed && n * 2 >= above {
        n.wrapping_sub(above)
    } else {
        n
    }
}

fn power(width: usize) -> i64 {
    [1, 2, 4, 8, 16].get(width).copied().unwrap_or(0)
}

fn expect(rt: &impl Abort, name: &str, y: &[bool], want: i64) {
    let bits = row(want);
    for (i, bit) in y.iter().enumerate() {
        assert!(rt; bits.get(i) == Some(bit), "{name}: {want}");
    }
}

// Arithmetic on two rows of one width, against that on their numbers.
fn check_arithmetic(rt: &impl Abort, width: usize, m: u8, n: u8)
    requires { width ≤ 4 }
{
    let (m_bits, n_bits, mut y_bits) = (row(m as i64), row(n as i64), [false; 4]);
    let (a, b, y) = (&m_bits[..width], &n_bits[..width], &mut y_bits[..width]);
    add(a, b, y);
    expect(rt, "add", y, m as i64 + n as i64);
    sub(a, b, y);
    expect(rt, "sub", y, m as i64 - n as i64);
    mul(a, b, y);
    expect(rt, "mul", y, m as i64 * n as i64);
    for signed in [false, true] {
        let (x, z) = (value(m, width, signed), value(n, width, signed));
        div(a, b, signed, y);
        let over_zero = if x < 0 { 1 } else { -1 };
        expect(rt, "div", y, x.checked_div(z).unwrap_or(over_zero));
        rem(a, b, signed, y);
        expect(rt, "rem", y, x.checked_rem(z).unwrap_or(x));
        assert!(rt; less(a, b, signed) == (x < z), "less: {x} {z}");
    }
    assert!(rt; equal(a, b) == (m == n), "equal: {m} {n}");
}

// A number moved down by some places, or up where they are below zero.
fn moved(n: i64, places: i64) -> i64 {
    let count = places.unsigned_abs().min(63) as u32;
    if places < 0 {
        n.wrapping_shl(count)
    } else {
        n.wrapping_shr(count)
    }
}

// A row moved by the number of another of its width, and the two joined.
fn check_shifts(rt: &impl Abort, width: usize, m: u8, n: u8)
    requires { width ≤ 4 }
{
    let (m_bits, n_bits, mut y_bits) = (row(m as i64), row(n as i64), [false; 8]);
    let (a, by) = (&m_bits[..width], &n_bits[..width]);
    concat(a, by, &mut y_bits);
    expect(
        rt,
        "concat",
        &y_bits,
        moved(n as i64, -(width as i64)).wrapping_add(m as i64),
    );
    let y = &mut y_bits[..width];
    shift_left(a, by, y);
    expect(rt, "shift_left", y, moved(m as i64, -(n as i64)));
    for flag in [false, true] {
        let filled = if flag {
            (m as i64).wrapping_sub(power(width))
        } else {
            m as i64
        };
        shift_right(a, by, flag, y);
        expect(rt, "shift_right", y, moved(filled, n as i64));
        shift_any(a, by, flag, y);
        expect(rt, "shift_any", y, moved(m as i64, value(n, width, flag)));
    }
}

// One row by itself.
fn check_row(rt: &impl Abort, width: usize, m: u8)
    requires { width ≤ 4 }
{
    let (bits, mut y_bits) = (row(m as i64), [false; 8]);
    let a = &bits[..width];
    for size in 0..=8 {
        let y = &mut y_bits[..size];
        extend(a, false, y);
        expect(rt, "extend", y, m as i64);
        extend(a, true, y);
        expect(rt, "extend by the sign", y, value(m, width, true));
        slice(a, size, y);
        expect(rt, "slice", y, moved(m as i64, size as i64));
    }
    assert!(rt;
        reduce_and(a) == (m as i64 + 1 == power(width)),
        "reduce_and: {m}"
    );
    assert!(rt; reduce_or(a) == (m != 0), "reduce_or: {m}");
    assert!(rt;
        reduce_xor(a) == (m.count_ones() % 2 == 1),
        "reduce_xor: {m}"
    );
}

#[test]
fn agrees_with_whole_numbers(rt: HostRuntime) {
    for (width, numbers) in [(0, 1), (1, 2), (2, 4), (3, 8), (4, 16)] {
        for m in 0..numbers {
            check_row(&rt, width, m);
            for n in 0..numbers {
                check_arithmetic(&rt, width, m, n);
                check_shifts(&rt, width, m, n);
            }
        }
    }
}

fn four(n: i64) -> [bool; 4] {
    let [a, b, c, d, ..] = row(n);
    [a, b, c, d]
}

#[test]
fn worked_rows(rt: HostRuntime) {
    let mut y = [false; 4];
    for (fill, want) in [(true, 0b1111), (false, 0b0000)] {
        shift_right(&four(0b1000), &four(6), fill, &mut y);
        expect(&rt, "shift_right", &y, want);
    }
    for (m, n, signed, want) in [
        (7, 0, false, 0b1111),
        (-3, 0, true, 0b0001),
        (3, 0, true, 0b1111),
        (-8, -1, true, 0b1000),
    ] {
        div(&four(m), &four(n), signed, &mut y);
        expect(&rt, "div", &y, want);
    }
    for (m, n, signed, want) in [(7, 0, false, 0b0111), (-7, 2, true, 0b1111)] {
        rem(&four(m), &four(n), signed, &mut y);
        expect(&rt, "rem", &y, want);
    }
    shift_any(&four(0b0011), &[true, true], true, &mut y);
    expect(&rt, "shift_any", &y, 0b0110);
}

// Shifts by a row of ones alone, far past the width where it has no sign.
fn check_far(rt: &impl Abort, by: &[bool]) {
    let mut y = [false; 4];
    shift_left(&four(0b1111), by, &mut y);
    expect(rt, "far left", &y, 0b0000);
    shift_right(&four(0b0000), by, true, &mut y);
    expect(rt, "far right", &y, 0b1111);
    shift_any(&four(0b1111), by, false, &mut y);
    expect(rt, "far", &y, 0b0000);
    shift_any(&four(0b1111), by, true, &mut y);
    expect(rt, "one up", &y, 0b1110);
}

// The least number in two's complement, -1 and 1, at 128 bits.
fn check_widest(rt: &impl Abort, least: &[bool], ones: &[bool], one: &[bool], y: &mut [bool])
    requires least_in { length least.now ≡ 128 }
    requires ones_in { length ones.now ≡ 128 }
    requires one_in { length one.now ≡ 128 }
    requires y_in { length y.old ≡ 128 }
{
    div(least, ones, true, y);
    assert!(rt; equal(y, least), "least over -1");
    rem(least, ones, true, y);
    assert!(rt; !reduce_or(y), "what that leaves");
    mul(ones, ones, y);
    assert!(rt; equal(y, one), "-1 times -1");
    add(ones, one, y);
    assert!(rt; !reduce_or(y), "-1 plus 1");
    sub(least, one, y);
    assert!(rt;
        less(least, y, true) && less(y, least, false),
        "least less 1"
    );
}

#[test]
fn any_width(rt: HostRuntime) {
    check_far(&rt, &[true; 70]);
    check_far(&rt, &[true; 4096]);
    let (mut least, mut one) = ([false; 128], [false; 128]);
    least[127] = true;
    one[0] = true;
    check_widest(&rt, &least, &[true; 128], &one, &mut [false; 128]);
}

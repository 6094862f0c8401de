// Integers of up to 128 bits in decimal, nineteen digits at a time.
ghost use Rattle.std.specs.Prelude.{◌≡◌, ◌≤◌, ◌/◌, ◌%◌, ◌^◌, drop, replicate};
ghost use Rattle.std.specs.Fmt.{WritesOnOk, WritesStyledOnOk, decimal, formatter_spec, styled_decimal};

use itoa::write_digits;
use std::{fmt, str};

// An integer of 128 bits has 39 digits at most.
const DIGITS: usize = 40;

// The greatest power of ten of 64 bits.
const GROUP: u128 = 10_000_000_000_000_000_000;

// 2^64 is `GROUP` times 1 + `FRACTION` / 2^64, which is rounded down.
const FRACTION: u128 = 15_581_492_618_384_294_730;

/// Writes `n` in decimal under the options of `f`, as `Display` of an integer does. An error is the writer's.
#[inline]
pub fn write_decimal<W: fmt::Write>(n: u128, f: &mut fmt::Formatter<W>) -> fmt::Result
    ensures writes { WritesOnOk W.write_str_gives f.old result (decimal n) f.new }
    ensures styled { WritesStyledOnOk W.write_str_gives f.old result (styled_decimal (formatter_spec f.old) n) f.new }
{
    if f.width().is_some() || f.sign_plus() || f.alternate() {
        return fmt::Display::fmt(&n, f);
    }
    let mut buffer = [b'0'; DIGITS];
    let start = place_digits(n, &mut buffer);
    f.write_str(unsafe { str::from_utf8_unchecked(&buffer[start..]) })
}

// Places the digits at the end of a buffer of zeros, and returns where they begin.
fn place_digits(n: u128, buffer: &mut [u8; DIGITS]) -> usize
    requires { buffer.old ≡ replicate 40 48 }
    ensures within { result ≤ 40 }
    ensures written { drop result buffer.new ≡ decimal n }
{
    let mut left = n;
    let mut end = DIGITS;
    while left > u64::MAX as u128 {
        let (quotient, group) = split_group(left);
        write_digits(group, buffer, end);
        end -= 19;
        left = quotient;
    }
    write_digits(left as u64, buffer, end)
}

// The quotient and the remainder by `GROUP`. The bits above the lowest 64 give the quotient but for three at most, so that
// nothing is divided: a division of 128 bits is a call.
#[inline(always)]
fn split_group(n: u128) -> (u128, u64)
    ensures quotient { result.0 ≡ n / 10 ^ 19 }
    ensures remainder { result.1 ≡ n % 10 ^ 19 }
{
    let high = n >> 64;
    let near = high + ((high * FRACTION) >> 64);
    let rest = n - near * GROUP;
    let missing = (rest >= GROUP) as u128
        + (rest >= 2 * GROUP) as u128
        + (rest >= 3 * GROUP) as u128;
    (near + missing, (rest - missing * GROUP) as u64)
}

// Elements in hexadecimal. A `{:x}` in a format string asks for `HasDigits`, which at most 128 bits have; a call of `fmt` and a
// bound ask for `LowerHex`.
ghost use Rattle.std.specs.Prelude.{◌≡◌, ◌<◌, ◌^◌, true, false};
ghost use Rattle.std.specs.Fmt.{WritesOnOk, digits};
ghost use Rattle.word_polynomial.specs.Triple.{hexadecimal_of};
ghost use Rattle.field_element.specs.Coefficients.{stored_words};
ghost use Rattle.field_element.specs.Element.{number_of_64_bits};

use crate::element::{Coefficients, Element};
use field_base::{FieldKernel, Unsigned};
use std::fmt;
use word_carryless::split_128;

// What `{:x}`, `{:X}`, `{:o}` and `{:b}` of a format string write.
impl<R: Unsigned, K: FieldKernel<R>> fmt::HasDigits for Element<R, K> {
    ghost word = { λ x. number_of_64_bits (R.number x.repr) };

    fn bits(self) -> (u64, u64) {
        let (low, high) = split_128(self.repr.to_u128());
        (high, low)
    }
}

impl<R: Unsigned, K: FieldKernel<R>> fmt::LowerHex for Element<R, K> {
    fn fmt<W: fmt::Write>(&self, f: &mut fmt::Formatter<W>) -> fmt::Result
        ensures { R.number self.now.repr < 2 ^ 64
            → WritesOnOk W.write_str_gives f.old result (digits 16 false (R.number self.now.repr)) f.new }
    {
        let (low, high) = split_128(self.repr.to_u128());
        if high == 0 {
            fmt::LowerHex::fmt(&low, f)
        } else {
            fmt::LowerHex::fmt(&self.repr.to_u128(), f)
        }
    }
}

impl<R: Unsigned, K: FieldKernel<R>> fmt::UpperHex for Element<R, K> {
    fn fmt<W: fmt::Write>(&self, f: &mut fmt::Formatter<W>) -> fmt::Result
        ensures { R.number self.now.repr < 2 ^ 64
            → WritesOnOk W.write_str_gives f.old result (digits 16 true (R.number self.now.repr)) f.new }
    {
        let (low, high) = split_128(self.repr.to_u128());
        if high == 0 {
            fmt::UpperHex::fmt(&low, f)
        } else {
            fmt::UpperHex::fmt(&self.repr.to_u128(), f)
        }
    }
}

// The cubic extension, as `A + B*y + C*y^2`.
impl<K: FieldKernel<Coefficients>> fmt::LowerHex for Element<Coefficients, K> {
    fn fmt<W: fmt::Write>(&self, f: &mut fmt::Formatter<W>) -> fmt::Result
        ensures { WritesOnOk W.write_str_gives f.old result (hexadecimal_of false (stored_words self.now.repr)) f.new }
    {
        fmt::LowerHex::fmt(&self.repr, f)
    }
}

impl<K: FieldKernel<Coefficients>> fmt::UpperHex for Element<Coefficients, K> {
    fn fmt<W: fmt::Write>(&self, f: &mut fmt::Formatter<W>) -> fmt::Result
        ensures { WritesOnOk W.write_str_gives f.old result (hexadecimal_of true (stored_words self.now.repr)) f.new }
    {
        fmt::UpperHex::fmt(&self.repr, f)
    }
}

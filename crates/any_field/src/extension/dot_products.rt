// Sums of products of slices, which are reduced once, at their end: a place takes one carryless product of words as wide as the elements.
ghost use Rattle.std.specs.Prelude.{◌≡◌, ◌≤◌, length};
ghost use Rattle.field_base.specs.Powers.{dot_of};
ghost use Rattle.any_field.specs.Contexts.{field_product};

use crate::extension::BinaryExtension;
use crate::reduction::{low_bits, reduce, reduce_half, reduce_word};
use field_base::Holds;
use word_carryless::{multiply_32, multiply_64, multiply_128};

impl BinaryExtension {
    /// The sum of the products of the words at each place, which is 0 of none. Both slices have to be of one length. The products are
    /// reduced once, at the end.
    pub fn dot_product(self, left: &[u128], right: &[u128]) -> u128
        requires { length right.now ≡ length left.now }
        ensures { result ≡ dot_of (field_product self.degree self.tail) (λ x. x) left.now right.now }
    {
        self.dot_product_of_words(left, right)
    }

    /// The same of words that hold numbers of 128 bits, as those of other languages do.
    pub fn dot_product_of_words<W: Holds<u128>>(self, left: &[W], right: &[W]) -> u128
        requires { length right.now ≡ length left.now }
        ensures { result ≡ dot_of (field_product self.degree self.tail) W.number left.now right.now }
    {
        if self.degree <= 32 {
            self.sum_of_half_words(left, right)
        } else if self.degree <= 64 {
            self.sum_of_words(left, right)
        } else {
            self.sum_of_double_words(left, right)
        }
    }

    // The sum of products of words of 32 bits.
    fn sum_of_half_words<W: Holds<u128>>(self, left: &[W], right: &[W]) -> u128
        requires narrow { self.degree ≤ 32 }
        requires beside { length right.now ≡ length left.now }
        ensures { result ≡ dot_of (field_product self.degree self.tail) W.number left.now right.now }
    {
        let mut sum: u64 = 0;
        for place in 0..left.len() {
            let x = low_bits(left[place].stored(), self.degree);
            let y = low_bits(right[place].stored(), self.degree);
            sum ^= multiply_32(x as u32, y as u32);
        }
        reduce_half(self.degree, self.tail, self.ratio, sum)
    }

    // The sum of products of words of 64 bits.
    fn sum_of_words<W: Holds<u128>>(self, left: &[W], right: &[W]) -> u128
        requires narrow { self.degree ≤ 64 }
        requires beside { length right.now ≡ length left.now }
        ensures { result ≡ dot_of (field_product self.degree self.tail) W.number left.now right.now }
    {
        let mut sum: u128 = 0;
        for place in 0..left.len() {
            let x = low_bits(left[place].stored(), self.degree);
            let y = low_bits(right[place].stored(), self.degree);
            sum ^= multiply_64(x as u64, y as u64);
        }
        reduce_word(self.degree, self.tail, self.ratio, sum)
    }

    // The sum of products of words of 128 bits.
    fn sum_of_double_words<W: Holds<u128>>(self, left: &[W], right: &[W]) -> u128
        requires { length right.now ≡ length left.now }
        ensures { result ≡ dot_of (field_product self.degree self.tail) W.number left.now right.now }
    {
        let mut low: u128 = 0;
        let mut high: u128 = 0;
        for place in 0..left.len() {
            let x = low_bits(left[place].stored(), self.degree);
            let y = low_bits(right[place].stored(), self.degree);
            let (product_low, product_high) = multiply_128(x, y);
            low ^= product_low;
            high ^= product_high;
        }
        reduce(self.degree, self.tail, self.ratio, low, high)
    }
}

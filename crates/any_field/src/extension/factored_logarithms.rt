// Discrete logarithms by the prime factors of the order of the base (S. Pohlig and M. Hellman, An improved algorithm for computing logarithms
// over GF(p) and its cryptographic significance, 1978). What the factors give is tested: of it nothing is said here.
ghost use Rattle.std.specs.Prelude.{◌≡◌, ◌≢◌, ◌%◌, ◌^◌, ◌<◌, ℕ, IfNone, IfSome};
ghost use Rattle.field_base.specs.Powers.{power};
ghost use Rattle.any_field.specs.Contexts.{field_product};
ghost use Rattle.any_field.specs.Orders.{IsOrder, TableIsPrime};

use crate::extension::BinaryExtension;
use crate::extension::orders::{COUNT, prime_at};
use crate::reduction::low_bits;

/// Logarithms to one base, whose order is found once for many elements.
#[derive(Clone, Copy)]
pub struct Logarithms {
    field: BinaryExtension,
    base: u128,
    // the order of the base, and 0 where the base is 0
    order: u128,
    ghost one: { 0 < order → power 1 (field_product field.degree field.tail) base order ≡ 1 },
    ghost least: { TableIsPrime → 0 < order → IsOrder (field_product field.degree field.tail) base order },
}

impl BinaryExtension {
    /// The logarithm of an element: an exponent to which the power of `base` is `x`. `None` exactly where no power is. It takes about as many
    /// products as the greatest prime factor of the order is, so that it is for fields where 2^degree - 1 has small factors alone, as of 32, 48
    /// or 64 bits. That no lower exponent is one rests on the table of primes, as `order` does.
    pub fn logarithm_by_factors(self, x: u128, base: u128) -> Option<u128>
        ensures found { IfSome result (λ e. power 1 (field_product self.degree self.tail) base e ≡ x % 2 ^ self.degree) }
        ensures least { IfSome result (λ e. TableIsPrime → (k : ℕ) → k < e
            → power 1 (field_product self.degree self.tail) base k ≢ x % 2 ^ self.degree) }
        ensures none { IfNone result ((k : ℕ) → power 1 (field_product self.degree self.tail) base k ≢ x % 2 ^ self.degree) }
    {
        self.logarithms(base).of(x)
    }

    /// The logarithms to `base`. It takes some tens of powers, by which the order of the base is found.
    pub fn logarithms(self, base: u128) -> Logarithms
        ensures field { result.field ≡ self }
        ensures base { result.base ≡ base }
    {
        match self.order(base) {
            None => Logarithms {
                field: self,
                base,
                order: 0,
            },
            Some(order) => Logarithms {
                field: self,
                base,
                order,
            },
        }
    }

    // What is likely to be the logarithm of an element that is a power of the base: modulo a product of factors of the order so far, and then
    // of one prime more, by the power at which only that prime is left.
    fn likely_logarithm(self, x: u128, base: u128, order: u128) -> u128 {
        let inverse = self.invert(base);
        let mut exponent: u128 = 0;
        let mut part: u128 = 1;
        let mut rest = order;
        for place in 0..COUNT {
            // The primes rise, so that behind the greatest factor there are many more.
            if rest <= 1 {
                return exponent;
            }
            let prime = prime_at(place);
            while rest != 0 && rest % prime == 0 {
                rest /= prime;
                let left = self.multiply(x, self.power(inverse, exponent));
                let root = self.power(base, order / prime);
                let digit = self.steps_to(self.power(left, rest), root, prime);
                exponent = exponent.wrapping_add(digit.wrapping_mul(part));
                part = part.wrapping_mul(prime);
            }
        }
        exponent
    }

    // How many products by `root` lead from 1 to the element, or `most` where fewer do not.
    fn steps_to(self, element: u128, root: u128, most: u128) -> u128 {
        let mut power: u128 = 1;
        let mut steps: u128 = 0;
        while steps < most && power != element {
            power = self.multiply(power, root);
            steps += 1;
        }
        steps
    }
}

impl Logarithms {
    /// The logarithm of an element: an exponent to which the power of the base is `x`. `None` exactly where no power is. It takes about as many
    /// products as the greatest prime factor of the order is. That no lower exponent is one rests on the table of primes, as
    /// `BinaryExtension::order` does.
    pub fn of(self, x: u128) -> Option<u128>
        ensures found { IfSome result
            (λ e. power 1 (field_product self.field.degree self.field.tail) self.base e ≡ x % 2 ^ self.field.degree) }
        ensures least { IfSome result (λ e. TableIsPrime → (k : ℕ) → k < e
            → power 1 (field_product self.field.degree self.field.tail) self.base k ≢ x % 2 ^ self.field.degree) }
        ensures none { IfNone result
            ((k : ℕ) → power 1 (field_product self.field.degree self.field.tail) self.base k ≢ x % 2 ^ self.field.degree) }
    {
        let element = low_bits(x, self.field.degree);
        if self.order != 0 {
            if self.field.power(element, self.order) != 1 {
                return None;
            }
            let likely = self.field.likely_logarithm(element, self.base, self.order);
            let exponent = likely % self.order;
            if self.field.power(self.base, exponent) == element {
                return Some(exponent);
            }
        }
        self.field.logarithm(element, self.base)
    }
}

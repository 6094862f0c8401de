// Primitive elements of a field: those whose order is the number of the nonzero elements, 2^degree - 1. An element that is not 0 is one
// where its power to (2^degree - 1) / p is not 1, for each prime p that divides 2^degree - 1 (R. Lidl and H. Niederreiter, Finite Fields,
// chapter 3). The table has the primes that divide 2^m - 1 for an m of 1 to 128.
ghost use Rattle.std.specs.Prelude.{◌≡◌, ◌≢◌, ◌/◌, ◌%◌, ◌^◌, ◌<◌, ◌↔◌, ℕ, IfNone, IfSome, IsTrue, slice_index};
ghost use Rattle.field_base.specs.Orders.{HasFullOrder};
ghost use Rattle.field_base.specs.Powers.{power};
ghost use Rattle.any_field.specs.Contexts.{field_product};
ghost use Rattle.any_field.specs.Orders.{IsOrder, TableIsPrime};
ghost use Rattle.any_field.specs.declared.extension.orders.literals.TheConstants.{PRIMES};

mod literals;

use crate::extension::BinaryExtension;
use crate::reduction::low_bits;

/// How many primes the table has.
pub(crate) const COUNT: usize = 233;

/// The prime at a place of the table.
pub(crate) fn prime_at(place: usize) -> u128
    requires { place < 233 }
    ensures entry { result ≡ slice_index PRIMES place }
    ensures above { 1 < result }
{
    literals::PRIMES[place]
}

impl BinaryExtension {
    /// Whether the element is primitive: its powers are all elements but 0, so that its order is 2^degree - 1. An element that is primitive
    /// is never refused; that others are rests on the primality of the numbers in a table, of which scripts/make-tables has a test.
    pub fn is_primitive(self, x: u128) -> bool
        ensures complete { HasFullOrder self.degree (field_product self.degree self.tail) x → IsTrue result }
        ensures sound { TableIsPrime → IsTrue result → HasFullOrder self.degree (field_product self.degree self.tail) x }
    {
        if low_bits(x, self.degree) == 0 {
            return false;
        }
        let order = low_bits(u128::MAX, self.degree);
        for place in 0..COUNT {
            if self.fails_at(x, order, prime_at(place)) {
                return false;
            }
        }
        true
    }

    // Whether a prime divides the order of the group, and the element to the power of the quotient is 1.
    fn fails_at(self, x: u128, order: u128, prime: u128) -> bool
        requires { 1 < prime }
        ensures { IsTrue result ↔ ((order % prime ≡ 0) × (power 1 (field_product self.degree self.tail) x (order / prime) ≡ 1)) }
    {
        order % prime == 0 && self.power(x, order / prime) == 1
    }

    /// The order of the element: the least exponent above 0 to which its power is 1, a divisor of 2^degree - 1. `None` exactly for 0, which
    /// has none. That no lower exponent is one rests on the table, as `is_primitive` does.
    pub fn order(self, x: u128) -> Option<u128>
        ensures one { IfSome result (λ e. (0 < e) × (power 1 (field_product self.degree self.tail) x e ≡ 1)) }
        ensures order { IfSome result (λ e. TableIsPrime → IsOrder (field_product self.degree self.tail) x e) }
        ensures none { IfNone result (x % 2 ^ self.degree ≡ 0) }
        ensures some { IfSome result (λ e. x % 2 ^ self.degree ≢ 0) }
    {
        let element = low_bits(x, self.degree);
        if element == 0 {
            return None;
        }
        let mut order = low_bits(u128::MAX, self.degree);
        for place in 0..COUNT {
            order = self.without_prime(x, order, prime_at(place));
        }
        Some(order)
    }

    // What is left of an exponent to which the power is 1, once it is divided by a prime as long as the power stays 1.
    fn without_prime(self, x: u128, exponent: u128, prime: u128) -> u128
        requires above { 1 < prime }
        requires some { 0 < exponent }
        requires one { power 1 (field_product self.degree self.tail) x exponent ≡ 1 }
        ensures some { 0 < result }
        ensures one { power 1 (field_product self.degree self.tail) x result ≡ 1 }
        ensures divides { exponent % result ≡ 0 }
        ensures last { result % prime ≡ 0 → power 1 (field_product self.degree self.tail) x (result / prime) ≢ 1 }
    {
        let mut rest = exponent;
        while self.fails_at(x, rest, prime) {
            rest /= prime;
        }
        rest
    }

    /// The least primitive element, where it is below 65,536, as it is for every field that has been looked at.
    pub fn primitive_element(self) -> Option<u128>
        ensures primitive { IfSome result (λ g. TableIsPrime → HasFullOrder self.degree (field_product self.degree self.tail) g) }
        ensures least { IfSome result (λ g. (y : ℕ) → y < g → HasFullOrder self.degree (field_product self.degree self.tail) y → ⊥) }
        ensures none { IfNone result ((y : ℕ) → y < 65536 → HasFullOrder self.degree (field_product self.degree self.tail) y → ⊥) }
    {
        for word in 0..65536u32 {
            if self.is_primitive(word as u128) {
                return Some(word as u128);
            }
        }
        None
    }
}

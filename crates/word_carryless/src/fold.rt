// The remainder of a product of two words, or of two double words, modulo the polynomials of two fields.
//
// The modulus is x^w and a tail of low degree, so that x^w is congruent to the tail: the high half times the tail is added
// to the low half, and so is the tail times what this spills past x^w.
//
//     high | low   ->   low + high * tail   ->   low + (high * tail) % x^w + spill * tail
ghost use Rattle.std.specs.Prelude.{◌≡◌, ◌/◌, ◌%◌, ◌*◌, ◌+◌, ◌^◌};
ghost use Rattle.field_base.specs.Carryless.{carryless};
ghost use Rattle.field_base.specs.Remainder.{ghash_modulus, poly64_modulus, rem};
ghost use Rattle.word_carryless.specs.Tail.{ghash_tail, poly64_tail};

/// The remainder of `high x^64 + low` modulo x^64 + x^4 + x^3 + x + 1.
pub fn reduce_64(low: u64, high: u64) -> u64
    ensures { result ≡ rem 64 poly64_modulus (high * 2 ^ 64 + low) }
{
    low ^ times_tail_64(high) ^ times_tail_64(spill_64(high))
}

/// The remainder of `high x^128 + low` modulo x^128 + x^7 + x^2 + x + 1, the modulus of GHASH (NIST SP 800-38D), where
/// bit i is the coefficient of x^i.
pub fn reduce_128(low: u128, high: u128) -> u128
    ensures { result ≡ rem 128 ghash_modulus (high * 2 ^ 128 + low) }
{
    low ^ times_tail_128(high) ^ times_tail_128(spill_128(high))
}

/// The terms below x^64 of the product by x^4 + x^3 + x + 1.
fn times_tail_64(h: u64) -> u64
    ensures { result ≡ carryless h poly64_tail % 2 ^ 64 }
{
    (h << 4) ^ (h << 3) ^ (h << 1) ^ h
}

/// The terms from x^64 on of the product by x^4 + x^3 + x + 1, divided by x^64.
fn spill_64(h: u64) -> u64
    ensures { result ≡ carryless h poly64_tail / 2 ^ 64 }
{
    (h >> 60) ^ (h >> 61) ^ (h >> 63)
}

/// The terms below x^128 of the product by x^7 + x^2 + x + 1.
fn times_tail_128(h: u128) -> u128
    ensures { result ≡ carryless h ghash_tail % 2 ^ 128 }
{
    (h << 7) ^ (h << 2) ^ (h << 1) ^ h
}

/// The terms from x^128 on of the product by x^7 + x^2 + x + 1, divided by x^128.
fn spill_128(h: u128) -> u128
    ensures { result ≡ carryless h ghash_tail / 2 ^ 128 }
{
    (h >> 121) ^ (h >> 126) ^ (h >> 127)
}

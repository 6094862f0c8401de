// Three words as the word that stores an element, and other words that hold the same three.
ghost use prog.Memory.{size};
ghost use denote.Param.{layout};
ghost use Rattle.std.specs.Prelude.{◌≡◌, ◌<◌, ◌≤◌, ◌*◌, ◌^◌, refl};
ghost use Rattle.std.proofs.Common.{lit<, lit≤, rules};
ghost use Rattle.field_base.specs.lemmas.Room.{few_fit};
ghost use Rattle.word_polynomial.specs.Cubic.{triple};
ghost use Rattle.word_polynomial.specs.Triple.{triple_number};
ghost use Rattle.word_polynomial.specs.lemmas.Triple.{fits_192, same_number, triple-chunks, triple_of_number, words_law};

use crate::triple::Triple;
use field_base::Stored;

impl Stored for Triple {
    ghost number = { triple_number };

    ghost bits = { 192 };

    ghost of_number = { triple_of_number };

    ghost number_of = { λ n. triple-chunks 64 n };

    const ZERO: Triple = Triple {
        c0: 0,
        c1: 0,
        c2: 0,
    };

    ghost ZERO = { triple_of_number 0 };

    const ONE: Triple = Triple {
        c0: 1,
        c1: 0,
        c2: 0,
    };

    ghost ONE = { triple_of_number 1 };

    ghost zero_number = { refl };

    ghost one_number = { refl };

    ghost same_law = { same_number };

    #[inline]
    fn xor(self, other: Triple) -> Triple {
        Triple::xor(self, other)
    }

    fn of_index(i: usize) -> Triple {
        Triple::of_low(i as u64)
    }

    #[inline(always)]
    fn words_fit(words: &[Triple]) {}

    ghost eq_law = { λ x y. words_law x y (Prim.search rules) };

    ghost room_law = { few_fit 1024 24 (lit< tt) };
}

/// A stored word that holds three words of 64 bits, as three elements of GF(2^64) do that can be lent.
pub trait HoldsTriple: Stored {
    /// The word of 5 + 3 y + y².
    const GENERATOR: Self;

    ghost GENERATOR: { Self };

    /// The three words that it holds.
    fn to_triple(self) -> Triple
        ensures { triple_number result ≡ Self.number self };

    /// The word that holds three words.
    fn of_triple(words: Triple) -> Self
        ensures { Self.number result ≡ triple_number words };

    ghost triple_law: { 192 ≤ Self.bits };

    ghost range_law: { (x : Self) → Self.number x < 2 ^ 192 };

    ghost generator_law: { GENERATOR ≡ Self.of_number (triple 64 5 3 1) };
}

impl HoldsTriple for Triple {
    const GENERATOR: Triple = Triple {
        c0: 5,
        c1: 3,
        c2: 1,
    };

    ghost GENERATOR = { triple_of_number (triple 64 5 3 1) };

    #[inline]
    fn to_triple(self) -> Triple {
        self
    }

    #[inline]
    fn of_triple(words: Triple) -> Triple {
        words
    }

    ghost triple_law = { lit≤ tt };

    ghost range_law = { fits_192 };

    ghost generator_law = { refl };
}

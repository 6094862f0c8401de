// The coefficients that store an element of `Poly192` are compared, hashed, written, read and drawn as their words.
ghost use Rattle.std.specs.Prelude.{None, true, false};
ghost use Rattle.std.proofs.Common.{ap, rules};
ghost use Rattle.std.specs.Cmp.{on_equiv, on_per, on_po, on_total, partial_order_from_own_ties};
ghost use Rattle.std.specs.Cmp.Rules.{comparing};
ghost use Rattle.std.specs.Fmt.{WritesOnOk};
ghost use Rattle.field_element.specs.Coefficients.{stored_words};
ghost use Rattle.word_polynomial.specs.Triple.{events_of, hexadecimal_of};
ghost use Rattle.word_polynomial.specs.lemmas.Triple.{same_number, words_law};

use crate::element::Coefficients;
use field_base::ReadWord;
use rand::distr::SampleStandard;
use rand_core::Rng;
use serde::{
    Described, Deserialize, DeserializeOwned, Deserializer, Format, Serialize, Serializer,
};
use std::alloc::Global;
use std::cmp::Ordering;
use std::fmt;
use std::hash::{Hash, Hasher};
use word_polynomial::Triple;

impl PartialEq for Coefficients {
    ghost eq = { λ x y. ⟦<Triple as PartialEq>⟧.eq (stored_words x) (stored_words y) };

    ghost laws = { on_per stored_words {E = ⟦<Triple as PartialEq>⟧.eq} (Prim.search (comparing, rules)) };

    #[inline]
    fn eq(&self, other: &Coefficients) -> bool {
        self.words() == other.words()
    }
}

impl Eq for Coefficients {
    ghost laws = { on_equiv stored_words {E = ⟦<Triple as PartialEq>⟧.eq} (Prim.search (comparing, rules)) };
}

impl PartialOrd for Coefficients {
    ghost partial_cmp = { λ x y. ⟦<Triple as PartialOrd>⟧.partial_cmp (stored_words x) (stored_words y) };

    ghost laws = { on_po stored_words {E = ⟦<Triple as PartialEq>⟧.eq} {C = ⟦<Triple as PartialOrd>⟧.partial_cmp}
        (partial_order_from_own_ties (Prim.search (comparing, rules)) (Prim.search (comparing, rules))) };

    #[inline]
    fn partial_cmp(&self, other: &Coefficients) -> Option<Ordering> {
        self.words().partial_cmp(&other.words())
    }
}

impl Ord for Coefficients {
    ghost cmp = { λ x y. ⟦<Triple as Ord>⟧.cmp (stored_words x) (stored_words y) };

    ghost total = { on_total stored_words {R = ⟦<Triple as Ord>⟧.cmp} (Prim.search (comparing, rules)) };

    ghost matches_partial_cmp = { Prim.search (comparing, rules) };

    ghost matches_eq = { Prim.search (comparing, rules) };

    #[inline]
    fn cmp(&self, other: &Coefficients) -> Ordering {
        self.words().cmp(&other.words())
    }
}

impl Hash for Coefficients {
    ghost hash_input = { λ x. ⟦<Triple as Hash>⟧.hash_input (stored_words x) };

    ghost respects_eq = { λ x y same. ap ⟦<Triple as Hash>⟧.hash_input
        (same_number (stored_words x) (stored_words y) ((words_law (stored_words x) (stored_words y) (Prim.search rules)).0 same)) };

    fn hash<H: Hasher>(&self, state: &mut H) {
        self.words().hash(state);
    }
}

impl fmt::Debug for Coefficients {
    ghost debug_output = { λ x. ⟦<Triple as fmt::Debug>⟧.debug_output (stored_words x) };

    fn fmt<W: fmt::Write>(&self, f: &mut fmt::Formatter<W>) -> fmt::Result {
        fmt::Debug::fmt(&self.words(), f)
    }
}

impl fmt::Display for Coefficients {
    ghost output = { λ x. ⟦<Triple as fmt::Display>⟧.output (stored_words x) };

    fn fmt<W: fmt::Write>(&self, f: &mut fmt::Formatter<W>) -> fmt::Result {
        fmt::Display::fmt(&self.words(), f)
    }
}

impl fmt::LowerHex for Coefficients {
    fn fmt<W: fmt::Write>(&self, f: &mut fmt::Formatter<W>) -> fmt::Result
        ensures { WritesOnOk W.write_str_gives f.old result (hexadecimal_of false (stored_words self.now)) f.new }
    {
        fmt::LowerHex::fmt(&self.words(), f)
    }
}

impl fmt::UpperHex for Coefficients {
    fn fmt<W: fmt::Write>(&self, f: &mut fmt::Formatter<W>) -> fmt::Result
        ensures { WritesOnOk W.write_str_gives f.old result (hexadecimal_of true (stored_words self.now)) f.new }
    {
        fmt::UpperHex::fmt(&self.words(), f)
    }
}

impl Described for Coefficients {
    ghost writes = { λ x. ⟦<Triple as Described>⟧.writes (stored_words x) };
}

impl Serialize for Coefficients {
    fn serialize<S: Serializer>(&self, out: &mut S) -> Result<(), S::Error> {
        self.words().serialize(out)
    }
}

impl<'de> Deserialize<'de> for Coefficients {
    fn deserialize<F: Format>(
        alloc: Global,
        from: &mut Deserializer<'de, '_, F>,
    ) -> Result<Coefficients, F::Error> {
        Coefficients::read(alloc, from)
    }
}

impl DeserializeOwned for Coefficients {
    fn deserialize_owned<F: Format>(
        alloc: Global,
        from: &mut Deserializer<'_, '_, F>,
    ) -> Result<Coefficients, F::Error> {
        Coefficients::read(alloc, from)
    }
}

impl ReadWord for Coefficients {
    ghost events = { λ x. events_of (stored_words x) };

    fn read<F: Format>(
        _alloc: Global,
        from: &mut Deserializer<'_, '_, F>,
    ) -> Result<Coefficients, F::Error> {
        Ok(Coefficients::of_words(Triple::read(from)?))
    }
}

impl SampleStandard for Coefficients {
    ghost draws = { λ s x t. ⟦<Triple as SampleStandard>⟧.draws s (stored_words x) t };

    #[inline]
    fn sample_standard<G: Rng>(rng: &mut G) -> Coefficients {
        Coefficients::of_words(Triple::sample_standard(rng))
    }
}

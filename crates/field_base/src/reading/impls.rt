// Written by scripts/make_impls.py; do not edit.
// The unsigned integers of Rust as `serde` reads them.
ghost use Rattle.std.specs.Prelude.{IfOk, List, [], ◌∷◌};
ghost use Rattle.serde.specs.Event.{Event, unsigned};
ghost use Rattle.field_base.specs.Steps.{GivesEach};

use crate::reading::ReadWord;
use serde::{DeserializeOwned, Deserializer, Format};
use std::alloc::Global;

impl ReadWord for u8 {
    ghost events = { λ word. unsigned word ∷ [] };

    #[tactic(auto, using(crate::proofs::Steps::one_number))]
    fn read<F: Format>(alloc: Global, from: &mut Deserializer<'_, '_, F>) -> Result<u8, F::Error> {
        u8::deserialize_owned(alloc, from)
    }
}

impl ReadWord for u16 {
    ghost events = { λ word. unsigned word ∷ [] };

    #[tactic(auto, using(crate::proofs::Steps::one_number))]
    fn read<F: Format>(alloc: Global, from: &mut Deserializer<'_, '_, F>) -> Result<u16, F::Error> {
        u16::deserialize_owned(alloc, from)
    }
}

impl ReadWord for u32 {
    ghost events = { λ word. unsigned word ∷ [] };

    #[tactic(auto, using(crate::proofs::Steps::one_number))]
    fn read<F: Format>(alloc: Global, from: &mut Deserializer<'_, '_, F>) -> Result<u32, F::Error> {
        u32::deserialize_owned(alloc, from)
    }
}

impl ReadWord for u64 {
    ghost events = { λ word. unsigned word ∷ [] };

    #[tactic(auto, using(crate::proofs::Steps::one_number))]
    fn read<F: Format>(alloc: Global, from: &mut Deserializer<'_, '_, F>) -> Result<u64, F::Error> {
        u64::deserialize_owned(alloc, from)
    }
}

impl ReadWord for u128 {
    ghost events = { λ word. unsigned word ∷ [] };

    #[tactic(auto, using(crate::proofs::Steps::one_number))]
    fn read<F: Format>(
        alloc: Global,
        from: &mut Deserializer<'_, '_, F>,
    ) -> Result<u128, F::Error> {
        u128::deserialize_owned(alloc, from)
    }
}

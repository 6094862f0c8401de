// Every associated type of every field, by its name: a constant of the type `PhantomData<X>` that is given as `PhantomData::<Y>` compiles
// only where Y is X. There is a row for each field, or for each field over a smaller one, and a column for each associated type of the
// traits that fields have: those of rings, of fields, of levels, of packings, of extensions, of vectors, of bytes and of operators.
use field_base::Gf2;
use field_base::traits::{Field, PrimeCharacteristicRing, TowerLevel};
use field_bytes::RawDataSerializable;
use field_element::{
    BinaryField2, BinaryField4, BinaryField8, BinaryField16, BinaryField32, BinaryField64,
    BinaryField128, Ghash128, PackedGhash128, PackedRijndael8b, Poly64, Poly192, Rijndael8b,
};
use field_space::{BasisCoefficients, ExtensionField};
use packed_lanes::{PackedField, PackedValue};
use std::marker::PhantomData;
use std::ops::{Add, Div, Mul, Neg, Sub};

// The subfield of a prime number of elements, the packing, and the bytes; of a lane of the packing the value and the field, and the
// packing's prime subfield; the results of the operators of two elements, and of one; over the field itself, the packing and the array of
// an element's coefficient.
type OfField<F> = (
    <F as PrimeCharacteristicRing>::PrimeSubfield,
    <F as Field>::Packing,
    <F as RawDataSerializable>::Bytes,
    <<F as Field>::Packing as PackedValue>::Value,
    <<F as Field>::Packing as PackedField>::Scalar,
    <<F as Field>::Packing as PrimeCharacteristicRing>::PrimeSubfield,
    <F as Add>::Output,
    <F as Sub>::Output,
    <F as Mul>::Output,
    <F as Div>::Output,
    <F as Neg>::Output,
    <F as ExtensionField<F>>::ExtensionPacking,
    <F as BasisCoefficients<F>>::Coefficients,
);

// These, where the packing is P and an element has N bytes.
type Wanted<F, P, const N: usize> = (Gf2, P, [u8; N], F, F, Gf2, F, F, F, F, F, F, [F; 1]);

// These, where the field is its own packing.
type Own<F, const N: usize> = Wanted<F, F, N>;

const OF_GF2: PhantomData<Own<Gf2, 1>> = PhantomData::<OfField<Gf2>>;

const OF_2: PhantomData<Own<BinaryField2, 1>> = PhantomData::<OfField<BinaryField2>>;

const OF_4: PhantomData<Own<BinaryField4, 1>> = PhantomData::<OfField<BinaryField4>>;

const OF_8: PhantomData<Own<BinaryField8, 1>> = PhantomData::<OfField<BinaryField8>>;

const OF_16: PhantomData<Own<BinaryField16, 2>> = PhantomData::<OfField<BinaryField16>>;

const OF_32: PhantomData<Own<BinaryField32, 4>> = PhantomData::<OfField<BinaryField32>>;

const OF_64: PhantomData<Own<BinaryField64, 8>> = PhantomData::<OfField<BinaryField64>>;

const OF_128: PhantomData<Own<BinaryField128, 16>> = PhantomData::<OfField<BinaryField128>>;

const OF_RIJNDAEL: PhantomData<Wanted<Rijndael8b, PackedRijndael8b<16>, 1>> = PhantomData::<
    OfField<Rijndael8b>,
>;

const OF_POLY64: PhantomData<Own<Poly64, 8>> = PhantomData::<OfField<Poly64>>;

const OF_GHASH: PhantomData<Wanted<Ghash128, PackedGhash128, 16>> = PhantomData::<
    OfField<Ghash128>,
>;

const OF_POLY192: PhantomData<Own<Poly192, 24>> = PhantomData::<OfField<Poly192>>;

// What stores an element of a field that has level k's 2^(2^k) elements.
type Repr<F> = <F as TowerLevel>::Repr;

const REPR_OF_GF2: PhantomData<u8> = PhantomData::<Repr<Gf2>>;

const REPR_OF_2: PhantomData<u8> = PhantomData::<Repr<BinaryField2>>;

const REPR_OF_4: PhantomData<u8> = PhantomData::<Repr<BinaryField4>>;

const REPR_OF_8: PhantomData<u8> = PhantomData::<Repr<BinaryField8>>;

const REPR_OF_16: PhantomData<u16> = PhantomData::<Repr<BinaryField16>>;

const REPR_OF_32: PhantomData<u32> = PhantomData::<Repr<BinaryField32>>;

const REPR_OF_64: PhantomData<u64> = PhantomData::<Repr<BinaryField64>>;

const REPR_OF_128: PhantomData<u128> = PhantomData::<Repr<BinaryField128>>;

const REPR_OF_RIJNDAEL: PhantomData<u8> = PhantomData::<Repr<Rijndael8b>>;

const REPR_OF_POLY64: PhantomData<u64> = PhantomData::<Repr<Poly64>>;

const REPR_OF_GHASH: PhantomData<u128> = PhantomData::<Repr<Ghash128>>;

// The packing of a field over a smaller one, the array of an element's coefficients, and the results of the operators of an element and one
// of the smaller field.
type Over<F, S> = (
    <F as ExtensionField<S>>::ExtensionPacking,
    <F as BasisCoefficients<S>>::Coefficients,
    <F as Add<S>>::Output,
    <F as Sub<S>>::Output,
    <F as Mul<S>>::Output,
    <S as Mul<F>>::Output,
);

type Whole<F, S, const N: usize> = (F, [S; N], F, F, F, F);

const TOWER_16_OVER_8: PhantomData<Whole<BinaryField16, BinaryField8, 2>> = PhantomData::<
    Over<BinaryField16, BinaryField8>,
>;

const TOWER_32_OVER_8: PhantomData<Whole<BinaryField32, BinaryField8, 4>> = PhantomData::<
    Over<BinaryField32, BinaryField8>,
>;

const TOWER_32_OVER_16: PhantomData<Whole<BinaryField32, BinaryField16, 2>> = PhantomData::<
    Over<BinaryField32, BinaryField16>,
>;

const TOWER_64_OVER_8: PhantomData<Whole<BinaryField64, BinaryField8, 8>> = PhantomData::<
    Over<BinaryField64, BinaryField8>,
>;

const TOWER_64_OVER_16: PhantomData<Whole<BinaryField64, BinaryField16, 4>> = PhantomData::<
    Over<BinaryField64, BinaryField16>,
>;

const TOWER_64_OVER_32: PhantomData<Whole<BinaryField64, BinaryField32, 2>> = PhantomData::<
    Over<BinaryField64, BinaryField32>,
>;

const TOWER_128_OVER_2: PhantomData<Whole<BinaryField128, BinaryField2, 64>> = PhantomData::<
    Over<BinaryField128, BinaryField2>,
>;

const TOWER_128_OVER_8: PhantomData<Whole<BinaryField128, BinaryField8, 16>> = PhantomData::<
    Over<BinaryField128, BinaryField8>,
>;

const TOWER_128_OVER_16: PhantomData<Whole<BinaryField128, BinaryField16, 8>> = PhantomData::<
    Over<BinaryField128, BinaryField16>,
>;

const TOWER_128_OVER_32: PhantomData<Whole<BinaryField128, BinaryField32, 4>> = PhantomData::<
    Over<BinaryField128, BinaryField32>,
>;

const TOWER_128_OVER_64: PhantomData<Whole<BinaryField128, BinaryField64, 2>> = PhantomData::<
    Over<BinaryField128, BinaryField64>,
>;

const POLY192_OVER_POLY64: PhantomData<Whole<Poly192, Poly64, 3>> = PhantomData::<
    Over<Poly192, Poly64>,
>;

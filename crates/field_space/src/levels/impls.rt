// Written by scripts/make_impls.py; do not edit.
// Each level as a vector space over the levels inside it.
ghost use Rattle.std.specs.Prelude.{◌≡◌, ◌<◌, ◌≤◌, ◌*◌, ◌+◌, ◌-◌, ◌^◌, codes, map, refl};
ghost use Rattle.field_base.specs.Chunks.{chunk, chunks};
ghost use Rattle.field_element.specs.Element.{repr_of};
ghost use Rattle.field_base.proofs.Coefficients.{scales_coefficients};
ghost use Rattle.field_space.specs.lemmas.LevelSpace.{dimension_positive, dimension_bits};

use crate::extension::{AlgebraIdentity, ExtensionField};
use crate::kernel::SpaceOver;
use crate::levels::{CoefficientsOf, coefficient_of, level_coefficients, put_coefficient};
use crate::space::BasisCoefficients;
use field_base::Unsigned;
use field_element::{
    BinaryField2, BinaryField8, BinaryField16, BinaryField32, BinaryField64, BinaryField128,
    Element,
};
use many_words::Many;
use word_tower::{Bits2, Bits8, Bits16, Bits32, Bits64, Bits128, Tower};

impl CoefficientsOf<u16, Bits16, u8> for Bits8 {
    const COUNT: usize = 2;

    ghost COUNT = { 2 };

    ghost identity = { codes "p3-Wiedemann-tower-v1:chunk-basis:8:16" };

    ghost count_law = { refl };

    fn identity() -> &'static [u8] {
        b"p3-Wiedemann-tower-v1:chunk-basis:8:16"
    }
}

impl CoefficientsOf<u32, Bits32, u8> for Bits8 {
    const COUNT: usize = 4;

    ghost COUNT = { 4 };

    ghost identity = { codes "p3-Wiedemann-tower-v1:chunk-basis:8:32" };

    ghost count_law = { refl };

    fn identity() -> &'static [u8] {
        b"p3-Wiedemann-tower-v1:chunk-basis:8:32"
    }
}

impl CoefficientsOf<u32, Bits32, u16> for Bits16 {
    const COUNT: usize = 2;

    ghost COUNT = { 2 };

    ghost identity = { codes "p3-Wiedemann-tower-v1:chunk-basis:16:32" };

    ghost count_law = { refl };

    fn identity() -> &'static [u8] {
        b"p3-Wiedemann-tower-v1:chunk-basis:16:32"
    }
}

impl CoefficientsOf<u64, Bits64, u8> for Bits8 {
    const COUNT: usize = 8;

    ghost COUNT = { 8 };

    ghost identity = { codes "p3-Wiedemann-tower-v1:chunk-basis:8:64" };

    ghost count_law = { refl };

    fn identity() -> &'static [u8] {
        b"p3-Wiedemann-tower-v1:chunk-basis:8:64"
    }
}

impl CoefficientsOf<u64, Bits64, u16> for Bits16 {
    const COUNT: usize = 4;

    ghost COUNT = { 4 };

    ghost identity = { codes "p3-Wiedemann-tower-v1:chunk-basis:16:64" };

    ghost count_law = { refl };

    fn identity() -> &'static [u8] {
        b"p3-Wiedemann-tower-v1:chunk-basis:16:64"
    }
}

impl CoefficientsOf<u64, Bits64, u32> for Bits32 {
    const COUNT: usize = 2;

    ghost COUNT = { 2 };

    ghost identity = { codes "p3-Wiedemann-tower-v1:chunk-basis:32:64" };

    ghost count_law = { refl };

    fn identity() -> &'static [u8] {
        b"p3-Wiedemann-tower-v1:chunk-basis:32:64"
    }
}

impl CoefficientsOf<u128, Bits128, u8> for Bits8 {
    const COUNT: usize = 16;

    ghost COUNT = { 16 };

    ghost identity = { codes "p3-Wiedemann-tower-v1:chunk-basis:8:128" };

    ghost count_law = { refl };

    fn identity() -> &'static [u8] {
        b"p3-Wiedemann-tower-v1:chunk-basis:8:128"
    }
}

impl CoefficientsOf<u128, Bits128, u16> for Bits16 {
    const COUNT: usize = 8;

    ghost COUNT = { 8 };

    ghost identity = { codes "p3-Wiedemann-tower-v1:chunk-basis:16:128" };

    ghost count_law = { refl };

    fn identity() -> &'static [u8] {
        b"p3-Wiedemann-tower-v1:chunk-basis:16:128"
    }
}

impl CoefficientsOf<u128, Bits128, u32> for Bits32 {
    const COUNT: usize = 4;

    ghost COUNT = { 4 };

    ghost identity = { codes "p3-Wiedemann-tower-v1:chunk-basis:32:128" };

    ghost count_law = { refl };

    fn identity() -> &'static [u8] {
        b"p3-Wiedemann-tower-v1:chunk-basis:32:128"
    }
}

impl CoefficientsOf<u128, Bits128, u64> for Bits64 {
    const COUNT: usize = 2;

    ghost COUNT = { 2 };

    ghost identity = { codes "p3-Wiedemann-tower-v1:chunk-basis:64:128" };

    ghost count_law = { refl };

    fn identity() -> &'static [u8] {
        b"p3-Wiedemann-tower-v1:chunk-basis:64:128"
    }
}

impl CoefficientsOf<u128, Bits128, u8> for Bits2 {
    const COUNT: usize = 64;

    ghost COUNT = { 64 };

    ghost identity = { codes "p3-Wiedemann-tower-v1:chunk-basis:2:128" };

    ghost count_law = { refl };

    fn identity() -> &'static [u8] {
        b"p3-Wiedemann-tower-v1:chunk-basis:2:128"
    }
}

impl<S: Unsigned, J: CoefficientsOf<u16, Bits16, S>> SpaceOver<u16, S, Tower<J>> for Tower<Bits16> {
    const DIMENSION: usize = J::COUNT;

    ghost DIMENSION = { J.COUNT };

    ghost dimension_law = { dimension_positive 4 J.LEVEL J.COUNT J.count_law };

    ghost space_law = { dimension_bits 4 J.LEVEL J.COUNT J.count_law J.lies_law };

    ghost scale_law = { scales_coefficients 4 J.LEVEL J.COUNT J.count_law J.lies_law };

    #[inline]
    fn coefficient(x: u16, i: usize) -> S {
        coefficient_of::<u16, Bits16, S, J>(x, i)
    }

    #[inline]
    fn with_coefficient(x: u16, i: usize, coefficient: S) -> u16 {
        put_coefficient::<u16, Bits16, S, J>(x, i, coefficient)
    }
}

impl<S: Unsigned, J: CoefficientsOf<u32, Bits32, S>> SpaceOver<u32, S, Tower<J>> for Tower<Bits32> {
    const DIMENSION: usize = J::COUNT;

    ghost DIMENSION = { J.COUNT };

    ghost dimension_law = { dimension_positive 5 J.LEVEL J.COUNT J.count_law };

    ghost space_law = { dimension_bits 5 J.LEVEL J.COUNT J.count_law J.lies_law };

    ghost scale_law = { scales_coefficients 5 J.LEVEL J.COUNT J.count_law J.lies_law };

    #[inline]
    fn coefficient(x: u32, i: usize) -> S {
        coefficient_of::<u32, Bits32, S, J>(x, i)
    }

    #[inline]
    fn with_coefficient(x: u32, i: usize, coefficient: S) -> u32 {
        put_coefficient::<u32, Bits32, S, J>(x, i, coefficient)
    }
}

impl<S: Unsigned, J: CoefficientsOf<u64, Bits64, S>> SpaceOver<u64, S, Tower<J>> for Tower<Bits64> {
    const DIMENSION: usize = J::COUNT;

    ghost DIMENSION = { J.COUNT };

    ghost dimension_law = { dimension_positive 6 J.LEVEL J.COUNT J.count_law };

    ghost space_law = { dimension_bits 6 J.LEVEL J.COUNT J.count_law J.lies_law };

    ghost scale_law = { scales_coefficients 6 J.LEVEL J.COUNT J.count_law J.lies_law };

    #[inline]
    fn coefficient(x: u64, i: usize) -> S {
        coefficient_of::<u64, Bits64, S, J>(x, i)
    }

    #[inline]
    fn with_coefficient(x: u64, i: usize, coefficient: S) -> u64 {
        put_coefficient::<u64, Bits64, S, J>(x, i, coefficient)
    }
}

impl<S: Unsigned, J: CoefficientsOf<u128, Bits128, S>> SpaceOver<u128, S, Tower<J>>
    for Tower<Bits128> {
    const DIMENSION: usize = J::COUNT;

    ghost DIMENSION = { J.COUNT };

    ghost dimension_law = { dimension_positive 7 J.LEVEL J.COUNT J.count_law };

    ghost space_law = { dimension_bits 7 J.LEVEL J.COUNT J.count_law J.lies_law };

    ghost scale_law = { scales_coefficients 7 J.LEVEL J.COUNT J.count_law J.lies_law };

    #[inline]
    fn coefficient(x: u128, i: usize) -> S {
        coefficient_of::<u128, Bits128, S, J>(x, i)
    }

    #[inline]
    fn with_coefficient(x: u128, i: usize, coefficient: S) -> u128 {
        put_coefficient::<u128, Bits128, S, J>(x, i, coefficient)
    }
}

impl<S: Unsigned, J: CoefficientsOf<u16, Bits16, S>> ExtensionField<Element<S, Tower<J>>>
    for BinaryField16
where
    Tower<J>: Many<S, S>,
{
    type ExtensionPacking = BinaryField16;

    ghost embeds_law = { λ a fits. refl };
}

impl<S: Unsigned, J: CoefficientsOf<u32, Bits32, S>> ExtensionField<Element<S, Tower<J>>>
    for BinaryField32
where
    Tower<J>: Many<S, S>,
{
    type ExtensionPacking = BinaryField32;

    ghost embeds_law = { λ a fits. refl };
}

impl<S: Unsigned, J: CoefficientsOf<u64, Bits64, S>> ExtensionField<Element<S, Tower<J>>>
    for BinaryField64
where
    Tower<J>: Many<S, S>,
{
    type ExtensionPacking = BinaryField64;

    ghost embeds_law = { λ a fits. refl };
}

impl<S: Unsigned, J: CoefficientsOf<u128, Bits128, S>> ExtensionField<Element<S, Tower<J>>>
    for BinaryField128
where
    Tower<J>: Many<S, S>,
{
    type ExtensionPacking = BinaryField128;

    ghost embeds_law = { λ a fits. refl };
}

impl<S: Unsigned, J: CoefficientsOf<u16, Bits16, S>> AlgebraIdentity<Element<S, Tower<J>>>
    for BinaryField16
where
    Tower<J>: Many<S, S>,
{
    ghost identity = { J.identity };

    fn identity() -> &'static [u8] {
        J::identity()
    }
}

impl<S: Unsigned, J: CoefficientsOf<u32, Bits32, S>> AlgebraIdentity<Element<S, Tower<J>>>
    for BinaryField32
where
    Tower<J>: Many<S, S>,
{
    ghost identity = { J.identity };

    fn identity() -> &'static [u8] {
        J::identity()
    }
}

impl<S: Unsigned, J: CoefficientsOf<u64, Bits64, S>> AlgebraIdentity<Element<S, Tower<J>>>
    for BinaryField64
where
    Tower<J>: Many<S, S>,
{
    ghost identity = { J.identity };

    fn identity() -> &'static [u8] {
        J::identity()
    }
}

impl<S: Unsigned, J: CoefficientsOf<u128, Bits128, S>> AlgebraIdentity<Element<S, Tower<J>>>
    for BinaryField128
where
    Tower<J>: Many<S, S>,
{
    ghost identity = { J.identity };

    fn identity() -> &'static [u8] {
        J::identity()
    }
}

impl BasisCoefficients<BinaryField8> for BinaryField16 {
    type Coefficients = [BinaryField8; 2];

    ghost listed = { λ cs. cs };

    fn as_basis_coefficients(&self) -> [BinaryField8; 2] {
        level_coefficients::<u16, Bits16, u8, Bits8, 2>(self)
    }
}

impl BasisCoefficients<BinaryField8> for BinaryField32 {
    type Coefficients = [BinaryField8; 4];

    ghost listed = { λ cs. cs };

    fn as_basis_coefficients(&self) -> [BinaryField8; 4] {
        level_coefficients::<u32, Bits32, u8, Bits8, 4>(self)
    }
}

impl BasisCoefficients<BinaryField16> for BinaryField32 {
    type Coefficients = [BinaryField16; 2];

    ghost listed = { λ cs. cs };

    fn as_basis_coefficients(&self) -> [BinaryField16; 2] {
        level_coefficients::<u32, Bits32, u16, Bits16, 2>(self)
    }
}

impl BasisCoefficients<BinaryField8> for BinaryField64 {
    type Coefficients = [BinaryField8; 8];

    ghost listed = { λ cs. cs };

    fn as_basis_coefficients(&self) -> [BinaryField8; 8] {
        level_coefficients::<u64, Bits64, u8, Bits8, 8>(self)
    }
}

impl BasisCoefficients<BinaryField16> for BinaryField64 {
    type Coefficients = [BinaryField16; 4];

    ghost listed = { λ cs. cs };

    fn as_basis_coefficients(&self) -> [BinaryField16; 4] {
        level_coefficients::<u64, Bits64, u16, Bits16, 4>(self)
    }
}

impl BasisCoefficients<BinaryField32> for BinaryField64 {
    type Coefficients = [BinaryField32; 2];

    ghost listed = { λ cs. cs };

    fn as_basis_coefficients(&self) -> [BinaryField32; 2] {
        level_coefficients::<u64, Bits64, u32, Bits32, 2>(self)
    }
}

impl BasisCoefficients<BinaryField8> for BinaryField128 {
    type Coefficients = [BinaryField8; 16];

    ghost listed = { λ cs. cs };

    fn as_basis_coefficients(&self) -> [BinaryField8; 16] {
        level_coefficients::<u128, Bits128, u8, Bits8, 16>(self)
    }
}

impl BasisCoefficients<BinaryField16> for BinaryField128 {
    type Coefficients = [BinaryField16; 8];

    ghost listed = { λ cs. cs };

    fn as_basis_coefficients(&self) -> [BinaryField16; 8] {
        level_coefficients::<u128, Bits128, u16, Bits16, 8>(self)
    }
}

impl BasisCoefficients<BinaryField32> for BinaryField128 {
    type Coefficients = [BinaryField32; 4];

    ghost listed = { λ cs. cs };

    fn as_basis_coefficients(&self) -> [BinaryField32; 4] {
        level_coefficients::<u128, Bits128, u32, Bits32, 4>(self)
    }
}

impl BasisCoefficients<BinaryField64> for BinaryField128 {
    type Coefficients = [BinaryField64; 2];

    ghost listed = { λ cs. cs };

    fn as_basis_coefficients(&self) -> [BinaryField64; 2] {
        level_coefficients::<u128, Bits128, u64, Bits64, 2>(self)
    }
}

impl BasisCoefficients<BinaryField2> for BinaryField128 {
    type Coefficients = [BinaryField2; 64];

    ghost listed = { λ cs. cs };

    fn as_basis_coefficients(&self) -> [BinaryField2; 64] {
        level_coefficients::<u128, Bits128, u8, Bits2, 64>(self)
    }
}

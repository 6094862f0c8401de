// A small field inside a large one, whose elements have coefficients in it, and linear maps over it of coefficients, of tables and of
// weights.
ghost use Rattle.std.specs.Prelude.{◌≡◌, ◌*◌, ◌^◌, ◌<◌, ◌≤◌, length, map, slice_index, bit_xor, IfOk};
ghost use Rattle.std.specs.List.{range_with_len};
ghost use Rattle.field_base.specs.{Basis.{sum_below}, Chunks.{chunk}};
ghost use Rattle.field_slices.specs.Multilinear.{multilinear_value};
ghost use Rattle.small_tables.specs.SmallTables.{IsSpaceOver, mixed, mixed_sum, mixed_weights};

use field_base::Unsigned;
use field_base::traits::{Field, PrimeCharacteristicRing};
use field_bytes::ShortElement;
use field_space::BasedVectorSpace;
use std::alloc::{AllocError, Allocator};
use std::marker::PhantomData;
use transcripts::merkle_paths::power_of_two;

/// A small field inside `F`, by whose elements those of `F` have coefficients: the chunks of their representations, the lowest first.
#[derive(Drop)]
pub struct SmallField<F: Field> {
    /// The bits of a small element.
    pub width: usize,
    /// The logarithm of how many of them an element of `F` packs.
    pub levels: usize,
    field: PhantomData<F>,
    ghost narrow: { width ≤ 64 },
    ghost few: { levels ≤ 7 },
    ghost space: { IsSpaceOver F.width F.product width levels },
}

impl<F: ShortElement> SmallField<F> {
    /// The field of two elements, inside a field whose elements have 2^levels bits.
    pub fn bits(levels: usize) -> SmallField<F>
        requires few { levels ≤ 7 }
        requires whole { F.width ≡ 2 ^ levels }
        ensures width { result.width ≡ 1 }
        ensures levels { result.levels ≡ levels }
    {
        SmallField {
            width: 1,
            levels,
            field: PhantomData,
        }
    }

    /// The field `S` of elements of `width` bits, at most 64, over which an element of `F` has 2^levels coefficients.
    pub fn of<S: PrimeCharacteristicRing>(width: usize, levels: usize) -> SmallField<F>
    where
        F: BasedVectorSpace<S>,
        requires few { levels ≤ 7 }
        requires narrow { width ≤ 64 }
        requires some { 0 < width }
        requires bits { S.width ≡ width }
        requires dimension { F.DIMENSION ≡ 2 ^ levels }
        ensures width { result.width ≡ width }
        ensures levels { result.levels ≡ levels }
    {
        SmallField {
            width,
            levels,
            field: PhantomData,
        }
    }

    // Coefficient `place` of an element, as a number.
    fn coefficient(&self, x: F, place: usize) -> u128
        requires { place < 2 ^ self.now.levels }
        ensures { result ≡ chunk self.now.width place (F.repr x) }
    {
        let number = x.to_repr().to_u128();
        let shift = self.width * place;
        let above = number >> shift;
        let size: u128 = 1 << self.width;
        above % size
    }

    // The element of which coefficient `place` is 1 and the others are 0.
    fn basis(&self, place: usize) -> F
        requires { place < 2 ^ self.now.levels }
        ensures { F.repr result ≡ 2 ^ (self.now.width * place) }
    {
        let number = unit_chunk(self.width, place);
        F::of_number(number)
    }

    // The sum of the coefficients of an element, each times the scalar at its place.
    fn mixed(&self, scalars: &[F], x: F) -> F
        requires { length scalars.now ≡ 2 ^ self.now.levels }
        ensures { F.repr result ≡ mixed F.product self.now.width (map F.repr scalars.now) (F.repr x) }
    {
        let mut sum = F::ZERO;
        'places: for place in 0..scalars.len() {
            let number = self.coefficient(x, place);
            let term = scaled(scalars[place], number);
            sum = sum + term;
        }
        sum
    }

    // The sum of the weights, each times coefficient `place` of the element of the table there.
    fn part(&self, table: &[F], weights: &[F], place: usize) -> F
        requires count { length weights.now ≡ length table.now }
        requires place { place < 2 ^ self.now.levels }
        ensures { F.repr result ≡ sum_below (λ v. F.product (slice_index (map F.repr weights.now) v)
            (chunk self.now.width place (slice_index (map F.repr table.now) v))) (length table.now) }
    {
        let mut sum = F::ZERO;
        'corners: for corner in 0..table.len() {
            let number = self.coefficient(table[corner], place);
            let term = scaled(weights[corner], number);
            sum = sum + term;
        }
        sum
    }

    // The parts by weights of the elements of a packed table.
    pub(crate) fn parts<A: Allocator>(
        &self,
        alloc: A,
        table: &[F],
        weights: &[F],
    ) -> Result<Vec<F, A>, AllocError>
        requires { length weights.now ≡ length table.now }
        ensures { IfOk result (λ parts. map F.repr parts.items ≡ map (λ u. sum_below (λ v. F.product
            (slice_index (map F.repr weights.now) v) (chunk self.now.width u (slice_index (map F.repr table.now) v))) (length table.now))
            (range_with_len 0 (2 ^ self.now.levels))) }
    {
        let count = power_of_two(self.levels);
        let mut parts = Vec::new(alloc);
        'places: for place in 0..count {
            let part = self.part(table, weights, place);
            parts.push(part)?;
        }
        Ok(parts)
    }

    // The images of weights under the map that takes coefficients to scalars.
    pub(crate) fn images<A: Allocator>(
        &self,
        alloc: A,
        scalars: &[F],
        weights: &[F],
    ) -> Result<Vec<F, A>, AllocError>
        requires { length scalars.now ≡ 2 ^ self.now.levels }
        ensures { IfOk result (λ images. map F.repr images.items ≡ map (λ v. mixed F.product self.now.width (map F.repr scalars.now)
            (slice_index (map F.repr weights.now) v)) (range_with_len 0 (length weights.now))) }
    {
        let mut images = Vec::new(alloc);
        'corners: for corner in 0..weights.len() {
            let image = self.mixed(scalars, weights[corner]);
            images.push(image)?;
        }
        Ok(images)
    }

    // The sum of the images of parts, each times the element of the basis at its place.
    pub(crate) fn mixed_sum(&self, scalars: &[F], parts: &[F]) -> F
        requires scalars { length scalars.now ≡ 2 ^ self.now.levels }
        requires parts { length parts.now ≡ 2 ^ self.now.levels }
        ensures { F.repr result ≡ mixed_sum F.product self.now.width (map F.repr scalars.now) (map F.repr parts.now) }
    {
        let mut sum = F::ZERO;
        'places: for place in 0..parts.len() {
            let element = self.basis(place);
            let image = self.mixed(scalars, parts[place]);
            sum = sum + element * image;
        }
        sum
    }

    // The scalars that are left where the first coordinate of the point of the weights is `x`, and that of the point of the value `r`.
    fn next_scalars<A: Allocator>(
        &self,
        alloc: A,
        scalars: &[F],
        x: F,
        r: F,
    ) -> Result<Vec<F, A>, AllocError>
        requires { length scalars.now ≡ 2 ^ self.now.levels }
        ensures { IfOk result (λ nexts. map F.repr nexts.items ≡ map (λ m. bit_xor
            (mixed F.product self.now.width (map F.repr scalars.now) (F.product (F.repr x) (2 ^ (self.now.width * m))))
            (F.product (bit_xor 1 (F.repr r)) (slice_index (map F.repr scalars.now) m))) (range_with_len 0 (length scalars.now))) }
    {
        let rest = F::ONE + r;
        let mut nexts = Vec::new(alloc);
        'places: for place in 0..scalars.len() {
            let element = self.basis(place);
            let moved = self.mixed(scalars, x * element);
            let next = moved + rest * scalars[place];
            nexts.push(next)?;
        }
        Ok(nexts)
    }

    /// The value at the point `at` of the table of the images of eq(first, corner) under the linear map over the small field that takes
    /// coefficient m to scalar m, of which there have to be 2^levels. It takes 4^levels products for each coordinate, where the table has
    /// two to the power of their number. It fails if memory was refused.
    pub fn weights_value<A: Allocator + Copy>(
        &self,
        alloc: A,
        scalars: &[F],
        first: &[F],
        at: &[F],
    ) -> Result<F, AllocError>
        requires count { length scalars.now ≡ 2 ^ self.now.levels }
        requires coordinates { length at.now ≡ length first.now }
        ensures { IfOk result (λ value. F.repr value ≡ multilinear_value F.product (mixed_weights F.product self.now.width
            (map F.repr scalars.now) (map F.repr first.now)) (map F.repr at.now)) }
    {
        if first.is_empty() {
            return Ok(self.mixed(scalars, F::ONE));
        }
        let (x, r) = (first[0], at[0]);
        let nexts = self.next_scalars(alloc, scalars, x, r)?;
        let value = self.weights_value(alloc, nexts.as_slice(), &first[1..], &at[1..])?;
        Ok(value)
    }
}

// The number of which chunk `place` is 1 and the others are 0.
fn unit_chunk(width: usize, place: usize) -> u128
    requires { width * place < 128 }
    ensures { result ≡ 2 ^ (width * place) }
{
    let shift = width * place;
    1 << shift
}

// A scalar times a number, as an element.
fn scaled<F: ShortElement>(scalar: F, number: u128) -> F
    ensures { F.repr result ≡ F.product (F.repr scalar) number }
{
    if number == 0 {
        return F::ZERO;
    }
    if number == 1 {
        return scalar;
    }
    scalar * F::of_number(number)
}

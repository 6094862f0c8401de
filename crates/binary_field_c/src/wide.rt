// Second forms of calls, made for x86-64-v3, whose vectors have 256 bits.
// Written by scripts/make_c_exports.py; do not edit.
ghost use Rattle.std.specs.Prelude.{◌^◌, ◌<◌, ◌++◌, length};
ghost use Rattle.tags.specs.Absorbed.{HoldsGhash, HoldsPolyval};
ghost use Rattle.tags.specs.Blocks.{blocks_of, gcm_blocks};
ghost use Rattle.tags.specs.Gcm.{ghash};
ghost use Rattle.tags.specs.Polyval.{polyval};
ghost use Rattle.c_calls.specs.Bytes.{ChangesMessage, Hashes};
ghost use Rattle.c_calls.specs.Transforms.{ButterfliesForward, ButterfliesInverse, InvertsTransform, RunsLowStages, Transforms};
ghost use Rattle.c_calls.specs.Calls.{AddsScaled, Inverts, Multiplies, MultipliesBy, RaisesTo, TakesDotProduct};
ghost use Rattle.c_calls.specs.Fields.{ghash_field, level_field, poly64_field, wide_level_field, wide_number};
ghost use Rattle.c_calls.specs.Matrices.{InvertsMatrix, MultipliesMatrices, ReducesRows, SolvesEquations, TakesDeterminant, TakesRank};

use c_calls::{
    Bits8, Bits16, Bits32, Bits64, Bits128, GhashKernel, HashState, Poly64Kernel, Tower, Wide,
    Words,
};
use std::simd::prelude::*;

type T8 = Words<u8, u8, Tower<Bits8>, u64x4>;

type T16 = Words<u16, u16, Tower<Bits16>, u64x4>;

type T32 = Words<u32, u32, Tower<Bits32>, u64x4>;

type T64 = Words<u64, u64, Tower<Bits64>, u64x4>;

type T128 = Words<u128, Wide, Tower<Bits128>, u64x4>;

type P64 = Words<u64, u64, Poly64Kernel, u64x4>;

type G128 = Words<u128, Wide, GhashKernel, u64x4>;

/// The same as `bf_g128_multiply`.
#[unsafe(no_mangle)]
pub extern "C" fn bf_g128_multiply_wide(left: &[Wide], right: &[Wide], products: &mut [Wide]) -> u32
    ensures { Multiplies ghash_field left.now right.now products.old products.new result }
{
    c_calls::multiply(G128::new(), left, right, products)
}

/// The same as `bf_g128_multiply_in_place`.
#[unsafe(no_mangle)]
pub extern "C" fn bf_g128_multiply_in_place_wide(products: &mut [Wide], values: &[Wide]) -> u32
    ensures { Multiplies ghash_field products.old values.now products.old products.new result }
{
    c_calls::multiply_in_place(G128::new(), products, values)
}

/// The same as `bf_g128_multiply_by`.
#[unsafe(no_mangle)]
pub extern "C" fn bf_g128_multiply_by_wide(
    values: &[Wide],
    scalar: &Wide,
    products: &mut [Wide],
) -> u32
    ensures { MultipliesBy ghash_field scalar.now values.now products.old products.new result }
{
    c_calls::multiply_by(G128::new(), values, *scalar, products)
}

/// The same as `bf_g128_multiply_by_in_place`.
#[unsafe(no_mangle)]
pub extern "C" fn bf_g128_multiply_by_in_place_wide(values: &mut [Wide], scalar: &Wide) -> u32
    ensures { MultipliesBy ghash_field scalar.now values.old values.old values.new result }
{
    c_calls::multiply_by_in_place(G128::new(), values, *scalar)
}

/// The same as `bf_g128_add_scaled`.
#[unsafe(no_mangle)]
pub extern "C" fn bf_g128_add_scaled_wide(sums: &mut [Wide], scalar: &Wide, values: &[Wide]) -> u32
    ensures { AddsScaled ghash_field scalar.now values.now sums.old sums.new result }
{
    c_calls::add_scaled(G128::new(), sums, *scalar, values)
}

/// The same as `bf_g128_dot_product`.
#[unsafe(no_mangle)]
pub extern "C" fn bf_g128_dot_product_wide(left: &[Wide], right: &[Wide], sum: &mut Wide) -> u32
    ensures { TakesDotProduct ghash_field left.now right.now sum.old sum.new result }
{
    c_calls::dot_product(G128::new(), left, right, sum)
}

/// The same as `bf_g128_butterfly_forward`.
#[unsafe(no_mangle)]
pub extern "C" fn bf_g128_butterfly_forward_wide(
    low: &mut [Wide],
    high: &mut [Wide],
    scalar: &Wide,
) -> u32
    ensures { ButterfliesForward (wide_number scalar.now) low.old high.old low.new high.new result }
{
    c_calls::butterfly_forward::<u64x4>(low, high, *scalar)
}

/// The same as `bf_g128_butterfly_inverse`.
#[unsafe(no_mangle)]
pub extern "C" fn bf_g128_butterfly_inverse_wide(
    low: &mut [Wide],
    high: &mut [Wide],
    scalar: &Wide,
) -> u32
    ensures { ButterfliesInverse (wide_number scalar.now) low.old high.old low.new high.new result }
{
    c_calls::butterfly_inverse::<u64x4>(low, high, *scalar)
}

/// The same as `bf_g128_low_stages`.
#[unsafe(no_mangle)]
pub extern "C" fn bf_g128_low_stages_wide(
    values: &mut [Wide],
    shifts: &[Wide],
    basis: &[Wide],
    first_run: u64,
) -> u32
    ensures { RunsLowStages shifts.now basis.now first_run values.old values.new result }
{
    c_calls::low_stages::<u64x4>(values, shifts, basis, first_run)
}

/// The same as `bf_g128_transform`.
#[unsafe(no_mangle)]
pub extern "C" fn bf_g128_transform_wide(values: &mut [Wide], shift: &Wide) -> u32
    ensures { Transforms (wide_number shift.now) values.old values.new result }
{
    c_calls::transform::<u64x4>(values, *shift)
}

/// The same as `bf_g128_inverse_transform`.
#[unsafe(no_mangle)]
pub extern "C" fn bf_g128_inverse_transform_wide(values: &mut [Wide], shift: &Wide) -> u32
    ensures { InvertsTransform (wide_number shift.now) values.old values.new result }
{
    c_calls::inverse_transform::<u64x4>(values, *shift)
}

/// The same as `bf_t16_multiply`.
#[unsafe(no_mangle)]
pub extern "C" fn bf_t16_multiply_wide(left: &[u16], right: &[u16], products: &mut [u16]) -> u32
    ensures { Multiplies (level_field 4) left.now right.now products.old products.new result }
{
    c_calls::multiply(T16::new(), left, right, products)
}

/// The same as `bf_t16_multiply_in_place`.
#[unsafe(no_mangle)]
pub extern "C" fn bf_t16_multiply_in_place_wide(products: &mut [u16], values: &[u16]) -> u32
    ensures { Multiplies (level_field 4) products.old values.now products.old products.new result }
{
    c_calls::multiply_in_place(T16::new(), products, values)
}

/// The same as `bf_t16_inverse`.
#[unsafe(no_mangle)]
pub extern "C" fn bf_t16_inverse_wide(values: &[u16], inverses: &mut [u16]) -> u32
    ensures { Inverts (level_field 4) values.now inverses.old inverses.new result }
{
    c_calls::invert(T16::new(), values, inverses)
}

/// The same as `bf_t16_inverse_in_place`.
#[unsafe(no_mangle)]
pub extern "C" fn bf_t16_inverse_in_place_wide(values: &mut [u16]) -> u32
    ensures { Inverts (level_field 4) values.old values.old values.new result }
{
    c_calls::invert_in_place(T16::new(), values)
}

/// The same as `bf_t16_batch_inverse`.
#[unsafe(no_mangle)]
pub extern "C" fn bf_t16_batch_inverse_wide(values: &[u16], inverses: &mut [u16]) -> u32
    ensures { Inverts (level_field 4) values.now inverses.old inverses.new result }
{
    c_calls::batch_invert(T16::new(), values, inverses)
}

/// The same as `bf_t16_power`.
#[unsafe(no_mangle)]
pub extern "C" fn bf_t16_power_wide(values: &[u16], exponent: u64, powers: &mut [u16]) -> u32
    ensures { RaisesTo (level_field 4) exponent values.now powers.old powers.new result }
{
    c_calls::raise(T16::new(), values, exponent, powers)
}

/// The same as `bf_t16_power_in_place`.
#[unsafe(no_mangle)]
pub extern "C" fn bf_t16_power_in_place_wide(values: &mut [u16], exponent: u64) -> u32
    ensures { RaisesTo (level_field 4) exponent values.old values.old values.new result }
{
    c_calls::raise_in_place(T16::new(), values, exponent)
}

/// The same as `bf_t32_multiply`.
#[unsafe(no_mangle)]
pub extern "C" fn bf_t32_multiply_wide(left: &[u32], right: &[u32], products: &mut [u32]) -> u32
    ensures { Multiplies (level_field 5) left.now right.now products.old products.new result }
{
    c_calls::multiply(T32::new(), left, right, products)
}

/// The same as `bf_t32_multiply_in_place`.
#[unsafe(no_mangle)]
pub extern "C" fn bf_t32_multiply_in_place_wide(products: &mut [u32], values: &[u32]) -> u32
    ensures { Multiplies (level_field 5) products.old values.now products.old products.new result }
{
    c_calls::multiply_in_place(T32::new(), products, values)
}

/// The same as `bf_t32_inverse`.
#[unsafe(no_mangle)]
pub extern "C" fn bf_t32_inverse_wide(values: &[u32], inverses: &mut [u32]) -> u32
    ensures { Inverts (level_field 5) values.now inverses.old inverses.new result }
{
    c_calls::invert(T32::new(), values, inverses)
}

/// The same as `bf_t32_inverse_in_place`.
#[unsafe(no_mangle)]
pub extern "C" fn bf_t32_inverse_in_place_wide(values: &mut [u32]) -> u32
    ensures { Inverts (level_field 5) values.old values.old values.new result }
{
    c_calls::invert_in_place(T32::new(), values)
}

/// The same as `bf_t32_batch_inverse`.
#[unsafe(no_mangle)]
pub extern "C" fn bf_t32_batch_inverse_wide(values: &[u32], inverses: &mut [u32]) -> u32
    ensures { Inverts (level_field 5) values.now inverses.old inverses.new result }
{
    c_calls::batch_invert(T32::new(), values, inverses)
}

/// The same as `bf_t32_power`.
#[unsafe(no_mangle)]
pub extern "C" fn bf_t32_power_wide(values: &[u32], exponent: u64, powers: &mut [u32]) -> u32
    ensures { RaisesTo (level_field 5) exponent values.now powers.old powers.new result }
{
    c_calls::raise(T32::new(), values, exponent, powers)
}

/// The same as `bf_t32_power_in_place`.
#[unsafe(no_mangle)]
pub extern "C" fn bf_t32_power_in_place_wide(values: &mut [u32], exponent: u64) -> u32
    ensures { RaisesTo (level_field 5) exponent values.old values.old values.new result }
{
    c_calls::raise_in_place(T32::new(), values, exponent)
}

/// The same as `bf_t64_multiply`.
#[unsafe(no_mangle)]
pub extern "C" fn bf_t64_multiply_wide(left: &[u64], right: &[u64], products: &mut [u64]) -> u32
    ensures { Multiplies (level_field 6) left.now right.now products.old products.new result }
{
    c_calls::multiply(T64::new(), left, right, products)
}

/// The same as `bf_t64_multiply_in_place`.
#[unsafe(no_mangle)]
pub extern "C" fn bf_t64_multiply_in_place_wide(products: &mut [u64], values: &[u64]) -> u32
    ensures { Multiplies (level_field 6) products.old values.now products.old products.new result }
{
    c_calls::multiply_in_place(T64::new(), products, values)
}

/// The same as `bf_t64_inverse`.
#[unsafe(no_mangle)]
pub extern "C" fn bf_t64_inverse_wide(values: &[u64], inverses: &mut [u64]) -> u32
    ensures { Inverts (level_field 6) values.now inverses.old inverses.new result }
{
    c_calls::invert(T64::new(), values, inverses)
}

/// The same as `bf_t64_inverse_in_place`.
#[unsafe(no_mangle)]
pub extern "C" fn bf_t64_inverse_in_place_wide(values: &mut [u64]) -> u32
    ensures { Inverts (level_field 6) values.old values.old values.new result }
{
    c_calls::invert_in_place(T64::new(), values)
}

/// The same as `bf_t64_batch_inverse`.
#[unsafe(no_mangle)]
pub extern "C" fn bf_t64_batch_inverse_wide(values: &[u64], inverses: &mut [u64]) -> u32
    ensures { Inverts (level_field 6) values.now inverses.old inverses.new result }
{
    c_calls::batch_invert(T64::new(), values, inverses)
}

/// The same as `bf_t64_power`.
#[unsafe(no_mangle)]
pub extern "C" fn bf_t64_power_wide(values: &[u64], exponent: u64, powers: &mut [u64]) -> u32
    ensures { RaisesTo (level_field 6) exponent values.now powers.old powers.new result }
{
    c_calls::raise(T64::new(), values, exponent, powers)
}

/// The same as `bf_t64_power_in_place`.
#[unsafe(no_mangle)]
pub extern "C" fn bf_t64_power_in_place_wide(values: &mut [u64], exponent: u64) -> u32
    ensures { RaisesTo (level_field 6) exponent values.old values.old values.new result }
{
    c_calls::raise_in_place(T64::new(), values, exponent)
}

/// The same as `bf_t128_multiply`.
#[unsafe(no_mangle)]
pub extern "C" fn bf_t128_multiply_wide(left: &[Wide], right: &[Wide], products: &mut [Wide]) -> u32
    ensures { Multiplies wide_level_field left.now right.now products.old products.new result }
{
    c_calls::multiply(T128::new(), left, right, products)
}

/// The same as `bf_t128_multiply_in_place`.
#[unsafe(no_mangle)]
pub extern "C" fn bf_t128_multiply_in_place_wide(products: &mut [Wide], values: &[Wide]) -> u32
    ensures { Multiplies wide_level_field products.old values.now products.old products.new result }
{
    c_calls::multiply_in_place(T128::new(), products, values)
}

/// The same as `bf_t128_inverse`.
#[unsafe(no_mangle)]
pub extern "C" fn bf_t128_inverse_wide(values: &[Wide], inverses: &mut [Wide]) -> u32
    ensures { Inverts wide_level_field values.now inverses.old inverses.new result }
{
    c_calls::invert(T128::new(), values, inverses)
}

/// The same as `bf_t128_inverse_in_place`.
#[unsafe(no_mangle)]
pub extern "C" fn bf_t128_inverse_in_place_wide(values: &mut [Wide]) -> u32
    ensures { Inverts wide_level_field values.old values.old values.new result }
{
    c_calls::invert_in_place(T128::new(), values)
}

/// The same as `bf_t128_batch_inverse`.
#[unsafe(no_mangle)]
pub extern "C" fn bf_t128_batch_inverse_wide(values: &[Wide], inverses: &mut [Wide]) -> u32
    ensures { Inverts wide_level_field values.now inverses.old inverses.new result }
{
    c_calls::batch_invert(T128::new(), values, inverses)
}

/// The same as `bf_t128_power`.
#[unsafe(no_mangle)]
pub extern "C" fn bf_t128_power_wide(values: &[Wide], exponent: u64, powers: &mut [Wide]) -> u32
    ensures { RaisesTo wide_level_field exponent values.now powers.old powers.new result }
{
    c_calls::raise(T128::new(), values, exponent, powers)
}

/// The same as `bf_t128_power_in_place`.
#[unsafe(no_mangle)]
pub extern "C" fn bf_t128_power_in_place_wide(values: &mut [Wide], exponent: u64) -> u32
    ensures { RaisesTo wide_level_field exponent values.old values.old values.new result }
{
    c_calls::raise_in_place(T128::new(), values, exponent)
}

/// The same as `bf_p64_multiply`.
#[unsafe(no_mangle)]
pub extern "C" fn bf_p64_multiply_wide(left: &[u64], right: &[u64], products: &mut [u64]) -> u32
    ensures { Multiplies poly64_field left.now right.now products.old products.new result }
{
    c_calls::multiply(P64::new(), left, right, products)
}

/// The same as `bf_p64_multiply_in_place`.
#[unsafe(no_mangle)]
pub extern "C" fn bf_p64_multiply_in_place_wide(products: &mut [u64], values: &[u64]) -> u32
    ensures { Multiplies poly64_field products.old values.now products.old products.new result }
{
    c_calls::multiply_in_place(P64::new(), products, values)
}

/// The same as `bf_p64_inverse`.
#[unsafe(no_mangle)]
pub extern "C" fn bf_p64_inverse_wide(values: &[u64], inverses: &mut [u64]) -> u32
    ensures { Inverts poly64_field values.now inverses.old inverses.new result }
{
    c_calls::invert(P64::new(), values, inverses)
}

/// The same as `bf_p64_inverse_in_place`.
#[unsafe(no_mangle)]
pub extern "C" fn bf_p64_inverse_in_place_wide(values: &mut [u64]) -> u32
    ensures { Inverts poly64_field values.old values.old values.new result }
{
    c_calls::invert_in_place(P64::new(), values)
}

/// The same as `bf_p64_batch_inverse`.
#[unsafe(no_mangle)]
pub extern "C" fn bf_p64_batch_inverse_wide(values: &[u64], inverses: &mut [u64]) -> u32
    ensures { Inverts poly64_field values.now inverses.old inverses.new result }
{
    c_calls::batch_invert(P64::new(), values, inverses)
}

/// The same as `bf_p64_power`.
#[unsafe(no_mangle)]
pub extern "C" fn bf_p64_power_wide(values: &[u64], exponent: u64, powers: &mut [u64]) -> u32
    ensures { RaisesTo poly64_field exponent values.now powers.old powers.new result }
{
    c_calls::raise(P64::new(), values, exponent, powers)
}

/// The same as `bf_p64_power_in_place`.
#[unsafe(no_mangle)]
pub extern "C" fn bf_p64_power_in_place_wide(values: &mut [u64], exponent: u64) -> u32
    ensures { RaisesTo poly64_field exponent values.old values.old values.new result }
{
    c_calls::raise_in_place(P64::new(), values, exponent)
}

/// The same as `bf_t8_multiply`.
#[unsafe(no_mangle)]
pub extern "C" fn bf_t8_multiply_wide(left: &[u8], right: &[u8], products: &mut [u8]) -> u32
    ensures { Multiplies (level_field 3) left.now right.now products.old products.new result }
{
    c_calls::multiply(T8::new(), left, right, products)
}

/// The same as `bf_t8_multiply_in_place`.
#[unsafe(no_mangle)]
pub extern "C" fn bf_t8_multiply_in_place_wide(products: &mut [u8], values: &[u8]) -> u32
    ensures { Multiplies (level_field 3) products.old values.now products.old products.new result }
{
    c_calls::multiply_in_place(T8::new(), products, values)
}

/// The same as `bf_g128_inverse`.
#[unsafe(no_mangle)]
pub extern "C" fn bf_g128_inverse_wide(values: &[Wide], inverses: &mut [Wide]) -> u32
    ensures { Inverts ghash_field values.now inverses.old inverses.new result }
{
    c_calls::invert(G128::new(), values, inverses)
}

/// The same as `bf_g128_inverse_in_place`.
#[unsafe(no_mangle)]
pub extern "C" fn bf_g128_inverse_in_place_wide(values: &mut [Wide]) -> u32
    ensures { Inverts ghash_field values.old values.old values.new result }
{
    c_calls::invert_in_place(G128::new(), values)
}

/// The same as `bf_g128_batch_inverse`.
#[unsafe(no_mangle)]
pub extern "C" fn bf_g128_batch_inverse_wide(values: &[Wide], inverses: &mut [Wide]) -> u32
    ensures { Inverts ghash_field values.now inverses.old inverses.new result }
{
    c_calls::batch_invert(G128::new(), values, inverses)
}

/// The same as `bf_g128_matrix_multiply`.
#[unsafe(no_mangle)]
pub extern "C" fn bf_g128_matrix_multiply_wide(
    left: &[Wide],
    right: &[Wide],
    product: &mut [Wide],
    rows: u64,
    inner: u64,
    columns: u64,
) -> u32
    ensures { MultipliesMatrices ghash_field rows inner columns left.now right.now product.old product.new result }
{
    c_calls::matrices::multiply(G128::new(), left, right, product, rows, inner, columns)
}

/// The same as `bf_g128_matrix_row_reduce`.
#[unsafe(no_mangle)]
pub extern "C" fn bf_g128_matrix_row_reduce_wide(
    matrix: &mut [Wide],
    rows: u64,
    columns: u64,
    pivots: &mut [usize],
    rank: &mut usize,
) -> u32
    ensures { ReducesRows ghash_field rows columns matrix.old pivots.old rank.old matrix.new pivots.new rank.new result }
{
    c_calls::matrices::row_reduce(G128::new(), matrix, rows, columns, pivots, rank)
}

/// The same as `bf_g128_matrix_rank`.
#[unsafe(no_mangle)]
pub extern "C" fn bf_g128_matrix_rank_wide(
    matrix: &[Wide],
    rows: u64,
    columns: u64,
    space: &mut [Wide],
    places: &mut [usize],
    rank: &mut usize,
) -> u32
    ensures { TakesRank ghash_field rows columns matrix.now (length space.old) (length places.old) rank.old rank.new result }
{
    c_calls::matrices::rank(G128::new(), matrix, rows, columns, space, places, rank)
}

/// The same as `bf_g128_matrix_determinant`.
#[unsafe(no_mangle)]
pub extern "C" fn bf_g128_matrix_determinant_wide(
    matrix: &[Wide],
    size: u64,
    space: &mut [Wide],
    determinant: &mut Wide,
) -> u32
    ensures { TakesDeterminant ghash_field size matrix.now (length space.old) determinant.old determinant.new result }
{
    c_calls::matrices::determinant(G128::new(), matrix, size, space, determinant)
}

/// The same as `bf_g128_matrix_inverse`.
#[unsafe(no_mangle)]
pub extern "C" fn bf_g128_matrix_inverse_wide(
    matrix: &[Wide],
    size: u64,
    inverse: &mut [Wide],
    space: &mut [Wide],
    places: &mut [usize],
) -> u32
    ensures { InvertsMatrix ghash_field size matrix.now (length space.old) (length places.old) inverse.old inverse.new result }
{
    c_calls::matrices::inverse(G128::new(), matrix, size, inverse, space, places)
}

/// The same as `bf_g128_matrix_solve`.
#[unsafe(no_mangle)]
pub extern "C" fn bf_g128_matrix_solve_wide(
    matrix: &[Wide],
    rows: u64,
    columns: u64,
    right: &[Wide],
    solution: &mut [Wide],
    space: &mut [Wide],
    places: &mut [usize],
) -> u32
    ensures { SolvesEquations ghash_field rows columns matrix.now right.now (length space.old)
        (length places.old) solution.old solution.new result }
{
    c_calls::matrices::solve(
        G128::new(),
        matrix,
        rows,
        columns,
        right,
        solution,
        space,
        places,
    )
}

/// The same as `bf_tag_ghash`.
#[unsafe(no_mangle)]
pub extern "C" fn bf_tag_ghash_wide(key: &[u8], message: &[u8], hash: &mut [u8]) -> u32
    ensures { Hashes (Unit {0}) key.now (ghash key.now (blocks_of message.now)) hash.old hash.new result }
{
    c_calls::hash::<tags::HighestFirst, u64x4>(key, message, hash)
}

/// The same as `bf_tag_polyval`.
#[unsafe(no_mangle)]
pub extern "C" fn bf_tag_polyval_wide(key: &[u8], message: &[u8], hash: &mut [u8]) -> u32
    ensures { Hashes (Unit {0}) key.now (polyval key.now (blocks_of message.now)) hash.old hash.new result }
{
    c_calls::hash::<tags::LowestFirst, u64x4>(key, message, hash)
}

/// The same as `bf_tag_gcm_ghash`.
#[unsafe(no_mangle)]
pub extern "C" fn bf_tag_gcm_ghash_wide(
    key: &[u8],
    associated: &[u8],
    ciphertext: &[u8],
    hash: &mut [u8],
) -> u32
    ensures { Hashes ((length associated.now < 2 ^ 61) × (length ciphertext.now < 2 ^ 61)) key.now
        (ghash key.now (gcm_blocks associated.now ciphertext.now)) hash.old hash.new result }
{
    c_calls::gcm_ghash::<u64x4>(key, associated, ciphertext, hash)
}

/// The same as `bf_tag_ghash_update`.
#[unsafe(no_mangle)]
pub extern "C" fn bf_tag_ghash_update_wide(state: &mut HashState, message: &[u8]) -> u32
    ensures { ChangesMessage HoldsGhash (λ m. m ++ message.now) state.old state.new result }
{
    c_calls::hash_update::<tags::HighestFirst, u64x4>(state, message)
}

/// The same as `bf_tag_polyval_update`.
#[unsafe(no_mangle)]
pub extern "C" fn bf_tag_polyval_update_wide(state: &mut HashState, message: &[u8]) -> u32
    ensures { ChangesMessage HoldsPolyval (λ m. m ++ message.now) state.old state.new result }
{
    c_calls::hash_update::<tags::LowestFirst, u64x4>(state, message)
}

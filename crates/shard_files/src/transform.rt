// The code over words of 16 bits by transforms (`reed_solomon::TransformCode`).
ghost use Rattle.std.specs.Prelude.{◌≡◌, ◌≢◌, ℕ, List, ◌+◌, ◌*◌, ◌/◌, ◌^◌, ◌<◌, ◌≤◌};
ghost use Rattle.std.specs.Prelude.{◌↔◌, length, slice_index, IfOk, IfSome, IsOk, IsSome, IsTrue, OnErr};
ghost use Rattle.reed_solomon.specs.RoundTrip.{AgreeWherePresent};
ghost use Rattle.reed_solomon.specs.Shards.{present_count};
ghost use Rattle.additive_transforms.specs.Words.{level_element};
ghost use Rattle.reed_solomon.specs.Codes.{AreCodedColumns};
ghost use Rattle.reed_solomon.specs.TransformSizes.{HaveOneSize};
ghost use Rattle.shard_files.specs.Codes.{AreShardWords, AreTransformWords, IsTransformCode};

use crate::code::StripeCode;
use crate::words::{words_of, write_words, zero_words};
use reed_solomon::{TransformCode, lost_symbols_return};
use std::alloc::{AllocError, Global};
use word_tower::Bits16;

// How many words of space a call takes for each point, so that as many columns go at once as pays.
const WORDS_A_POINT: usize = 40;

/// Whether it has so many shards, and restores missing ones.
pub(crate) fn has_transform_code(data_shards: usize, parity_shards: usize) -> bool
    ensures has { IsTrue result ↔ ((0 < data_shards) × (0 < parity_shards) × IsTransformCode data_shards parity_shards) }
    ensures few { IsTrue result → data_shards + parity_shards ≤ 65536 }
{
    match transform_code(data_shards, parity_shards) {
        Some(_) => true,
        None => false,
    }
}

// The code, where it restores missing shards.
fn transform_code(data_shards: usize, parity_shards: usize) -> Option<TransformCode>
    ensures made { IfSome result (λ code. (code.data_shards ≡ data_shards) × (code.parity_shards ≡ parity_shards)
        × (2 ^ code.all_levels ≤ 2 ^ 2 ^ 4)) }
    ensures accepted { IsSome result ↔ ((0 < data_shards) × (0 < parity_shards) × IsTransformCode data_shards parity_shards) }
{
    match TransformCode::new(data_shards, parity_shards) {
        Ok(code) => if code.can_reconstruct::<u16, Bits16>() {
            Some(code)
        } else {
            None
        },
        Err(_) => None,
    }
}

// The code by transforms of a stripe's.
fn transform_of(code: &StripeCode) -> TransformCode
    requires { code.now.number ≢ 1 }
    ensures { (result.data_shards ≡ code.now.data_shards) × (result.parity_shards ≡ code.now.parity_shards)
        × (2 ^ result.all_levels ≤ 2 ^ 2 ^ 4) }
{
    match transform_code(code.data_shards, code.parity_shards) {
        Some(transform) => transform,
        None => unreachable!(),
    }
}

/// Writes the shards of parity. It fails where memory is refused.
pub(crate) fn encode_by_transform(
    alloc: Global,
    code: &StripeCode,
    shards: &mut [u8],
) -> Result<(), AllocError>
    requires transform { code.now.number ≢ 1 }
    requires whole { length shards.old ≡ (code.now.data_shards + code.now.parity_shards) * code.now.size }
    ensures encoded { IsOk result → AreTransformWords code.now.data_shards code.now.parity_shards code.now.size shards.new }
    ensures kept { (i : ℕ) → i < code.now.data_shards * code.now.size → slice_index shards.new i ≡ slice_index shards.old i }
    ensures long { length shards.new ≡ length shards.old }
{
    let transform = transform_of(code);
    let half = code.size / 2;
    let words = words_of(alloc, shards, 0, code.data_shards, half)?;
    let parity = coded_parity(alloc, &transform, words.as_slice(), half)?;
    write_words(parity.as_slice(), words.len(), shards);
    Ok(())
}

// The words of the shards of parity, of so many words each.
fn coded_parity(
    alloc: Global,
    transform: &TransformCode,
    words: &[u16],
    half: usize,
) -> Result<Vec<u16>, AllocError>
    requires some { 0 < half }
    requires points { 2 ^ transform.now.all_levels ≤ 2 ^ 2 ^ 4 }
    requires whole { length words.now ≡ transform.now.data_shards * half }
    ensures { IfOk result (λ parity. (length parity.items ≡ transform.now.parity_shards * half)
        × AreCodedColumns (level_element (λ word. word) 4) 0 4 transform.now.levels transform.now.data_shards transform.now.parity_shards
        half words.now parity.items) }
{
    let mut parity = zero_words(alloc, transform.parity_shard_count(), half)?;
    let mut space = zero_words(alloc, WORDS_A_POINT, transform.point_count())?;
    let _encoded = transform.encode::<u16, Bits16>(
        space.as_mut_slice(),
        words,
        parity.as_mut_slice(),
    );
    Ok(parity)
}

/// Restores the missing shards, of which as many are at hand as the data have, and leaves the others. It fails where memory is refused, and
/// then all are as they were.
pub(crate) fn restore_by_transform(
    alloc: Global,
    code: &StripeCode,
    shards: &mut [u8],
    present: &[bool],
) -> Result<(), AllocError>
    requires transform { code.now.number ≢ 1 }
    requires whole { length shards.old ≡ (code.now.data_shards + code.now.parity_shards) * code.now.size }
    requires flags { length present.now ≡ code.now.data_shards + code.now.parity_shards }
    requires enough { code.now.data_shards ≤ present_count present.now }
    ensures restored { let total = code.now.data_shards + code.now.parity_shards in (whole : List ℕ) → IsOk result
        → AreTransformWords code.now.data_shards code.now.parity_shards code.now.size whole → length whole ≡ length shards.old
        → AgreeWherePresent total code.now.size present.now shards.old whole → shards.new ≡ whole }
    ensures kept { IsOk result
        → AgreeWherePresent (code.now.data_shards + code.now.parity_shards) code.now.size present.now shards.new shards.old }
    ensures same { OnErr result (shards.new ≡ shards.old) }
    ensures long { length shards.new ≡ length shards.old }
{
    let transform = transform_of(code);
    let (mut words, mut parity) = words_of_shards(alloc, code, shards)?;
    let mut space = zero_words(alloc, WORDS_A_POINT, transform.point_count())?;
    restore_words(
        &transform,
        space.as_mut_slice(),
        words.as_mut_slice(),
        parity.as_mut_slice(),
        present,
        shards,
        code.size / 2,
    );
    Ok(())
}

// The words of the shards of data, and those of the shards of parity.
fn words_of_shards(
    alloc: Global,
    code: &StripeCode,
    shards: &[u8],
) -> Result<(Vec<u16>, Vec<u16>), AllocError>
    requires transform { code.now.number ≢ 1 }
    requires whole { length shards.now ≡ (code.now.data_shards + code.now.parity_shards) * code.now.size }
    ensures { IfOk result (λ words. AreShardWords code.now.data_shards code.now.parity_shards (code.now.size / 2) shards.now
        words.0.items words.1.items) }
{
    let half = code.size / 2;
    let words = words_of(alloc, shards, 0, code.data_shards, half)?;
    let parity = words_of(alloc, shards, words.len(), code.parity_shards, half)?;
    Ok((words, parity))
}

// Restores the missing shards of so many words each, and writes all to their bytes.
fn restore_words(
    transform: &TransformCode,
    space: &mut [u16],
    words: &mut [u16],
    parity: &mut [u16],
    present: &[bool],
    shards: &mut [u8],
    half: usize,
)
    requires some { 0 < half }
    requires points { 2 ^ transform.now.all_levels ≤ 2 ^ 2 ^ 4 }
    requires words { AreShardWords transform.now.data_shards transform.now.parity_shards half shards.old words.old parity.old }
    requires whole { length shards.old ≡ (transform.now.data_shards + transform.now.parity_shards) * (2 * half) }
    requires room { length space.old ≡ 40 * 2 ^ transform.now.all_levels }
    requires flags { length present.now ≡ transform.now.data_shards + transform.now.parity_shards }
    requires enough { transform.now.data_shards ≤ present_count present.now }
    ensures restored { let total = transform.now.data_shards + transform.now.parity_shards in (size : ℕ) (whole : List ℕ) → size ≡ 2 * half
        → AreTransformWords transform.now.data_shards transform.now.parity_shards size whole → length whole ≡ length shards.old
        → AgreeWherePresent total size present.now shards.old whole → shards.new ≡ whole }
    ensures kept { (size : ℕ) → size ≡ 2 * half
        → AgreeWherePresent (transform.now.data_shards + transform.now.parity_shards) size present.now shards.new shards.old }
    ensures long { length shards.new ≡ length shards.old }
{
    lost_symbols_return::<u16, Bits16>();
    let first = words.len();
    let _restored = transform.reconstruct::<u16, Bits16>(space, words, parity, present);
    write_words(words, 0, shards);
    write_words(parity, first, shards);
}

/// Whether the shards of parity are those of the data. It fails where memory is refused.
pub(crate) fn verify_by_transform(
    alloc: Global,
    code: &StripeCode,
    shards: &[u8],
) -> Result<bool, AllocError>
    requires transform { code.now.number ≢ 1 }
    requires whole { length shards.now ≡ (code.now.data_shards + code.now.parity_shards) * code.now.size }
    ensures { IfOk result (λ is_whole. IsTrue is_whole
        ↔ AreTransformWords code.now.data_shards code.now.parity_shards code.now.size shards.now) }
{
    let transform = transform_of(code);
    let (words, parity) = words_of_shards(alloc, code, shards)?;
    let mut space = zero_words(alloc, WORDS_A_POINT, transform.point_count())?;
    let is_whole = is_coded(
        &transform,
        space.as_mut_slice(),
        words.as_slice(),
        parity.as_slice(),
    );
    Ok(is_whole)
}

// Whether words of parity are those of the data, and all those of shards of one size.
fn is_coded(transform: &TransformCode, space: &mut [u16], words: &[u16], parity: &[u16]) -> bool
    requires points { 2 ^ transform.now.all_levels ≤ 2 ^ 2 ^ 4 }
    requires room { length space.old ≡ 40 * 2 ^ transform.now.all_levels }
    ensures { IsTrue result ↔ (HaveOneSize transform.now.data_shards transform.now.parity_shards (length words.now) (length parity.now)
        × AreCodedColumns (level_element (λ word. word) 4) 0 4 transform.now.levels transform.now.data_shards transform.now.parity_shards
        (length words.now / transform.now.data_shards) words.now parity.now) }
{
    match transform.verify::<u16, Bits16>(space, words, parity) {
        Ok(is_whole) => is_whole,
        Err(_) => false,
    }
}

// The code: how many shards of data and of parity there are, and what is done with them.
ghost use Rattle.std.specs.Prelude.{◌≡◌, ℕ, ◌+◌, ◌*◌, ◌/◌, ◌^◌, ◌<◌, ◌≤◌, ◌↔◌, length, IsTrue, IsOk, IfOk, IfErr, OnErr};
ghost use Rattle.additive_transforms.specs.Words.{level_element};
ghost use Rattle.reed_solomon.specs.Codes.{AreCodedColumns};
ghost use Rattle.reed_solomon.specs.Locators.{lost_count};
ghost use Rattle.reed_solomon.specs.Restoring.{AreRestoredColumns, is_missing};
ghost use Rattle.reed_solomon.specs.TransformSizes.{CanEncode, CanRebuild, EncodeError, HaveOneSize, IsPadded, RebuildError, SizeError};
ghost use Rattle.reed_solomon.specs.declared.transform_error.TransformCodeError.TheVariants.{TooFewDataShards};
ghost use Rattle.reed_solomon.specs.declared.transform_error.TransformCodeError.TheVariants.{TooFewParityShards, TooManyShards};

use crate::comparing::are_coded;
use crate::direct::{are_few, restore_places};
use crate::encoding::encode_columns;
use crate::locators::set_factors;
use crate::restoring::restore_strip;
use crate::strips::{columns_at_once, strip_at};
use crate::transform_error::TransformCodeError;
use additive_transforms::StoredBytes;
use field_base::Unsigned;
use word_tower::Level;

/// An erasure code of so many shards of data and of parity. The data, of which there are k, have the points from 0 on, and the parity has
/// those from 2^n on, the least power of two that is not below k; there are at most 65,536 of all. No call takes memory.
#[derive(Clone, Copy)]
pub struct TransformCode {
    pub(crate) data_shards: usize,
    pub(crate) parity_shards: usize,
    pub(crate) levels: usize,
    pub(crate) all_levels: usize,
    ghost some_data: { 0 < data_shards },
    ghost some_parity: { 0 < parity_shards },
    ghost padded: { IsPadded data_shards levels },
    ghost low: { levels ≤ 16 },
    ghost few: { 2 ^ levels + parity_shards ≤ 65536 },
    ghost all: { IsPadded (2 ^ levels + parity_shards) all_levels },
    ghost all_low: { all_levels ≤ 16 },
}

impl TransformCode {
    /// The code with so many shards of data and of parity: the number of data shards, up to a power of two, and that of parity shards are
    /// together at most 65,536. The error is the first that applies.
    pub fn new(
        data_shards: usize,
        parity_shards: usize,
    ) -> Result<TransformCode, TransformCodeError>
        ensures made { IfOk result (λ code. (code.data_shards ≡ data_shards) × (code.parity_shards ≡ parity_shards)) }
        ensures few_data { IfErr result (λ error. data_shards ≡ 0 → error ≡ TooFewDataShards) }
        ensures few_parity { IfErr result (λ error. 0 < data_shards → parity_shards ≡ 0 → error ≡ TooFewParityShards) }
        ensures many { IfErr result (λ error. 0 < data_shards → 0 < parity_shards
            → (error ≡ TooManyShards) × ((n : ℕ) → data_shards ≤ 2 ^ n → 65536 < 2 ^ n + parity_shards)) }
    {
        if data_shards == 0 {
            return Err(TransformCodeError::TooFewDataShards);
        }
        if parity_shards == 0 {
            return Err(TransformCodeError::TooFewParityShards);
        }
        if data_shards > 65536 || parity_shards > 65536 {
            return Err(TransformCodeError::TooManyShards);
        }
        let levels = levels_of(data_shards);
        let places = power_of(levels) + parity_shards;
        if places > 65536 {
            return Err(TransformCodeError::TooManyShards);
        }
        Ok(TransformCode {
            data_shards,
            parity_shards,
            levels,
            all_levels: levels_of(places),
        })
    }

    /// How many shards of data there are.
    pub fn data_shard_count(&self) -> usize
        ensures { result ≡ self.now.data_shards }
    {
        self.data_shards
    }

    /// How many shards of parity there are.
    pub fn parity_shard_count(&self) -> usize
        ensures { result ≡ self.now.parity_shards }
    {
        self.parity_shards
    }

    /// The number of coefficients of the polynomials: the least power of two that is not below the number of shards of data.
    pub fn coefficient_count(&self) -> usize
        ensures { result ≡ 2 ^ self.now.levels }
    {
        power_of(self.levels)
    }

    /// The number of points that `reconstruct` computes with: the least power of two that is not below `coefficient_count` and the number
    /// of shards of parity together.
    pub fn point_count(&self) -> usize
        ensures { result ≡ 2 ^ self.now.all_levels }
    {
        power_of(self.all_levels)
    }

    /// Whether the level has `point_count` points, as `reconstruct` requires.
    pub fn can_reconstruct<R: Unsigned, L: Level<R>>(&self) -> bool
        ensures { IsTrue result ↔ 2 ^ self.now.all_levels ≤ 2 ^ 2 ^ L.LEVEL }
    {
        has_points::<R, L>(self.point_count())
    }

    /// Writes the shards of parity. `data` and `parity` have their shards, of one size, one after the other; a word is an element of the
    /// level `L`, by as many bits as that has, and of the bits above these in a word of parity nothing is said. What `space` has before and
    /// afterwards does not matter: it takes two words for each of `coefficient_count`. Where it has so many several times, as many columns
    /// are encoded at once, up to 32, which is much faster. The error is the first that applies.
    pub fn encode<R: StoredBytes, L: Level<R>>(
        &self,
        space: &mut [R],
        shards: &[R],
        parity: &mut [R],
    ) -> Result<(), TransformCodeError>
        ensures accepted { IsOk result ↔ CanEncode L.LEVEL self.now.levels self.now.data_shards self.now.parity_shards
            (length shards.now) (length parity.old) (2 * 2 ^ self.now.levels) (length space.old) }
        ensures encoded { IsOk result → AreCodedColumns (level_element R.Stored.number L.LEVEL) R.ZERO L.LEVEL self.now.levels
            self.now.data_shards self.now.parity_shards (length shards.now / self.now.data_shards) shards.now parity.new }
        ensures long { length parity.new ≡ length parity.old }
        ensures refused { IfErr result (λ error. EncodeError L.LEVEL self.now.levels self.now.data_shards self.now.parity_shards
            (length shards.now) (length parity.old) error) }
        ensures same { OnErr result (parity.new ≡ parity.old) }
    {
        let points = self.coefficient_count();
        let size = self.shard_size::<R, L>(shards.len(), parity.len(), 2 * points, space.len())?;
        encode_columns::<R, L>(self, space, shards, parity, size);
        Ok(())
    }

    /// Whether the shards of parity are those of the data, symbol by symbol: those that `encode` writes, where bits of a word above the
    /// level do not count. What `space` has before and afterwards does not matter: it takes two words for each of `coefficient_count`,
    /// and one for each shard of parity, or several times as many, as for `encode`. The error is the first that applies.
    pub fn verify<R: StoredBytes, L: Level<R>>(
        &self,
        space: &mut [R],
        shards: &[R],
        parity: &[R],
    ) -> Result<bool, TransformCodeError>
        ensures accepted { let needed = 2 * 2 ^ self.now.levels + self.now.parity_shards in
            IsOk result ↔ CanEncode L.LEVEL self.now.levels self.now.data_shards self.now.parity_shards
            (length shards.now) (length parity.now) needed (length space.old) }
        ensures answer { IfOk result (λ is_whole. IsTrue is_whole ↔ AreCodedColumns (level_element R.Stored.number L.LEVEL) R.ZERO L.LEVEL
            self.now.levels self.now.data_shards self.now.parity_shards (length shards.now / self.now.data_shards) shards.now parity.now) }
        ensures refused { IfErr result (λ error. EncodeError L.LEVEL self.now.levels self.now.data_shards self.now.parity_shards
            (length shards.now) (length parity.now) error) }
    {
        let points = self.coefficient_count();
        let needed = 2 * points + self.parity_shards;
        let size = self.shard_size::<R, L>(shards.len(), parity.len(), needed, space.len())?;
        let is_whole = are_coded::<R, L>(self, space, shards, parity, size);
        Ok(is_whole)
    }

    /// Restores the missing shards: shard i, of the data and then of the parity, is missing where `present[i]` is false, no more are than
    /// there are of parity, and what their words are does not matter. The shards become those of the code word that the ones at hand agree
    /// with, by as many bits of a word as the level has: of the bits above these in a restored word nothing is said. Where they agree with
    /// none, since a word is wrong, the missing ones become anything. The shards at hand stay. What `space` has does not matter: it takes
    /// five words for each of `point_count`, with which four columns are restored at once, and one more of each for each further column, up
    /// to 32 in all. The level has to have as many points. Each call takes some transforms of `point_count` points for each power of two
    /// below that, from 32 on. Besides, where few shards are missing, each word of these is a sum of products of those at hand in its
    /// column, and else a column takes two transforms, the second of as many points as reach the last missing shard. The error is the
    /// first that applies.
    pub fn reconstruct<R: StoredBytes, L: Level<R>>(
        &self,
        space: &mut [R],
        shards: &mut [R],
        parity: &mut [R],
        present: &[bool],
    ) -> Result<(), TransformCodeError>
        ensures accepted { IsOk result ↔ CanRebuild L.LEVEL self.now.all_levels self.now.data_shards self.now.parity_shards
            (length shards.old) (length parity.old) (length space.old) present.now }
        ensures restored { let size = length shards.old / self.now.data_shards in
            IsOk result → AreRestoredColumns (level_element R.Stored.number L.LEVEL) R.ZERO L.LEVEL self.now.levels self.now.data_shards
            self.now.parity_shards size present.now size shards.old parity.old shards.new parity.new }
        ensures long { length shards.new ≡ length shards.old }
        ensures parity_long { length parity.new ≡ length parity.old }
        ensures refused { IfErr result (λ error. RebuildError L.LEVEL self.now.all_levels self.now.data_shards
            self.now.parity_shards (length shards.old) (length parity.old) (length space.old) present.now error) }
        ensures same { OnErr result ((shards.new ≡ shards.old) × (parity.new ≡ parity.old)) }
    {
        let size = self.rebuild_size::<R, L>(shards.len(), parity.len(), space.len(), present)?;
        self.restore_shards::<R, L>(space, shards, parity, present, size);
        Ok(())
    }

    // Restores the missing shards of words that are those of shards of a size.
    fn restore_shards<R: StoredBytes, L: Level<R>>(
        &self,
        space: &mut [R],
        shards: &mut [R],
        parity: &mut [R],
        present: &[bool],
        size: usize,
    )
        requires whole { length shards.old ≡ self.now.data_shards * size }
        requires parity_whole { length parity.old ≡ self.now.parity_shards * size }
        requires can { CanRebuild L.LEVEL self.now.all_levels self.now.data_shards self.now.parity_shards
            (length shards.old) (length parity.old) (length space.old) present.now }
        ensures restored { AreRestoredColumns (level_element R.Stored.number L.LEVEL) R.ZERO L.LEVEL self.now.levels self.now.data_shards
            self.now.parity_shards size present.now size shards.old parity.old shards.new parity.new }
        ensures long { length shards.new ≡ length shards.old }
        ensures parity_long { length parity.new ≡ length parity.old }
    {
        let count = self.point_count();
        let (factors, rest) = space.split_at_mut(count);
        set_factors::<R, L>(factors, rest, self, present);
        if are_few(self, missing_count(present), size) {
            restore_places::<R, L>(self, present, factors, rest, shards, parity, size);
            return;
        }
        let most = columns_at_once(rest.len(), count);
        let mut start = 0;
        while start < size {
            let strip = strip_at(size, start, most);
            let (values, _rest) = rest.split_at_mut(count * strip.width);
            restore_strip::<R, L>(self, present, values, factors, shards, parity, strip);
            start += strip.width;
        }
    }

    // The size of each shard, by the words of all, where they can be restored.
    fn rebuild_size<R: Unsigned, L: Level<R>>(
        &self,
        words: usize,
        parity_words: usize,
        space: usize,
        present: &[bool],
    ) -> Result<usize, TransformCodeError>
        ensures accepted { IsOk result ↔ CanRebuild L.LEVEL self.now.all_levels self.now.data_shards self.now.parity_shards
            words parity_words space present.now }
        ensures size { IfOk result (λ size. (size ≡ words / self.now.data_shards) × (words ≡ self.now.data_shards * size)
            × (parity_words ≡ self.now.parity_shards * size)) }
        ensures refused { IfErr result (λ error. RebuildError L.LEVEL self.now.all_levels self.now.data_shards
            self.now.parity_shards words parity_words space present.now error) }
    {
        let count = self.point_count();
        if present.len() != self.data_shards + self.parity_shards {
            return Err(TransformCodeError::InvalidShardFlags);
        }
        if !self.can_reconstruct::<R, L>() {
            return Err(TransformCodeError::TooManyShards);
        }
        let size = self.one_size(words, parity_words)?;
        if missing_count(present) > self.parity_shards {
            return Err(TransformCodeError::TooFewShardsPresent);
        }
        if space < 5 * count {
            return Err(TransformCodeError::TooLittleSpace);
        }
        Ok(size)
    }

    // The size of each shard, by the words of all, where there is space for the words that are needed.
    fn shard_size<R: Unsigned, L: Level<R>>(
        &self,
        words: usize,
        parity_words: usize,
        needed: usize,
        space: usize,
    ) -> Result<usize, TransformCodeError>
        ensures accepted { IsOk result ↔ CanEncode L.LEVEL self.now.levels self.now.data_shards self.now.parity_shards words
            parity_words needed space }
        ensures size { IfOk result (λ size. (size ≡ words / self.now.data_shards) × (words ≡ self.now.data_shards * size)
            × (parity_words ≡ self.now.parity_shards * size)) }
        ensures refused { IfErr result (λ error. EncodeError L.LEVEL self.now.levels self.now.data_shards self.now.parity_shards words
            parity_words error) }
    {
        if !has_points::<R, L>(self.coefficient_count() + self.parity_shards) {
            return Err(TransformCodeError::TooManyShards);
        }
        let size = self.one_size(words, parity_words)?;
        if space < needed {
            return Err(TransformCodeError::TooLittleSpace);
        }
        Ok(size)
    }

    /// The size of each shard, by the words of all those of data and all those of parity, where all have one.
    pub fn one_size(&self, words: usize, parity_words: usize) -> Result<usize, TransformCodeError>
        ensures accepted { IsOk result ↔ HaveOneSize self.now.data_shards self.now.parity_shards words parity_words }
        ensures size { IfOk result (λ size. (size ≡ words / self.now.data_shards) × (words ≡ self.now.data_shards * size)
            × (parity_words ≡ self.now.parity_shards * size)) }
        ensures refused { IfErr result (λ error. SizeError self.now.data_shards self.now.parity_shards words parity_words error) }
    {
        if words == 0 {
            return Err(TransformCodeError::EmptyShard);
        }
        let size = words / self.data_shards;
        let whole = words % self.data_shards == 0 && parity_words % self.parity_shards == 0;
        if !whole || parity_words / self.parity_shards != size {
            return Err(TransformCodeError::IncorrectShardSize);
        }
        Ok(size)
    }
}

// The least n for which 2^n is not below k.
pub(crate) fn levels_of(k: usize) -> usize
    requires { k ≤ 65536 }
    ensures padded { IsPadded k result }
    ensures low { result ≤ 16 }
{
    for levels in 0..16 {
        if k <= 1 << levels {
            return levels;
        }
    }
    16
}

// Whether the level has so many points.
fn has_points<R: Unsigned, L: Level<R>>(points: usize) -> bool
    requires { points ≤ 65536 }
    ensures { IsTrue result ↔ points ≤ 2 ^ 2 ^ L.LEVEL }
{
    L::LEVEL >= 5 || points <= 1 << (1 << L::LEVEL)
}

// 2^levels.
pub(crate) fn power_of(levels: usize) -> usize
    requires { levels ≤ 16 }
    ensures power { result ≡ 2 ^ levels }
    ensures few { result ≤ 65536 }
{
    1 << levels
}

// How many shards are missing.
fn missing_count(present: &[bool]) -> usize
    ensures { result ≡ lost_count (is_missing present.now) (length present.now) }
{
    let mut count = 0;
    for i in 0..present.len() {
        if !present[i] {
            count += 1;
        }
    }
    count
}

// Blocks of words as slices of bits, and back. A block has as many words as a vector has bits.
ghost use Rattle.std.specs.Prelude.{◌≡◌, ◌<◌, ◌≤◌, ◌+◌, ◌*◌, ◌^◌, ℕ, get_or, length};
ghost use Rattle.bit_slices.specs.Layout.{AreInLanes, AreKept, IsDoneFrom, IsDoneUpTo};

use crate::operations::Operation;
use crate::sliced::SlicesOf;
use crate::word::TowerWord;
use field_base::Holds;

/// Sets the lanes to the words of the block that begins at `start`.
#[inline(always)]
pub(crate) fn load<R: TowerWord, W: Holds<R>, T: SlicesOf<R>>(
    block: &mut T,
    words: &[W],
    start: usize,
)
    requires { start + 128 * T.units ≤ length words.now }
    ensures { (d : W) → AreInLanes (2 ^ R.LEVEL) (T.units * R.COUNT) (T.lane block.new) (λ n. W.number (get_or words.now (start + n) d)) }
{
    block.read::<R, W>(words, start);
    block.turn();
}

// Sets the words of the block that begins at `start` to the lanes.
#[inline(always)]
fn store<R: TowerWord, W: Holds<R>, T: SlicesOf<R>>(block: &mut T, words: &mut [W], start: usize)
    requires { start + 128 * T.units ≤ length words.old }
    ensures stored { (d : W) → AreInLanes (2 ^ R.LEVEL) (T.units * R.COUNT) (T.lane block.old)
        (λ n. W.number (get_or words.new (start + n) d)) }
    ensures kept { AreKept start (128 * T.units) words.old words.new }
{
    block.turn();
    block.write::<R, W>(words, start);
}

// Changes each word of the block that begins at `start`. What `block` holds before is of no matter.
#[inline(always)]
fn change_block<R: TowerWord, W: Holds<R>, T: SlicesOf<R>, O: Operation<R, W, T>>(
    block: &mut T,
    words: &mut [W],
    others: &[W],
    start: usize,
)
    requires fits { start + 128 * T.units ≤ length words.old }
    requires reaches { (n : ℕ) → n < 128 * T.units → O.reaches others.now (start + n) }
    ensures changed { (n : ℕ) → n < 128 * T.units → (d : W) → O.gives others.now (start + n) (W.number (get_or words.old (start + n) d))
        (W.number (get_or words.new (start + n) d)) }
    ensures kept { AreKept start (128 * T.units) words.old words.new }
{
    load::<R, W, T>(block, words, start);
    O::change_block(block, others, start);
    store::<R, W, T>(block, words, start);
}

// Changes each word of the whole blocks. It is apart and never inlined, since a function clears its locals when it is called.
#[inline(never)]
fn change_blocks<R: TowerWord, W: Holds<R>, T: SlicesOf<R>, O: Operation<R, W, T>>(
    words: &mut [W],
    others: &[W],
    blocks: usize,
)
    requires fits { blocks * (128 * T.units) ≤ length words.old }
    requires reaches { (k : ℕ) → k < length words.old → O.reaches others.now k }
    ensures { IsDoneUpTo (blocks * (128 * T.units)) (O.gives others.now) W.number words.old words.new }
{
    let mut block = T::zeros();
    for number in 0..blocks {
        change_block::<R, W, T, O>(&mut block, words, others, number * T::lanes());
    }
}

/// Changes each word: whole blocks by slices of their bits, and the rest in a block of their own where that is faster than word by word.
#[inline(always)]
pub(crate) fn change_each<R: TowerWord, W: Holds<R>, T: SlicesOf<R>, O: Operation<R, W, T>>(
    words: &mut [W],
    others: &[W],
)
    requires { (k : ℕ) → k < length words.old → O.reaches others.now k }
    ensures long { length words.new ≡ length words.old }
    ensures changed { (k : ℕ) → k < length words.new → (d : W) → O.gives others.now k (W.number (get_or words.old k d))
        (W.number (get_or words.new k d)) }
{
    let blocks = words.len() / T::lanes();
    if blocks > 0 {
        change_blocks::<R, W, T, O>(words, others, blocks);
    }
    let start = blocks * T::lanes();
    let rest = words.len() - start;
    if T::lanes() == 128 && 0 < rest && rest <= 128 && O::pays(rest) {
        change_padded::<R, W, T, O>(words, others, start);
    } else {
        for place in start..words.len() {
            words[place] = O::result_at(words[place], others, place);
        }
    }
}

// Changes each word from `start` on in a block of their own, whose other words are of no matter.
#[inline(never)]
fn change_padded<R: TowerWord, W: Holds<R>, T: SlicesOf<R>, O: Operation<R, W, T>>(
    words: &mut [W],
    others: &[W],
    start: usize,
)
    requires one { 128 * T.units ≡ 128 }
    requires inside { start < length words.old }
    requires few { length words.old ≤ start + 128 }
    requires reaches { (k : ℕ) → k < length words.old → O.reaches others.now k }
    ensures { IsDoneFrom start (O.gives others.now) W.number words.old words.new }
{
    let mut block = padded::<R, W>(words, start, words[start]);
    let beside = padded::<R, W>(others, start, words[start]);
    change_blocks::<R, W, T, O>(&mut block, &beside, 1);
    for place in start..words.len() {
        words[place] = block[place - start];
    }
}

// The 128 words from `start` on, or as many as there are, and `filler` behind them.
fn padded<R: TowerWord, W: Holds<R>>(words: &[W], start: usize, filler: W) -> [W; 128]
    ensures { (n : ℕ) → n < 128 → start + n < length words.now → (d : W) → get_or result n d ≡ get_or words.now (start + n) d }
{
    let mut block = [filler; 128];
    for lane in 0..words.len().saturating_sub(start).min(128) {
        block[lane] = words[start + lane];
    }
    block
}

// The arithmetic of a level of the tower on slices of bits, in place: no value is passed or returned, since it may have 4 KiB.
ghost use Rattle.std.specs.Prelude.{◌≡◌, ◌≢◌, ◌<◌, ◌≤◌, ◌+◌, ◌*◌, ◌^◌, ℕ, bit_xor, get_or, length};
ghost use Rattle.field_base.specs.Field.{IsInverseOrZero};
ghost use Rattle.field_base.specs.Tower.{root, tower_mul};
ghost use Rattle.bit_slices.specs.Layout.{AreLanesExchanged, AreKept, IsLaidOut, IsTurned};

use crate::word::TowerWord;
use field_base::Holds;

/// As many elements of a level as a vector has bits: lane l has an element, bit i of which is bit l of vector i. Level k has 2^k vectors.
pub trait Sliced: Copy {
    ghost LEVEL: { ℕ };

    // How many times 128 bits a vector has.
    ghost units: { ℕ };

    // The element in a lane.
    ghost lane: { Self → ℕ → ℕ };

    // It stands above the functions, so that the terms of other impls can name it.
    ghost fits_law: { (x : Self) (l : ℕ) → lane x l < 2 ^ 2 ^ LEVEL };

    /// The number of the level.
    fn level() -> usize
        requires { LEVEL ≤ 7 }
        ensures { result ≡ LEVEL };

    /// How many lanes there are.
    fn lanes() -> usize
        ensures { result ≡ 128 * units };

    /// A block of zeros.
    fn zeros() -> Self
        ensures { (l : ℕ) → lane result l ≡ 0 };

    /// Sets each lane to the sum.
    fn set_sum(&mut self, x: &Self, y: &Self)
        ensures { (l : ℕ) → lane self.new l ≡ bit_xor (lane x.now l) (lane y.now l) };

    /// Adds lane by lane.
    fn add(&mut self, x: &Self)
        ensures { (l : ℕ) → lane self.new l ≡ bit_xor (lane self.old l) (lane x.now l) };

    /// Sets each lane to the product.
    fn set_product(&mut self, x: &Self, y: &Self)
        ensures { (l : ℕ) → lane self.new l ≡ tower_mul LEVEL (lane x.now l) (lane y.now l) };

    /// Adds to each lane the product of x and the root that the level adjoins.
    fn add_by_root(&mut self, x: &Self)
        ensures { (l : ℕ) → lane self.new l ≡ bit_xor (lane self.old l) (tower_mul LEVEL (root LEVEL) (lane x.now l)) };

    /// Squares each lane.
    fn square(&mut self)
        ensures { (l : ℕ) → lane self.new l ≡ tower_mul LEVEL (lane self.old l) (lane self.old l) };

    /// Sets each lane to the inverse, and to 0 for 0.
    fn set_inverse(&mut self, x: &Self)
        ensures { (l : ℕ) → IsInverseOrZero (tower_mul LEVEL) (lane x.now l) (lane self.new l) };

    /// The lanes of x whose numbers have the bit `level` set, and those of y whose numbers have not, change places.
    fn exchange(x: &mut Self, y: &mut Self, level: usize)
        requires { level < 7 }
        ensures { AreLanesExchanged level (lane x.old) (lane y.old) (lane x.new) (lane y.new) };

    /// Transposes squares of 2^k vectors of 2^k lanes. It is its own inverse.
    fn turn(&mut self)
        requires { LEVEL ≤ 7 }
        ensures { IsTurned LEVEL (lane self.old) (lane self.new) };

    /// Reads the vectors from word `start` on, and returns where they end.
    fn read<R: TowerWord, W: Holds<R>>(&mut self, words: &[W], start: usize) -> usize
        requires { start + 2 ^ LEVEL * (units * R.COUNT) ≤ length words.now }
        ensures read { (d : W) → IsLaidOut (2 ^ R.LEVEL) (units * R.COUNT) (2 ^ LEVEL) (lane self.new)
            (λ n. W.number (get_or words.now (start + n) d)) }
        ensures end { result ≡ start + 2 ^ LEVEL * (units * R.COUNT) };

    /// Writes the vectors from word `start` on, and returns where they end.
    fn write<R: TowerWord, W: Holds<R>>(&self, words: &mut [W], start: usize) -> usize
        requires { start + 2 ^ LEVEL * (units * R.COUNT) ≤ length words.old }
        ensures written { (d : W) → IsLaidOut (2 ^ R.LEVEL) (units * R.COUNT) (2 ^ LEVEL) (lane self.now)
            (λ n. W.number (get_or words.new (start + n) d)) }
        ensures kept { AreKept start (2 ^ LEVEL * (units * R.COUNT)) words.old words.new }
        ensures end { result ≡ start + 2 ^ LEVEL * (units * R.COUNT) };

    ghost some_law: { 0 < units };
}

/// Slices of the level of the words `R`.
pub trait SlicesOf<R: TowerWord>: Sliced {
    ghost level_law: { Self.LEVEL ≡ R.LEVEL };
}

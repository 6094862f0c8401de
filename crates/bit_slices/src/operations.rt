// Operations on the elements of a block, each alone or with the word of another slice at its place.
ghost use Rattle.std.specs.Prelude.{◌≡◌, ◌<◌, ◌≤◌, ◌+◌, ◌*◌, ◌^◌, ℕ, List, get_or, length};
ghost use Rattle.std.proofs.Common.{◌∙◌, ap};
ghost use Rattle.field_base.specs.Field.{IsInverseOrZero};
ghost use Rattle.field_base.specs.Remainder.{mul_mod};
ghost use Rattle.field_base.specs.Tower.{tower_mul};

use crate::blocks::load;
use crate::moduli::{PolynomialBlock, multiply_block};
use crate::sliced::SlicesOf;
use crate::vector::Vector;
use crate::word::TowerWord;
use field_base::Holds;
use std::marker::PhantomData;

/// An operation on elements of the level of words.
pub trait Operation<R: TowerWord, W: Holds<R>, T: SlicesOf<R>> {
    // Whether it can be done at a place, which the other words may have to have.
    ghost reaches: { List W → ℕ → Type 0 };

    // How, with these other words and at this place, the number before is related to that after.
    ghost gives: { List W → ℕ → ℕ → ℕ → Type 0 };

    /// Changes each lane of the block whose words begin at `start`.
    fn change_block(block: &mut T, others: &[W], start: usize)
        requires { (n : ℕ) → n < 128 * T.units → reaches others.now (start + n) }
        ensures { (q r : ℕ) → q < T.units * R.COUNT → r < 2 ^ R.LEVEL → gives others.now (start + (r * (T.units * R.COUNT) + q))
            (T.lane block.old (q * 2 ^ R.LEVEL + r)) (T.lane block.new (q * 2 ^ R.LEVEL + r)) };

    /// What becomes of the word at a place.
    fn result_at(word: W, others: &[W], place: usize) -> W
        requires { reaches others.now place }
        ensures { gives others.now place (W.number word) (W.number result) };

    /// Whether a block of 128 words takes less than so many words one by one.
    fn pays(count: usize) -> bool;

    // It can be done at every place of the other words, and depends on no other place.
    ghost full_law: { (others : List W) (k : ℕ) → k < length others → reaches others k };

    ghost place_law: { (others beside : List W) (k n : ℕ) → reaches others k
        → (k < length others → (d : W) → get_or beside n d ≡ get_or others k d)
        → (x y : ℕ) → gives beside n x y → gives others k x y };
}

// The other word at a place.
#[inline(always)]
fn other_at<R: TowerWord, W: Holds<R>>(others: &[W], place: usize) -> R
    requires { place < length others.now }
    ensures { (d : W) → R.number result ≡ W.number (get_or others.now place d) }
{
    others[place].stored()
}

/// The product by the other word.
pub struct Product;

impl<R: TowerWord, W: Holds<R>, T: SlicesOf<R>> Operation<R, W, T> for Product {
    ghost reaches = { λ others k. k < length others };

    ghost gives = { λ others k x y. (d : W) → y ≡ tower_mul R.LEVEL x (W.number (get_or others k d)) };

    #[inline(always)]
    fn change_block(block: &mut T, others: &[W], start: usize) {
        let left = *block;
        let mut right = *block;
        load::<R, W, T>(&mut right, others, start);
        block.set_product(&left, &right);
    }

    #[inline(always)]
    fn result_at(word: W, others: &[W], place: usize) -> W {
        W::of_stored(word.stored().multiply(other_at::<R, W>(others, place)))
    }

    #[inline(always)]
    fn pays(count: usize) -> bool {
        count >= 80
    }

    ghost full_law = { λ others k inside. inside };

    ghost place_law = { λ others beside k n reached same x y is d.
        is d ∙ ap (λ (w : W). tower_mul R.LEVEL x (W.number w)) (same reached d) };
}

/// The inverse, and 0 for 0.
pub struct Inverse;

impl<R: TowerWord, W: Holds<R>, T: SlicesOf<R>> Operation<R, W, T> for Inverse {
    ghost reaches = { λ others k. Unit {0} };

    ghost gives = { λ others k x y. (y < 2 ^ 2 ^ R.LEVEL) × IsInverseOrZero (tower_mul R.LEVEL) x y };

    #[inline(always)]
    fn change_block(block: &mut T, _others: &[W], _start: usize) {
        let element = *block;
        block.set_inverse(&element);
    }

    #[inline(always)]
    fn result_at(word: W, _others: &[W], _place: usize) -> W {
        W::of_stored(word.stored().invert())
    }

    #[inline(always)]
    fn pays(count: usize) -> bool {
        count >= 64 || R::BITS > 16 && count >= 32
    }

    ghost full_law = { λ others k inside. tt };

    ghost place_law = { λ others beside k n reached same x y is. is };
}

/// The product of polynomials by the other word, modulo that of the block.
pub struct PolynomialProduct<V>(PhantomData<V>);

impl<V: Vector, R: TowerWord, W: Holds<R>, T: SlicesOf<R> + PolynomialBlock<V>> Operation<R, W, T>
    for PolynomialProduct<V> {
    ghost reaches = { λ others k. k < length others };

    ghost gives = { λ others k x y. (d : W) → y ≡ mul_mod (2 ^ R.LEVEL) T.modulus x (W.number (get_or others k d)) };

    #[inline(always)]
    fn change_block(block: &mut T, others: &[W], start: usize) {
        let mut right = *block;
        load::<R, W, T>(&mut right, others, start);
        multiply_block(block, &right);
    }

    #[inline(always)]
    fn result_at(word: W, others: &[W], place: usize) -> W {
        let left = word.stored().to_number();
        let right = other_at::<R, W>(others, place).to_number();
        W::of_stored(R::of_number(T::multiply_numbers(left, right)))
    }

    #[inline(always)]
    fn pays(count: usize) -> bool {
        count >= 80
    }

    ghost full_law = { λ others k inside. inside };

    ghost place_law = { λ others beside k n reached same x y is d.
        is d ∙ ap (λ (w : W). mul_mod (2 ^ R.LEVEL) T.modulus x (W.number w)) (same reached d) };
}

// The field of GHASH by the tower: words that hold elements of the level of 128 bits, as the polynomials that are their images.
ghost use Rattle.std.specs.Prelude.{◌≡◌, ℕ, length, map};
ghost use Rattle.std.proofs.Common.{lit<};
ghost use Rattle.ghash_slices.specs.LowStages.{ghash_cantor_vector, ghash_product};
ghost use Rattle.additive_transforms.specs.lemmas.Counting.{nothing_counted};
ghost use Rattle.additive_transforms.specs.lemmas.Image.{ghash_ring_laws, ghash_vector_laws, image_fits};
ghost use Rattle.additive_transforms.specs.Images.{after_change, before_change, tower_image};

use crate::arithmetic::butterflies_by_width;
use crate::elements::arithmetic::{StageArithmetic, Uncounted};
use field_base::Holds;
use ghash_slices::{number_at, put_number};
use std::marker::PhantomData;
use word_tables::{to_polynomial_128, to_tower_128};
use word_tower::{Bits128, Level};

/// The arithmetic of the tower's level of 128 bits, where a word stands for the image of the element that it holds.
pub(crate) struct OfImages<W>(PhantomData<W>);

impl<W: Holds<u128>> StageArithmetic for OfImages<W> {
    type Value = W;

    type Twiddle = u128;

    type Counter = ();

    ghost width = { 128 };

    ghost product = { ghash_product };

    ghost vector = { ghash_cantor_vector };

    ghost value = { λ x. tower_image (W.number x) };

    ghost number = { tower_image };

    ghost counted = { λ _ _ _. Unit {0} };

    ghost has_room = { λ _ _. Unit {0} };

    #[inline]
    fn sum(x: u128, y: u128) -> u128 {
        x ^ y
    }

    #[inline]
    fn cantor_vector(i: usize) -> u128 {
        word_tables::cantor_vector(i)
    }

    fn square(x: u128) -> u128 {
        <Bits128 as Level<u128>>::square(x)
    }

    fn butterflies(counter: &mut (), lo: &mut [W], hi: &mut [W], twiddle: u128, inverse: bool) {
        butterflies_by_width::<u128, Bits128, W>(lo, hi, twiddle, inverse);
    }

    ghost count_law = { nothing_counted };

    ghost wide_law = { lit< tt };

    ghost ring_law = { ghash_ring_laws };

    ghost vector_law = { ghash_vector_laws };

    ghost range_law = { λ x. image_fits (W.number x) };
}

impl<W: Holds<u128>> Uncounted for OfImages<W> {
    ghost room_law = { λ _ _. tt };
}

/// Replaces each polynomial by the element of the tower whose image it is, or, where `back` is true, each element by its image.
pub(crate) fn change_basis<W: Holds<u128>>(words: &mut [W], back: bool)
    ensures changed { map (after_change back) (map W.number words.new) ≡ map (before_change back) (map W.number words.old) }
    ensures length { length words.new ≡ length words.old }
{
    for place in 0..words.len() {
        let number = number_at(words, place);
        put_number(words, place, changed(number, back));
    }
}

// The element whose image this is, or the image of this one.
#[inline(always)]
fn changed(number: u128, back: bool) -> u128
    ensures { after_change back result ≡ before_change back number }
{
    if back {
        to_polynomial_128(number)
    } else {
        to_tower_128(number)
    }
}

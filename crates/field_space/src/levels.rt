// Levels of the tower as vector spaces over the levels inside them.
ghost use Rattle.std.specs.Prelude.{◌≡◌, ◌<◌, ◌≤◌, ◌*◌, ◌+◌, ◌-◌, ◌^◌, ℕ, List, map, replicate};
ghost use Rattle.field_base.specs.Chunks.{chunk, chunks};
ghost use Rattle.field_element.specs.Element.{repr_of};

mod impls;

use field_base::{FieldKernel, Unsigned};
use field_element::{Below, Element, element_of_word, word_of};
use word_tower::{Level, Tower};

/// A level of the tower inside the level `L`, so that the elements of `L` are vectors over it: coefficient i of an element is
/// chunk i of its number. The marker is local to this crate, so that the compiler knows that no level lies inside itself.
pub trait CoefficientsOf<R: Unsigned, L: Level<R>, S: Unsigned>: Below<R, Tower<L>, S> {
    /// How many coefficients an element of `L` has.
    const COUNT: usize;

    ghost COUNT: { ℕ };

    // The text that names `L` as an algebra over this level, with the bits of both.
    ghost identity: { List ℕ };

    /// The text.
    fn identity() -> &'static [u8]
        ensures { result.now ≡ identity };

    ghost count_law: { COUNT ≡ 2 ^ (L.LEVEL - Self.LEVEL) };
}

// Coefficient `i` of an element of `L`.
#[inline]
fn coefficient_of<R: Unsigned, L: Level<R>, S: Unsigned, J: CoefficientsOf<R, L, S>>(
    x: R,
    i: usize,
) -> S
    requires place { i < J.COUNT }
    ensures { S.number result ≡ chunk (2 ^ J.LEVEL) i (R.number x) }
{
    J::truncate(S::of_u128(x.to_u128() >> (i << J::LEVEL)))
}

// Coefficient `i` of an element of `L`, as an element.
#[inline]
fn level_coefficient<R: Unsigned, L: Level<R>, S: Unsigned, J: CoefficientsOf<R, L, S>>(
    element: &Element<R, Tower<L>>,
    i: usize,
) -> Element<S, Tower<J>>
    requires { i < J.COUNT }
    ensures { repr_of result ≡ chunk (2 ^ J.LEVEL) i (repr_of element.now) }
{
    element_of_word(coefficient_of::<R, L, S, J>(word_of(element), i))
}

// An array of `N` times `x`. At the type of elements itself the borrow checker does not see that they may be copied.
fn filled<F: Copy, const N: usize>(x: F) -> [F; N]
    ensures { result ≡ replicate N x }
{
    [x; N]
}

// The array of the `N` coefficients of an element of `L`. It stands over kernels alone: a call between two named levels then
// names nothing else that a field is.
fn level_coefficients<
    R: Unsigned,
    L: Level<R>,
    S: Unsigned,
    J: CoefficientsOf<R, L, S>,
    const N: usize,
>(element: &Element<R, Tower<L>>) -> [Element<S, Tower<J>>; N]
    requires { N ≡ J.COUNT }
    ensures { map repr_of result ≡ chunks (2 ^ J.LEVEL) N (repr_of element.now) }
{
    let mut coefficients = filled::<Element<S, Tower<J>>, N>(element_of_word(S::ZERO));
    for i in 0..N {
        coefficients[i] = level_coefficient::<R, L, S, J>(element, i);
    }
    coefficients
}

// The element of `L` with `coefficient` in place `i`, at an element whose coefficients from there on are 0.
#[inline]
fn put_coefficient<R: Unsigned, L: Level<R>, S: Unsigned, J: CoefficientsOf<R, L, S>>(
    x: R,
    i: usize,
    coefficient: S,
) -> R
    requires place { i < J.COUNT }
    requires below { R.number x < 2 ^ (2 ^ J.LEVEL * i) }
    requires fits { S.number coefficient < 2 ^ 2 ^ J.LEVEL }
    ensures { R.number result ≡ S.number coefficient * 2 ^ (2 ^ J.LEVEL * i) + R.number x }
{
    R::of_u128(x.to_u128() + (coefficient.to_u128() << (i << J::LEVEL)))
}

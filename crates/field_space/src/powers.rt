// The powers of an element, one after the other.
ghost use Rattle.std.specs.Prelude.{◌≡◌};
ghost use Rattle.field_space.specs.PowerItems.{ArePowersOf, AreShiftedPowersOf, GivesNextPower};

use field_base::traits::{PrimeCharacteristicRing, Represented};

/// The powers x^0, x^1, x^2, .. of an element x, each times a first element, without end. Its items are taken by a count, as
/// `powers.take(n)`.
#[derive(Clone, Drop)]
pub struct Powers<R> {
    base: R,
    current: R,
}

impl<R: Represented> Powers<R> {
    /// The powers of `base`, each times `first`.
    pub(crate) fn of(base: R, first: R) -> Powers<R>
        ensures base { result.base ≡ base }
        ensures current { result.current ≡ first }
    {
        Powers {
            base,
            current: first,
        }
    }
}

impl<R: Represented> Iterator for Powers<R> {
    type Item = R;

    ghost next_gives = { GivesNextPower R.repr R.product };

    fn next(&mut self) -> Option<R> {
        let item = self.current;
        self.current = item * self.base;
        Some(item)
    }
}

/// The powers of an element, which every ring has.
pub trait HasPowers: PrimeCharacteristicRing {
    /// The powers of the element from the power of 0 on, which is 1.
    fn powers(&self) -> Powers<Self>
        ensures { ArePowersOf Self.repr Self.unit Self.product (Self.repr self.now) result };

    /// The powers of the element x from the power of 0 on, each times `first`: `first`, `first` x, `first` x², ..
    fn shifted_powers(&self, first: Self) -> Powers<Self>
        ensures { AreShiftedPowersOf Self.repr Self.unit Self.product (Self.repr first) (Self.repr self.now) result };
}

impl<R: PrimeCharacteristicRing> HasPowers for R {
    fn powers(&self) -> Powers<R> {
        Powers::of(*self, R::ONE)
    }

    fn shifted_powers(&self, first: R) -> Powers<R> {
        Powers::of(*self, first)
    }
}

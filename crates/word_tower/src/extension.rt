// A level of the tower by the halves of its elements.
ghost use Rattle.std.specs.Prelude.{◌≡◌, ◌<◌, ◌^◌};
ghost use Rattle.field_base.specs.Quadratic.{high_half, low_half, pair};

use crate::level::Level;
use field_base::Unsigned;

/// A level above another: an element `low + high X` is a word of two halves, which are elements of the level below.
pub trait Extension<R: Unsigned> {
    /// The word that stores a half.
    type Half: Unsigned;

    /// The level below.
    type Below: Level<Self::Half>;

    /// The half that the root does not multiply.
    fn low(x: R) -> Self::Half
        ensures { Self.Half.number result ≡ low_half (2 ^ Self.Below.LEVEL) (R.number x) };

    /// The half that the root multiplies.
    fn high(x: R) -> Self::Half
        ensures { Self.Half.number result ≡ high_half (2 ^ Self.Below.LEVEL) (R.number x) };

    /// The element of two halves.
    fn join(low: Self::Half, high: Self::Half) -> R
        requires low { Self.Half.number low < 2 ^ 2 ^ Self.Below.LEVEL }
        requires high { Self.Half.number high < 2 ^ 2 ^ Self.Below.LEVEL }
        ensures { R.number result ≡ pair (2 ^ Self.Below.LEVEL) (Self.Half.number low) (Self.Half.number high) };
}

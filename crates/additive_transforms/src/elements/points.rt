// The points of a transform.
ghost use Rattle.std.specs.Prelude.{◌≡◌};
ghost use Rattle.ghash_slices.specs.Cantor.{point};

use field_base::traits::TowerLevel;

/// Point p of a transform with the shift z, at which the value at place p is that of the polynomial: z, and Cantor vector b for
/// each set bit b of p (D. G. Cantor, On arithmetical algorithms over finite fields, Journal of Combinatorial Theory A 50, 1989).
/// Of p it reads as many bits as the field has. Points of different numbers below 2 to the power of those bits are different, as
/// `points_are_distinct` states.
pub fn element_point<F: TowerLevel>(z: F, p: u128) -> F
    ensures { F.repr result ≡ point F.width (λ i. F.basis (F.cantor i)) (F.repr z) p }
{
    let mut sum = z;
    let mut rest = p;
    for bit in 0..F::bits() {
        if rest % 2 == 1 {
            sum = sum + F::cantor_basis(bit);
        }
        rest /= 2;
    }
    sum
}

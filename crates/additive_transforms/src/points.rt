// The points of a transform.
ghost use Rattle.std.specs.Prelude.{◌≡◌};
ghost use Rattle.ghash_slices.specs.Cantor.{point};
ghost use Rattle.ghash_slices.specs.LowStages.{ghash_cantor_vector};

use word_tables::{cantor_vector, sum_of_images, to_polynomial_128};

/// Point p of a transform with the shift z, at which the value at place p is that of the polynomial: z, and Cantor vector b for
/// each set bit b of p (D. G. Cantor, On arithmetical algorithms over finite fields, Journal of Combinatorial Theory A 50, 1989).
/// Points of different numbers are different, as `points_are_distinct` states. It computes all 128 vectors.
pub fn point(z: u128, p: u128) -> u128
    ensures { result ≡ point 128 ghash_cantor_vector z p }
{
    let mut vectors = [0; 128];
    for bit in 0..128 {
        vectors[bit] = to_polynomial_128(cantor_vector(bit));
    }
    z ^ sum_of_images(&vectors, p)
}

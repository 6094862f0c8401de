// The twiddles of the four lowest stages of a transform.
ghost use Rattle.std.specs.Prelude.{◌≡◌, ◌<◌, ◌≤◌, ℕ, length};
ghost use Rattle.ghash_slices.specs.LowStages.{ghash_cantor_vector, ghash_product};
ghost use Rattle.ghash_slices.specs.Cantor.{AreCantorTwiddles};

use word_carryless::square_mod_128;
use word_tables::{cantor_vector, to_polynomial_128};

/// The twiddles of the four lowest stages of a transform with the shift z: shift j is s_j(z), and element t of the basis is Cantor
/// vector t + 1.
#[derive(Drop)]
pub(crate) struct Twiddles {
    pub(crate) z: u128,
    pub(crate) shifts: [u128; 4],
    pub(crate) basis: [u128; 39],
    ghost are: { AreCantorTwiddles 128 ghash_product ghash_cantor_vector z 4 shifts basis },
    ghost four: { length shifts ≡ 4 },
    ghost reach: { length basis ≡ 39 },
}

impl Twiddles {
    pub(crate) fn new(z: u128) -> Twiddles
        ensures { result.z ≡ z }
    {
        // One square from the shift before it, where `shift` begins anew for each stage.
        let mut shifts = [z; 4];
        for j in 1..4 {
            shifts[j] = square_mod_128(shifts[j - 1]) ^ shifts[j - 1];
        }
        let mut basis = [0; 39];
        for t in 0..39 {
            basis[t] = to_polynomial_128(cantor_vector(t + 1));
        }
        Twiddles { z, shifts, basis }
    }
}

// The twiddles of a stage, block after block.
ghost use Rattle.std.specs.Prelude.{◌≡◌, ℕ, ◌+◌, ◌-◌, ◌^◌, ◌<◌, bit_xor};
ghost use Rattle.field_base.specs.LinearMaps.{linear_image};
ghost use Rattle.additive_transforms.specs.Elements.{twiddle_basis};

use crate::elements::arithmetic::StageArithmetic;

/// The twiddle of all pairs of a block of a stage: the shift of the stage, and the elements of the basis at the set bits of the
/// block's number. `before` is the twiddle of the block before it, of which block 0 needs none. In a row of blocks it adds two
/// vectors to each, on average.
pub(crate) fn block_twiddle<K: StageArithmetic>(
    shift: K::Twiddle,
    before: K::Twiddle,
    block: usize,
) -> K::Twiddle
    requires few { block < 2 ^ (K.width - 1) }
    requires before { 0 < block → K.number before ≡ bit_xor (K.number shift) (linear_image (twiddle_basis K.width K.vector) (block - 1)) }
    ensures { K.number result ≡ bit_xor (K.number shift) (linear_image (twiddle_basis K.width K.vector) block) }
{
    if block == 0 {
        return shift;
    }
    next_twiddle::<K>(before, block - 1)
}

// The twiddle of the block after this one: the ones that end its number become zeros, and the zero above them becomes a one.
fn next_twiddle<K: StageArithmetic>(twiddle: K::Twiddle, block: usize) -> K::Twiddle
    requires { block + 1 < 2 ^ (K.width - 1) }
    ensures { (shift : ℕ) → K.number twiddle ≡ bit_xor shift (linear_image (twiddle_basis K.width K.vector) block)
        → K.number result ≡ bit_xor shift (linear_image (twiddle_basis K.width K.vector) (block + 1)) }
{
    let mut sum = twiddle;
    let mut rest = block;
    let mut element = 0;
    while rest % 2 == 1 {
        sum = K::sum(sum, K::cantor_vector(element + 1));
        rest /= 2;
        element += 1;
    }
    K::sum(sum, K::cantor_vector(element + 1))
}

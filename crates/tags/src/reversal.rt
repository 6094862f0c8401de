// The bits of a double word in the other order.
ghost use Rattle.std.specs.Prelude.{◌≡◌, ◌<◌};
ghost use Rattle.std.specs.Int.{reverse_bits, w128};
ghost use Rattle.tags.specs.Swaps.{swap_step};

// The bits of x, last first. Neighbouring fields change places, of 1 bit each, then of 2, 4, .., 64:
//
//     a b c d e f g h  ->  b a d c f e h g  ->  d c b a h g f e  ->  h g f e d c b a
//
// The library's own `reverse_bits` goes bit by bit.
#[inline]
pub(crate) fn reversed_bits(x: u128) -> u128
    ensures { result ≡ reverse_bits w128 x }
{
    let pairs = swap_fields(x, 1, 0x5555_5555_5555_5555_5555_5555_5555_5555);
    let nibbles = swap_fields(pairs, 2, 0x3333_3333_3333_3333_3333_3333_3333_3333);
    let bytes = swap_fields(nibbles, 4, 0x0f0f_0f0f_0f0f_0f0f_0f0f_0f0f_0f0f_0f0f);
    let words = swap_fields(bytes, 8, 0x00ff_00ff_00ff_00ff_00ff_00ff_00ff_00ff);
    let halves = swap_fields(words, 16, 0x0000_ffff_0000_ffff_0000_ffff_0000_ffff);
    let wholes = swap_fields(halves, 32, 0x0000_0000_ffff_ffff_0000_0000_ffff_ffff);
    swap_fields(wholes, 64, 0xffff_ffff_ffff_ffff)
}

// The fields of `shift` bits under the mask, and those above them, in each other's places.
#[inline(always)]
fn swap_fields(x: u128, shift: u32, mask: u128) -> u128
    requires { shift < 128 }
    ensures { result ≡ swap_step shift mask x }
{
    ((x >> shift) & mask) ^ ((x & mask) << shift)
}

// The halves of words.
ghost use Rattle.std.specs.Prelude.{◌≡◌, ◌*◌, ◌+◌, ◌^◌};

/// The low and the high half of a word.
#[inline]
#[tactic(auto, using(crate::proofs::Halves::halves_64))]
pub fn split_64(x: u64) -> (u32, u32)
    ensures { x ≡ result.1 * 2 ^ 32 + result.0 }
{
    ((x & 0xffff_ffff) as u32, (x >> 32) as u32)
}

/// The low and the high half of a double word.
#[inline]
#[tactic(auto, using(crate::proofs::Halves::halves_128))]
pub fn split_128(x: u128) -> (u64, u64)
    ensures { x ≡ result.1 * 2 ^ 64 + result.0 }
{
    ((x & 0xffff_ffff_ffff_ffff) as u64, (x >> 64) as u64)
}

/// The double word of a low and a high half.
#[inline]
#[tactic(auto, using(crate::proofs::Halves::joined_halves_128))]
pub fn join_128(low: u64, high: u64) -> u128
    ensures { result ≡ high * 2 ^ 64 + low }
{
    ((high as u128) << 64) ^ (low as u128)
}

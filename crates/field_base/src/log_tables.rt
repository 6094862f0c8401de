// Products of bytes by tables of powers and of logarithms of a generator of their field.
ghost use Rattle.std.specs.Prelude.{◌≡◌, ◌+◌, ◌<◌, ◌≤◌, ℕ, slice_index};

/// The entry of a table of powers at the sum of the logarithms of two bytes. The logarithm of 0 may be so large that the table has
/// 0 at each sum with it, so that no operand is compared with 0.
#[inline]
pub fn power_of_sum(powers: &[u8; 1023], logarithms: &[u16; 256], a: u8, b: u8) -> u8
    requires { (x : ℕ) → x < 256 → slice_index logarithms.now x ≤ 511 }
    ensures { result ≡ slice_index powers.now (slice_index logarithms.now a + slice_index logarithms.now b) }
{
    powers[logarithms[a as usize] as usize + logarithms[b as usize] as usize]
}

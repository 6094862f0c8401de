// Numbers from their bytes.
ghost use Rattle.std.specs.Prelude.{◌≡◌, ◌<◌, ◌≤◌, ◌+◌, ◌*◌, ◌^◌, length, reverse};
ghost use Rattle.field_bytes.specs.Bytes.{number_of_bytes};

/// The number of at most 16 bytes, the lowest first.
pub fn number_of_low_first(bytes: &[u8]) -> u128
    requires { length bytes.now ≤ 16 }
    ensures { result ≡ number_of_bytes bytes.now }
{
    let mut number: u128 = 0;
    for i in 0..bytes.len() {
        number = with_low_byte(number, bytes[bytes.len() - 1 - i]);
    }
    number
}

/// The number of at most 16 bytes, the highest first.
pub fn number_of_high_first(bytes: &[u8]) -> u128
    requires { length bytes.now ≤ 16 }
    ensures { result ≡ number_of_bytes (reverse bytes.now) }
{
    let mut number: u128 = 0;
    for i in 0..bytes.len() {
        number = with_low_byte(number, bytes[i]);
    }
    number
}

// The number with one byte more, which becomes its lowest.
#[inline]
fn with_low_byte(number: u128, byte: u8) -> u128
    requires { number * 256 + byte < 2 ^ 128 }
    ensures { result ≡ number * 256 + byte }
{
    number * 256 + u128::from(byte)
}

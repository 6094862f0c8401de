// The shortest shift register of a sequence of bytes, by that over any field (`field_code::registers`).
ghost use Rattle.std.specs.Prelude.{◌<◌, slice_index};
ghost use Rattle.reed_solomon.specs.ByteFields.{byte_times};
ghost use Rattle.error_codes.specs.Registers.{IsShortest};

use crate::field_code::registers::write_register;
use crate::symbols::{narrow, widen};
use reed_solomon::byte_field::ByteField;

/// A linear shift register of bytes, by which a sequence goes on: the sum of an entry and of the `size` entries before it, each times its
/// coefficient, the entry's own first, is 0.
#[derive(Clone, Copy)]
pub struct Register {
    /// The coefficients: 1, then `size` of them, and zeros.
    pub coefficients: [u8; 256],
    /// How many entries before another one it takes.
    pub size: usize,
}

/// A shortest register that gives the first `count` entries of a sequence, of which there may be at most 255: from entry `size` on each is
/// what the register makes of those before it, and no shorter register does that.
pub fn shortest_register(field: ByteField, entries: &[u8; 256], count: usize) -> Register
    requires { count < 256 }
    ensures { IsShortest (byte_times field) (slice_index entries.now) result.size count (slice_index result.coefficients) }
{
    let mut symbols = [0; 256];
    widen(entries, &mut symbols);
    let mut row = [0; 256];
    let mut older = [0; 256];
    let mut spare = [0; 256];
    let size = write_register(field, &symbols, count, &mut row, &mut older, &mut spare);
    let mut coefficients = [0; 256];
    narrow(&row, &mut coefficients);
    Register { coefficients, size }
}

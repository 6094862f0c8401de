// Operands as hexadecimal text.
ghost use Rattle.std.specs.Prelude.{◌≡◌, ◌≤◌};
ghost use Rattle.std.specs.Option.{option_map};
ghost use Rattle.calculator.specs.Digits.{operand_value};
ghost use Rattle.calculator.specs.Number.{wide_value};

use crate::number::Number;

/// The number of an operand of `num_bytes` bytes; None for a word that is not exactly two digits a byte.
pub(crate) fn operand_value(word: &[u8], num_bytes: usize) -> Option<Number>
    requires { num_bytes ≤ 24 }
    ensures { option_map wide_value result ≡ operand_value num_bytes word.now }
{
    let mut buffer = [0u8; 24];
    let bytes = &mut buffer[..num_bytes];
    if hex::decode_to_slice(word, bytes).is_err() {
        return None;
    }
    Some(Number::from_bytes(bytes))
}

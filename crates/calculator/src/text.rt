// The text of an answer.
ghost use Rattle.std.specs.Prelude.{◌≡◌, ◌≤◌, ◌<◌, ◌*◌, length};
ghost use Rattle.calculator.specs.Digits.{hex_text};
ghost use Rattle.calculator.specs.Number.{wide_value};

use crate::number::Number;

/// The bytes with which a line is answered, at most 48, without a line feed.
#[derive(Drop)]
pub struct Answer {
    bytes: [u8; 48],
    len: usize,
    ghost fits: { len ≤ 48 },
}

impl Answer {
    ghost use Rattle.calculator.specs.Text.{answer_bytes};

    /// The answer of these bytes.
    pub(crate) fn from_text(text: &[u8]) -> Answer
        requires { length text.now ≤ 48 }
        ensures { answer_bytes result ≡ text.now }
    {
        let mut bytes = [0; 48];
        let len = text.len();
        bytes[..len].copy_from_slice(text);
        Answer { bytes, len }
    }

    /// The low `num_bytes` bytes of a number as hexadecimal text, two digits for each.
    pub(crate) fn from_number(number: Number, num_bytes: usize) -> Answer
        requires { num_bytes ≤ 24 }
        ensures { answer_bytes result ≡ hex_text num_bytes (wide_value number) }
    {
        let mut bytes = [0; 48];
        let all_bytes = number.to_bytes();
        let low_bytes = &all_bytes[24 - num_bytes..];
        let encoded = hex::encode_to_slice(low_bytes, &mut bytes[..2 * num_bytes]);
        if encoded.is_err() {
            unreachable!();
        }
        Answer {
            bytes,
            len: 2 * num_bytes,
        }
    }

    /// The bytes of the answer.
    pub fn as_bytes(&self) -> &[u8]
        ensures value { result.now ≡ answer_bytes self.now }
        ensures short { length result.now ≤ 48 }
    {
        &self.bytes[..self.len]
    }
}

// Bytes of AES as elements, read and written.
ghost use Rattle.std.specs.Prelude.{◌≡◌, length, map};
ghost use Rattle.field_element.specs.Element.{repr_of};

use crate::names::Rijndael8b;

/// Writes the bytes that the elements are.
#[inline(always)]
pub fn read_bytes(elements: &[Rijndael8b], bytes: &mut [u8])
    requires { length bytes.old ≡ length elements.now }
    ensures { bytes.new ≡ map repr_of elements.now }
{
    for place in 0..bytes.len() {
        bytes[place] = elements[place].word();
    }
}

/// Writes the elements that the bytes are.
#[inline(always)]
pub fn write_bytes(elements: &mut [Rijndael8b], bytes: &[u8])
    requires { length elements.old ≡ length bytes.now }
    ensures { map repr_of elements.new ≡ bytes.now }
{
    for place in 0..bytes.len() {
        elements[place] = Rijndael8b::of_word(bytes[place]);
    }
}

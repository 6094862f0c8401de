// Printed texts: `{:?}` prints the name of an element's type and its number, and `{:x}` and its like a number above 64 bits in hexadecimal, and any
// by `LowerHex` and `UpperHex` under `#`. What `{}` prints, and smaller numbers in hexadecimal, the clauses say.
use crate::is_text;
use field_base::traits::{PrimeCharacteristicRing, TowerLevel};
use field_base::{FieldKernel, Gf2, Stored, Unsigned};
use field_element::{Element, Poly64, Poly192, element_of_word};
use std::alloc::Global;
use std::fmt;
use std::fmt::{Debug, Display, HasDigits, LowerHex, UpperHex};
use word_polynomial::{GhashKernel, Poly64Kernel, RijndaelKernel};
use word_tower::{Bits2, Bits4, Bits8, Bits16, Bits32, Bits64, Bits128, Tower};

/// Whether `{:?}` prints `text` of `value`.
fn prints_as_debug<T: Debug>(alloc: Global, value: &T, text: &str) -> bool {
    is_text(format!(in alloc; "{value:?}"), text)
}

/// Whether `{:?}` prints `text` of the element of a word.
fn element_prints<R: Stored, K: FieldKernel<R>>(alloc: Global, word: R, text: &str) -> bool {
    let element: Element<R, K> = element_of_word(word);
    prints_as_debug(alloc, &element, text)
}

#[test]
fn elements_print_their_type_and_their_number(rt: HostRuntime) {
    let alloc = rt.alloc();
    assert!(rt;
        prints_as_debug(alloc, &Gf2::ONE, "Gf2 { repr: 1 }")
            && element_prints::<u8, Tower<Bits2>>(alloc, 3, "BinaryField2 { repr: 3 }")
            && element_prints::<u8, Tower<Bits4>>(alloc, 9, "BinaryField4 { repr: 9 }")
            && element_prints::<u8, Tower<Bits8>>(alloc, 16, "BinaryField8 { repr: 16 }")
            && element_prints::<u16, Tower<Bits16>>(alloc, 256, "BinaryField16 { repr: 256 }")
            && element_prints::<u32, Tower<Bits32>>(alloc, 7, "BinaryField32 { repr: 7 }")
            && element_prints::<u64, Tower<Bits64>>(
                alloc,
                1 << 32,
                "BinaryField64 { repr: 4294967296 }"
            )
            && element_prints::<u128, Tower<Bits128>>(
                alloc,
                1 << 64,
                "BinaryField128 { repr: 18446744073709551616 }"
            )
            && element_prints::<u8, RijndaelKernel>(alloc, 83, "Rijndael8b { repr: 83 }")
            && element_prints::<u64, Poly64Kernel>(alloc, 7, "Poly64 { repr: 7 }")
            && element_prints::<u128, GhashKernel>(alloc, 7, "Ghash128 { repr: 7 }")
            && prints_as_debug(
                alloc,
                &Poly192::new([Poly64::new(1), Poly64::new(2), Poly64::new(3)]),
                "Poly192 { repr: Triple { c0: 1, c1: 2, c2: 3 } }"
            )
    );
}

/// Whether `{:x} {:#x} {:X} {:#X}` prints `text` of `value`.
fn has_digits<T: HasDigits + Copy>(alloc: Global, value: T, text: &str) -> bool {
    is_text(
        format!(in alloc; "{value:x} {value:#x} {value:X} {value:#X}"),
        text,
    )
}

/// Whether `{:x} {:#x} {:X} {:#X}` prints `text` of the element of a word.
fn element_has_digits<R: Unsigned, K: FieldKernel<R>>(alloc: Global, word: R, text: &str) -> bool {
    let element: Element<R, K> = element_of_word(word);
    has_digits(alloc, element, text)
}

/// What `{}` prints by a value's `LowerHex` and by its `UpperHex`, under the same options.
#[derive(Drop)]
struct Hexadecimal<T>(T);

impl<T: LowerHex + UpperHex> Display for Hexadecimal<T> {
    fn fmt<W: fmt::Write>(&self, f: &mut fmt::Formatter<W>) -> fmt::Result {
        LowerHex::fmt(&self.0, f)?;
        f.write_str(" ")?;
        UpperHex::fmt(&self.0, f)
    }
}

/// Whether `{} {:#}` of `Hexadecimal` prints `text` of `value`.
fn prints_hexadecimal<T: LowerHex + UpperHex + Drop>(alloc: Global, value: T, text: &str) -> bool {
    let shown = Hexadecimal(value);
    is_text(format!(in alloc; "{shown} {shown:#}"), text)
}

#[test]
fn elements_have_hexadecimal_digits(rt: HostRuntime) {
    let alloc = rt.alloc();
    assert!(rt;
        element_has_digits::<u128, GhashKernel>(
            alloc,
            0xc0 << 64,
            "c00000000000000000 0xc00000000000000000 C00000000000000000 0xC00000000000000000"
        )
    );
}

#[test]
fn elements_print_in_hexadecimal(rt: HostRuntime) {
    let alloc = rt.alloc();
    let bit: Element<u8, Tower<Bits8>> = element_of_word(0x53);
    let wide: Element<u128, GhashKernel> = element_of_word(0xc0 << 64);
    let cubic = Poly192::new([Poly64::new(10), Poly64::new(0), Poly64::new(0x1f)]);
    assert!(rt;
        prints_hexadecimal(alloc, Gf2::ONE, "1 1 0x1 0x1")
            && prints_hexadecimal(alloc, bit, "53 53 0x53 0x53")
            && prints_hexadecimal(
                alloc,
                wide,
                "c00000000000000000 C00000000000000000 0xc00000000000000000 0xC00000000000000000"
            )
            && prints_hexadecimal(
                alloc,
                cubic,
                "a + 0*y + 1f*y^2 A + 0*y + 1F*y^2 0xa + 0x0*y + 0x1f*y^2 0xA + 0x0*y + 0x1F*y^2"
            )
    );
}

// Bits as text, in decimal and hexadecimal, and as numbers for `serde`: 0 or 1.
ghost use Rattle.std.specs.Prelude.{◌≡◌, ◌<◌, ◌↔◌, IfOk, IfSome, IsSome, Some, true, false};
ghost use Rattle.std.specs.Fmt.{WritesOnOk, decimal, digits};
ghost use Rattle.serde.specs.Event.{unsigned};
ghost use Rattle.serde.specs.Steps.{Gives};

use crate::gf2::Gf2;
use serde::{
    Described, Deserialize, DeserializeOwned, Deserializer, Format, Serialize, Serializer,
};
use std::alloc::Global;
use std::fmt;

impl fmt::Display for Gf2 {
    ghost output = { λ x. Some (decimal x.repr) };

    ghost styled_output = { λ x s. ⟦<u8 as fmt::Display>⟧.styled_output x.repr s };

    fn fmt<W: fmt::Write>(&self, f: &mut fmt::Formatter<W>) -> fmt::Result {
        fmt::Display::fmt(&self.repr, f)
    }
}

// What `{:x}`, `{:X}`, `{:o}` and `{:b}` of a format string write.
impl fmt::HasDigits for Gf2 {
    ghost word = { λ x. Some x.repr };

    fn bits(self) -> (u64, u64) {
        (0, self.repr as u64)
    }
}

impl fmt::LowerHex for Gf2 {
    fn fmt<W: fmt::Write>(&self, f: &mut fmt::Formatter<W>) -> fmt::Result
        ensures { WritesOnOk W.write_str_gives f.old result (digits 16 false self.now.repr) f.new }
    {
        fmt::LowerHex::fmt(&self.repr, f)
    }
}

impl fmt::UpperHex for Gf2 {
    fn fmt<W: fmt::Write>(&self, f: &mut fmt::Formatter<W>) -> fmt::Result
        ensures { WritesOnOk W.write_str_gives f.old result (digits 16 true self.now.repr) f.new }
    {
        fmt::UpperHex::fmt(&self.repr, f)
    }
}

impl Described for Gf2 {
    ghost writes = { λ x. ⟦<u8 as Described>⟧.writes x.repr };
}

impl Serialize for Gf2 {
    fn serialize<S: Serializer>(&self, out: &mut S) -> Result<(), S::Error> {
        self.repr.serialize(out)
    }
}

// The bit that a number is, and None where it is neither 0 nor 1.
fn bit_in_range(repr: u8) -> Option<Gf2>
    ensures range { IsSome result ↔ (repr < 2) }
    ensures value { IfSome result (λ x. x.repr ≡ repr) }
{
    if repr < 2 { Some(Gf2 { repr }) } else { None }
}

// The bit is the number that was read: 0 or 1, and any other number is refused.
impl<'de> Deserialize<'de> for Gf2 {
    fn deserialize<F: Format>(
        alloc: Global,
        from: &mut Deserializer<'de, '_, F>,
    ) -> Result<Gf2, F::Error>
        ensures { IfOk result (λ x. Gives F.gives from.old (unsigned x.repr) from.new) }
    {
        Self::deserialize_owned(alloc, from)
    }
}

impl DeserializeOwned for Gf2 {
    fn deserialize_owned<F: Format>(
        alloc: Global,
        from: &mut Deserializer<'_, '_, F>,
    ) -> Result<Gf2, F::Error>
        ensures { IfOk result (λ x. Gives F.gives from.old (unsigned x.repr) from.new) }
    {
        let repr = u8::deserialize_owned(alloc, from)?;
        match bit_in_range(repr) {
            Some(bit) => Ok(bit),
            None => Err(from.custom("Value is out of range")),
        }
    }
}

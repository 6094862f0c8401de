// Linearized polynomials as numbers for `serde`: the array of the coefficients, that of x first.
use crate::linearized::LinearizedPoly8b;
use field_element::Rijndael8b;
use serde::{
    Described, Deserialize, DeserializeOwned, Deserializer, Format, Serialize, Serializer,
};
use std::alloc::Global;

impl Described for LinearizedPoly8b {
    ghost writes = { λ x. ⟦<[Rijndael8b; 8] as Described>⟧.writes x.coefficients };
}

impl Serialize for LinearizedPoly8b {
    fn serialize<S: Serializer>(&self, out: &mut S) -> Result<(), S::Error> {
        self.coefficients.serialize(out)
    }
}

impl<'de> Deserialize<'de> for LinearizedPoly8b {
    fn deserialize<F: Format>(
        alloc: Global,
        from: &mut Deserializer<'de, '_, F>,
    ) -> Result<LinearizedPoly8b, F::Error> {
        Ok(LinearizedPoly8b::new(<[Rijndael8b; 8]>::deserialize(alloc, from)?))
    }
}

impl DeserializeOwned for LinearizedPoly8b {
    fn deserialize_owned<F: Format>(
        alloc: Global,
        from: &mut Deserializer<'_, '_, F>,
    ) -> Result<LinearizedPoly8b, F::Error> {
        Ok(LinearizedPoly8b::new(<[Rijndael8b; 8]>::deserialize_owned(alloc, from)?))
    }
}

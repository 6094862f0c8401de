// Why a proof is refused.
ghost use Rattle.std.specs.Prelude.{◌≡◌};
ghost use Rattle.prove_sums.specs.Reports.{refusal_text};

/// Why a proof is refused.
#[derive(Clone, Copy, Debug, PartialEq, Eq)]
pub enum Refusal {
    /// The file does not begin as a proof does.
    NotAProof,
    /// The file is one of another version.
    OtherVersion,
    /// The proof is over another field.
    OtherField,
    /// The file ends within the proof, or behind it.
    Length,
    /// The proof opens another number of places than the bits ask for, so that its roots are no roots for these bits.
    OtherParameters,
    /// No sizes for such tables reach the bits.
    TooFewBits,
    /// The proof is for another table on the left.
    OtherLeft,
    /// The proof is for another table on the right.
    OtherRight,
    /// The messages do not lead from the sum to the product of the values, or the row and the columns do not open these.
    NotProved,
}

impl Refusal {
    /// What is printed of it.
    pub fn text(self) -> &'static str
        ensures { result.now ≡ refusal_text self }
    {
        match self {
            Refusal::NotAProof => "this is no proof of a sum",
            Refusal::OtherVersion => "the proof is of another version",
            Refusal::OtherField => "the proof is over another field",
            Refusal::Length => "the proof is cut off, or has too much",
            Refusal::OtherParameters => "the proof has other parameters",
            Refusal::TooFewBits => "proofs for tables of this size do not reach the bits",
            Refusal::OtherLeft => "the proof is for another left table",
            Refusal::OtherRight => "the proof is for another right table",
            Refusal::NotProved => "the sum is not proved",
        }
    }
}

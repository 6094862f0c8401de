// The names of operations, and what may be wrong with a line.
ghost use Rattle.std.specs.Prelude.{◌≡◌};
ghost use Rattle.calculator.specs.Operations.{operation_named};
ghost use Rattle.calculator.specs.Text.{error_number, error_text};

/// An operation on two operands.
#[derive(Clone, Copy)]
pub(crate) enum Binary {
    Add,
    Mul,
}

/// An operation on one operand.
#[derive(Clone, Copy)]
pub(crate) enum Unary {
    Square,
    Inv,
    Sqrt,
}

/// An operation that a line may name.
#[derive(Clone, Copy)]
pub(crate) enum Operation {
    OfTwo(Binary),
    OfOne(Unary),
}

/// What is wrong with a line. A line is answered with its first fault: `Encoding`, then the others in the order below.
#[derive(Clone, Copy)]
pub(crate) enum Fault {
    Field,
    Modulus,
    Operation,
    Operands,
    Digits,
    Range,
    Encoding,
}

/// The operation that a word names.
pub(crate) fn operation_named(word: &[u8]) -> Option<Operation>
    ensures { result ≡ operation_named word.now }
{
    if word == b"add".as_slice() {
        Some(Operation::OfTwo(Binary::Add))
    } else if word == b"mul".as_slice() {
        Some(Operation::OfTwo(Binary::Mul))
    } else if word == b"square".as_slice() {
        Some(Operation::OfOne(Unary::Square))
    } else if word == b"inv".as_slice() {
        Some(Operation::OfOne(Unary::Inv))
    } else if word == b"sqrt".as_slice() {
        Some(Operation::OfOne(Unary::Sqrt))
    } else {
        None
    }
}

impl Fault {
    /// The answer to a line with the fault.
    pub(crate) fn text(self) -> &'static [u8]
        ensures { result.now ≡ error_text (error_number self) }
    {
        match self {
            Fault::Field => b"error 1",
            Fault::Modulus => b"error 7",
            Fault::Operation => b"error 2",
            Fault::Operands => b"error 3",
            Fault::Digits => b"error 4",
            Fault::Range => b"error 5",
            Fault::Encoding => b"error 6",
        }
    }
}

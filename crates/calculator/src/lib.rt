//! The program's calculator: lines are read to the end of a reader, and each is answered by what its operation gives.
//!
//! A line names a field, an operation and operands. [`answer`] gives the answer to one line, and [`run`] those to all lines
//! of a reader. [`run_program`] is the program that does so.
//!
//! # The format
//!
//! A line is a field, an operation and its operands, with one or more spaces between.
//!
//! | Part | What it may be |
//! |---|---|
//! | field | `gf2`, `t2`, `t4`, `t8`, `t16`, `t32`, `t64`, `t128` (levels of the tower), `r8` (`Rijndael8b`), `p64` (`Poly64`), `g128` (`Ghash128`), `p192` (`Poly192`); or `gf:m:modulus`, as `gf:8:11b`: modulo an irreducible polynomial of degree m, 1 to 128, by 1 to 3 decimal and 1 to 33 hexadecimal digits |
//! | operation | `add`, `mul` with two operands; `square`, `inv`, `sqrt` with one |
//! | operand | two hexadecimal digits for each byte of an element, highest byte first, in either case; for `p192` the three coefficients, lowest first, each so written |
//! | answer | the result in lower case; `none` for `inv` of zero; or the first of these errors that applies |
//!
//! | Answer | Where |
//! |---|---|
//! | `error 6` | the line is not UTF-8 |
//! | `error 1` | it has no field, or an unknown one |
//! | `error 7` | it writes a modulus that no field has: a reducible one, or one of another degree than it says or than 1 to 128 |
//! | `error 2` | it has no operation, or an unknown one |
//! | `error 3` | it has too few or too many operands |
//! | `error 4` | an operand has another length, or a byte that is no hexadecimal digit |
//! | `error 5` | an operand is no element of the field |
//!
//! A line is kept whole in memory until its line feed, however long it is.
#![tactic(auto)]

mod calculation;
mod chosen;
mod digits;
mod engine;
mod error;
mod fixed;
mod laws;
mod line;
mod names;
mod number;
mod operand;
mod outbox;
mod program;
mod text;
mod watched;
mod words;

pub use crate::engine::{lines_law, run};
pub use crate::error::RunError;
pub use crate::laws::{
    element_is_read_back, faults_in_order, inverse_and_root, moduli_of_fields, text_is_read_back,
    words_by_spaces,
};
pub use crate::line::answer;
pub use crate::program::run_program;
pub use crate::text::Answer;
pub use crate::watched::Watched;

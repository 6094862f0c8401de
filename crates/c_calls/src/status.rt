// The statuses of calls.

/// The call did what it says.
pub const OK: u32 = 0;

/// The lengths do not fit each other, or are not what the function takes.
pub const LENGTH: u32 = 1;

/// A word is no element of the field.
pub const NOT_AN_ELEMENT: u32 = 2;

/// Memory was refused.
pub const MEMORY: u32 = 3;

/// No code or shares have these numbers.
pub const CODE: u32 = 4;

/// Fewer shards are present than the data have, or fewer shares than are needed.
pub const TOO_FEW_SHARDS: u32 = 5;

/// The equations have no solution, the matrix no inverse, or there is no secret or root.
pub const UNSOLVABLE: u32 = 6;

/// No field has the modulus: it is no irreducible polynomial of degree 1 to 128.
pub const REDUCIBLE: u32 = 7;

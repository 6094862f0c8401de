// Which irreducible and primitive polynomials come next, for fields that the caller chooses.
ghost use Rattle.c_calls.specs.ChosenElements.{FindsIrreducible, FindsPrimitive};
ghost use Rattle.c_calls.specs.Fields.{wide_number};

use crate::status;
use crate::wide::Wide;
use any_field::{next_irreducible, next_primitive};
use field_base::{Holds, Reads};

/// Writes the least tail from `tail` on with which x^degree + tail is irreducible, of degree 1 to 128; `UNSOLVABLE` exactly where there is
/// none.
pub fn irreducible(degree: u64, tail: Wide, next: &mut Wide) -> u32
    ensures { FindsIrreducible degree (wide_number tail) next.old next.new result }
{
    if degree > 128 {
        return status::UNSOLVABLE;
    }
    match next_irreducible(degree as u32, tail.stored()) {
        None => status::UNSOLVABLE,
        Some(found) => {
            *next = Wide::of_stored(found);
            status::OK
        }
    }
}

/// Writes the least tail from `tail` on with which x^degree + tail is primitive, of degree 1 to 128; `UNSOLVABLE` exactly where there is none.
/// What is found is irreducible, and primitive where the numbers of the table of primes are prime; nothing primitive is passed over.
pub fn primitive(degree: u64, tail: Wide, next: &mut Wide) -> u32
    ensures { FindsPrimitive degree (wide_number tail) next.old next.new result }
{
    if degree > 128 {
        return status::UNSOLVABLE;
    }
    match next_primitive(degree as u32, tail.stored()) {
        None => status::UNSOLVABLE,
        Some(found) => {
            *next = Wide::of_stored(found);
            status::OK
        }
    }
}

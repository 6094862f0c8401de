// Three tables of 64 elements that are opened together over a field of 32 bits. The tables and the point are drawn from the seeds 20261129 to
// 20261132. A verifier is refused memory in turn, and accepts where there is memory: what acceptance says the contracts do.
use super::challengers::asked::{Hashed, hashed};
use super::tables::drawn;
use field_element::BinaryField32;
use linked_list_allocator::LocalHeap;
use protocols::ProtocolError;
use protocols::commitment_scheme::{Parameters, commit};
use protocols::joint_tables::{OpenedTables, open_tables, verify_tables};
use std::alloc::{AllocError, Allocator, Global};
use std::test::Fail;
use test_elements::{Ending, Growing, Rest, is_refused_in_turn};
use transcripts::Sha256Hasher;

type Wide = BinaryField32;

// What is opened, and of which roots at which point.
#[derive(Drop)]
struct Opening {
    roots: [[u8; 32]; 3],
    point: Vec<Wide>,
    opened: OpenedTables<Wide, Global>,
}

// Eight places of three tables are opened, of two rows each.
fn made_opening(alloc: Global) -> Result<Opening, ProtocolError> {
    let mut prover = hashed::<Wide, Global>(Vec::new(alloc));
    let sizes = Parameters::new(6, 3);
    let one = drawn(alloc, 20261129, 64)?;
    let other = drawn(alloc, 20261130, 64)?;
    let third = drawn(alloc, 20261131, 64)?;
    let point = drawn(alloc, 20261132, 6)?;
    if one.len() != 64 || other.len() != 64 || third.len() != 64 || point.len() != 6 {
        return Err(ProtocolError::Shape);
    }
    let first = commit(alloc, &Sha256Hasher, &sizes, one.as_slice())?;
    let second = commit(alloc, &Sha256Hasher, &sizes, other.as_slice())?;
    let last = commit(alloc, &Sha256Hasher, &sizes, third.as_slice())?;
    let a = first.tree.commitment().root;
    let b = second.tree.commitment().root;
    let c = last.tree.commitment().root;
    let tables = [&first, &second, &last];
    let opened = open_tables(alloc, &mut prover, &sizes, &tables, point.as_slice())?;
    Ok(Opening {
        roots: [a, b, c],
        point,
        opened,
    })
}

// Whether an opening is accepted.
fn is_accepted<A: Allocator + Copy>(alloc: A, sent: &Opening) -> Result<bool, ProtocolError> {
    let sizes = Parameters::new(6, 3);
    let point = sent.point.as_slice();
    if point.len() != 6 {
        return Ok(false);
    }
    let mut verifier: Hashed<Wide, A> = hashed(Vec::new(alloc));
    let (hasher, roots, opened) = (&Sha256Hasher, &sent.roots, &sent.opened);
    verify_tables(alloc, hasher, &mut verifier, &sizes, roots, point, opened)
}

impl Growing for Opening {
    fn run<'a>(&self, heap: &'a LocalHeap, rest: Rest<'a>) -> Result<Ending, AllocError> {
        let accepted = is_accepted(heap, self);
        drop(rest);
        Ok(match accepted {
            Ok(accepted) => Ending::of(true, accepted),
            Err(ProtocolError::Memory) => Ending::Refused,
            Err(_) => Ending::Wrong,
        })
    }
}

#[test]
fn a_verifier_of_tables_is_refused_memory(rt: HostRuntime) -> Result<(), Fail> {
    let sent = made_opening(rt.alloc())?;
    assert!(rt; is_refused_in_turn(rt.alloc(), &sent, true));
    Ok(())
}

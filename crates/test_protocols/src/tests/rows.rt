// Openings of many rows of a Merkle tree at once, that a cheating prover changed, and paths from one row, each growth refused in turn.
use linked_list_allocator::LocalHeap;
use protocols::caps::verify_row_to_cap;
use protocols::merkle_paths::verify_row;
use protocols::merkle_tree::MerkleTree;
use protocols::openings::verify_many;
use std::alloc::{AllocError, Global};
use std::test::Fail;
use test_elements::{Ending, Growing, Rest, is_refused_in_turn};
use transcripts::{MerkleCap, Sha256Hasher};

// Eight rows of three bytes.
static ROWS: [u8; 24] = *b"r00r01r02r03r04r05r06r07";

// What is changed between the prover and the verifier.
#[derive(Clone, Copy)]
enum Change {
    Nothing,
    Root,
    Row,
    Place,
    Order,
    Node,
    FewerNodes,
    MoreNodes,
}

static CHANGES: [(Change, bool); 8] = [
    (Change::Nothing, true),
    (Change::Root, false),
    (Change::Row, false),
    (Change::Place, false),
    (Change::Order, false),
    (Change::Node, false),
    (Change::FewerNodes, false),
    (Change::MoreNodes, false),
];

// Whether the rows at the places 1, 2 and 6 are opened after this change.
fn is_opened(alloc: Global, change: Change) -> Result<bool, AllocError> {
    let tree = MerkleTree::over_rows(alloc, alloc, &Sha256Hasher, &ROWS, 3, 3)?;
    let mut commitment = tree.commitment();
    if commitment.depth != 3 {
        return Ok(false);
    }
    let mut places = [1, 2, 6];
    let mut rows = *b"r01r02r06";
    let mut nodes = tree.open_many(alloc, &places)?;
    match change {
        Change::Nothing => (),
        Change::Root => commitment.root[31] ^= 1,
        Change::Row => rows[4] ^= 1,
        Change::Place => places[1] = 3,
        Change::Order => {
            places = [2, 1, 6];
            rows = *b"r02r01r06";
        }
        Change::Node => {
            if let Some(node) = nodes.as_mut_slice().first_mut() {
                node[0] ^= 1;
            }
        }
        Change::FewerNodes => {
            nodes.pop();
        }
        Change::MoreNodes => nodes.push([7; 32])?,
    }
    let nodes = nodes.as_slice();
    verify_many(alloc, &Sha256Hasher, commitment, &places, &rows, 3, nodes)
}

#[test]
fn only_unchanged_rows_are_opened(rt: HostRuntime) -> Result<(), Fail> {
    for (change, wanted) in CHANGES {
        let opened = is_opened(rt.alloc(), change);
        assert!(rt;
            opened == Ok(wanted),
            "rows that were changed, or that were not"
        );
    }
    Ok(())
}

// The path from the row at place 5 of eight rows of `size` bytes, to the root or to the cap of two roots.
#[derive(Drop)]
struct Path {
    alloc: Global,
    size: usize,
    to_cap: bool,
}

impl Growing for Path {
    fn run<'a>(&self, heap: &'a LocalHeap, rest: Rest<'a>) -> Result<Ending, AllocError> {
        let (alloc, size) = (self.alloc, self.size);
        if size > 3 {
            return Ok(Ending::Wrong);
        }
        let rows = &ROWS[..8 * size];
        let row = &rows[5 * size..6 * size];
        let tree = MerkleTree::over_rows(alloc, alloc, &Sha256Hasher, rows, size, 3)?;
        let commitment = tree.commitment();
        if commitment.depth != 3 {
            return Ok(Ending::Wrong);
        }
        let leads = if self.to_cap {
            let cap: MerkleCap<Sha256Hasher, [u8; 32]> = tree.cap(alloc, 1)?;
            let path = tree.open_to_cap(alloc, 5, 2)?;
            verify_row_to_cap(heap, &Sha256Hasher, cap.roots(), 2, 5, row, path.as_slice())
        } else {
            let path = tree.open(alloc, 5)?;
            verify_row(heap, &Sha256Hasher, commitment, 5, row, path.as_slice())
        };
        drop(rest);
        Ok(match leads {
            Ok(leads) => Ending::of(true, leads),
            Err(_) => Ending::Refused,
        })
    }
}

#[test]
fn paths_from_rows_are_granted_or_refused(rt: HostRuntime) {
    let alloc = rt.alloc();
    for size in 0..4usize {
        for to_cap in [false, true] {
            let path = Path {
                alloc,
                size,
                to_cap,
            };
            assert!(rt; is_refused_in_turn(alloc, &path, true));
        }
    }
}

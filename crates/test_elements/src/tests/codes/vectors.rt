// Shards in vectors: where there is memory each pair of five comes back, and in a heap without room `reconstruct` and `reconstruct_data`
// get `Memory`. What the shards then are the contracts say.
use super::code_of;
use linked_list_allocator::LocalHeap;
use reed_solomon::shard_vectors::{ShardVectorError, reconstruct, reconstruct_data};
use std::alloc::{AllocError, Allocator};
use std::test::Fail;

// A vector of four bytes for each of five shards but those that are lost.
fn all_but<A: Allocator + Copy>(
    alloc: A,
    lost: [usize; 2],
) -> Result<Vec<Option<Vec<u8, A>>, A>, AllocError> {
    let mut shards = Vec::new(alloc);
    for place in 0..5usize {
        let shard = if lost[0] == place || lost[1] == place {
            None
        } else {
            Some(Vec::from_slice(alloc, &[place as u8; 4])?)
        };
        shards.push(shard)?;
    }
    Ok(shards)
}

// Whether both calls end so with memory from `small`, where the shards at hand are in `large`. The data alone are asked for first, so that
// something is left to restore where a shard of parity is lost.
fn both_end<A: Allocator + Copy>(
    large: A,
    small: A,
    lost: [usize; 2],
    wanted: Result<(), ShardVectorError>,
) -> Result<bool, AllocError> {
    let mut shards = all_but(large, lost)?;
    match code_of(3, 2) {
        Some(code) => Ok(
            reconstruct_data(&code, small, shards.as_mut_slice()) == wanted
                && reconstruct(&code, small, shards.as_mut_slice()) == wanted,
        ),
        None => Ok(false),
    }
}

#[test]
fn each_pair_comes_back(rt: HostRuntime) -> Result<(), Fail> {
    for pattern in 0..25usize {
        let lost = [pattern / 5, pattern % 5];
        assert!(rt;
            both_end(rt.alloc(), rt.alloc(), lost, Ok(()))?,
            "pattern {pattern}"
        );
    }
    Ok(())
}

#[test]
fn memory_is_refused(rt: HostRuntime) -> Result<(), Fail> {
    let large = LocalHeap::new(rt.alloc(), 4096)?;
    let small = LocalHeap::new(rt.alloc(), 16)?;
    let refused = Err(ShardVectorError::Memory);
    assert!(rt; both_end(&large, &small, [1, 3], refused)?);
    assert!(rt; small.used() == 0 && large.used() == 0);
    Ok(())
}

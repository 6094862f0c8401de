// Digests and caps to JSON and back: a digest is the array of its words, and one of another number of words is refused.
use std::alloc::Global;
use transcripts::{Hash, MerkleCap};

// What digests are of.
struct Tree;

fn pair_is_read(alloc: Global, text: &str, words: [u64; 2]) -> bool {
    match serde_json::from_str::<Hash<Tree, u64, 2>>(alloc, text) {
        Ok(hash) => *hash.as_ref() == words && <[u64; 2]>::from(hash) == words,
        Err(_) => false,
    }
}

fn pair_is_refused(alloc: Global, text: &str) -> bool {
    serde_json::from_str::<Hash<Tree, u64, 2>>(alloc, text).is_err()
}

fn pair_is_written(alloc: Global, words: [u64; 2], text: &str) -> bool {
    let hash: Hash<Tree, u64, 2> = Hash::from(words);
    match serde_json::to_string(alloc, &hash) {
        Ok(written) => written.as_str() == text,
        Err(_) => false,
    }
}

// Whether a cap of roots of two bytes is read, written as the same text, and gives its roots back.
fn cap_returns(alloc: Global, text: &str, roots: &[[u8; 2]]) -> bool {
    let cap: MerkleCap<Tree, [u8; 2]> = match serde_json::from_str(alloc, text) {
        Ok(cap) => cap,
        Err(_) => return false,
    };
    let is_written = match serde_json::to_string(alloc, &cap) {
        Ok(written) => written.as_str() == text,
        Err(_) => false,
    };
    is_written && cap.into_roots().as_slice() == roots
}

#[test]
fn digests_are_numbers(rt: HostRuntime) {
    let alloc = rt.alloc();
    assert!(rt;
        pair_is_read(alloc, "[7, 18446744073709551615]", [7, u64::MAX])
            && pair_is_written(alloc, [7, u64::MAX], "[7,18446744073709551615]")
            && pair_is_refused(alloc, "[7]")
            && pair_is_refused(alloc, "[7,8,9]")
            && pair_is_refused(alloc, "[7,18446744073709551616]")
            && cap_returns(alloc, "[[1,2],[3,255]]", &[[1, 2], [3, 255]])
    );
}

// Files of shards in memory, by both codes. Their contracts say that what is lost comes back; that it does where there is memory no contract
// can say, and each call is made once here: bytes are split, joined and repaired, of shards that are lost or of which a byte is another, and
// files are looked at. `Global` is the one allocator of these calls, so that no heap refuses them.
use shard_files::{
    Choice, Finding, HEAD, Layout, MATRIX, MemoryShards, Scan, TRANSFORM, gather, join_bytes,
    layout_of, repair_bytes, split_and_join, split_bytes,
};
use std::alloc::{AllocError, Global};
use std::test::Fail;

// Bytes of which a shard of data has 10, and the last has padding.
static CONTENT: [u8; 29] = *b"what is split, lost, repaired";

// Which of three shards of data and two of parity are lost.
static LOSSES: [[bool; 5]; 5] = [
    [false, false, false, false, false],
    [true, false, false, false, true],
    [false, true, true, false, false],
    [true, false, true, false, false],
    [false, false, false, true, true],
];

// Their layout, by the code of that number.
fn layout_by(code: u32) -> Option<Layout> {
    layout_of(code, 3, 2, &CONTENT)
}

fn is_content(joined: &[u8]) -> bool {
    joined == CONTENT.as_slice()
}

// Whether they come back once shards are lost.
fn comes_back(alloc: Global, layout: Layout, lost: &[bool]) -> bool {
    match split_and_join(alloc, layout, &CONTENT, lost) {
        Ok(bytes) => is_content(bytes.as_slice()),
        Err(_) => false,
    }
}

// Whether lost shards are written again as they were.
fn is_repaired(alloc: Global, layout: Layout, lost: &[bool]) -> bool {
    let (whole, mut left) = match (
        split_bytes(alloc, layout, &CONTENT),
        split_bytes(alloc, layout, &CONTENT),
    ) {
        (Ok(whole), Ok(left)) => (whole, left),
        _ => return false,
    };
    if lost.len() != layout.total() {
        return false;
    }
    left.lose(lost);
    match repair_bytes(alloc, layout, &mut left, lost) {
        Ok(repaired) => are_those(&repaired, &whole, lost),
        Err(_) => false,
    }
}

// Whether the files that are lost are those of all, and the others have no bytes.
fn are_those(repaired: &MemoryShards, whole: &MemoryShards, lost: &[bool]) -> bool {
    for index in 0..lost.len() {
        let wanted: &[u8] = if lost[index] { whole.file(index) } else { &[] };
        if repaired.file(index) != wanted {
            return false;
        }
    }
    true
}

// Changes a byte of a file, where there is one.
fn damage(shards: &mut MemoryShards, index: usize, place: usize) {
    if index < shards.files.len() && place < shards.files[index].len() {
        shards.files[index][place] = shards.files[index][place].wrapping_add(1);
    }
}

// Whether they come back where a byte of a head and one of a piece are others.
fn is_damage_seen(alloc: Global, layout: Layout) -> bool {
    let mut shards = match split_bytes(alloc, layout, &CONTENT) {
        Ok(shards) => shards,
        Err(_) => return false,
    };
    damage(&mut shards, 0, 80);
    damage(&mut shards, 2, HEAD + 35);
    match join_bytes(alloc, layout, &mut shards) {
        Ok(bytes) => is_content(bytes.as_slice()),
        Err(_) => false,
    }
}

// Whether the shards of the one stripe are a code word, once two that are lost were restored.
fn is_code_word(alloc: Global, layout: Layout) -> bool {
    let mut shards = match split_bytes(alloc, layout, &CONTENT) {
        Ok(shards) => shards,
        Err(_) => return false,
    };
    shards.lose(&[false, true, false, false, true]);
    if layout.stripe_count() != 1 {
        return false;
    }
    let mut group = match gather(alloc, &mut shards, layout, 0) {
        Ok(group) => group,
        Err(_) => return false,
    };
    group.count() == 3 && group.restore(alloc).is_ok() && group.has_parity(alloc) == Ok(true)
}

// What is found where the files are looked at, with one that is no shard before them.
fn are_found(alloc: Global, layout: Layout) -> Result<bool, AllocError> {
    let shards = match split_bytes(alloc, layout, &CONTENT) {
        Ok(shards) => shards,
        Err(_) => return Ok(false),
    };
    let mut scan = Scan::new(alloc);
    scan.add(Some(b"no shard"))?;
    for index in 0..layout.total() {
        scan.add(shards.file(index).get(..HEAD))?;
    }
    scan.add(None)?;
    let wanted = [
        Finding::Damaged,
        Finding::Shard(0, 0),
        Finding::Shard(0, 1),
        Finding::Shard(0, 2),
        Finding::Shard(0, 3),
        Finding::Shard(0, 4),
        Finding::Unread,
    ];
    Ok(scan.findings.as_slice() == wanted.as_slice() && is_chosen(&scan))
}

// Whether the only file is chosen where it is wanted, and five different shards of it were seen.
fn is_chosen(scan: &Scan) -> bool {
    match scan.seen.as_slice() {
        [seen] => {
            matches!(scan.choice(&[true]), Choice::Only(0))
                && matches!(scan.choice(&[false]), Choice::Nothing)
                && seen.count == 5
                && scan.has(seen, 4)
                && !scan.has(seen, 5)
        }
        _ => false,
    }
}

#[test]
fn lost_shards_come_back(rt: HostRuntime) -> Result<(), Fail> {
    let alloc = rt.alloc();
    for code in [MATRIX, TRANSFORM] {
        match layout_by(code) {
            Some(layout) => {
                for lost in &LOSSES {
                    assert!(rt; comes_back(alloc, layout, lost), "code {code}");
                    assert!(rt; is_repaired(alloc, layout, lost), "code {code}");
                }
                assert!(rt; is_damage_seen(alloc, layout), "code {code}");
                assert!(rt; is_code_word(alloc, layout), "code {code}");
                assert!(rt; are_found(alloc, layout)?, "code {code}");
            }
            None => assert!(rt; false, "code {code}"),
        }
    }
    Ok(())
}

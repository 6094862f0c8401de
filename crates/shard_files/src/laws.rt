// Laws; these functions compute nothing.
ghost use Rattle.std.specs.Prelude.{ℕ, ◌*◌, ◌<◌, ◌≤◌};
ghost use Rattle.shard_files.specs.Memory.{LossesLeaveEnough};
ghost use Rattle.shard_files.specs.RoundTrip.{FilesAreOne, ShardsReturn, SplitsAreOne};
ghost use Rattle.shard_files.specs.Stripes.{part_count};

use reed_solomon::{changes_are_seen, shards_determine};

/// Computes nothing; its contract is the law that the files which `write_shards` writes, with any of them lost or damaged as long as in
/// each stripe as many shards are left as the data have, and no damage has a right digest, are files from which `write_content` writes the
/// file.
pub fn shards_return()
    ensures { ShardsReturn }
{}

/// Computes nothing; its contract is the law that files in memory, of which no more are lost than there are shards of parity and no byte is
/// changed, are enough to join and to repair from: a file that is not there gives no shard, and each other gives its own alone. Nothing is
/// assumed of digests.
pub fn losses_leave_enough()
    ensures { LossesLeaveEnough }
{}

/// Computes nothing; its contract is the law that bytes are split in one way alone: all shards that two splits of a stripe give by one
/// origin are equal, byte by byte, those of parity too, and so are all shards of a file. What the heads of shards say is all that tells of
/// which file they are, so that shards of two splits that say the same are taken together; they are shards of one split.
pub fn splits_are_one()
    ensures stripes { SplitsAreOne }
    ensures files { FilesAreOne }
{
    changes_are_seen();
    shards_determine();
}

/// Computes nothing; its contract is the law that `part_count`, by which the size of a stripe is chosen, is the least number of parts, one
/// at least, that hold so many bytes.
pub fn parts_are_fewest()
    ensures enough { (bytes each : ℕ) → 0 < each → bytes ≤ part_count bytes each * each }
    ensures some { (bytes each : ℕ) → 1 ≤ part_count bytes each }
    ensures least { (bytes each fewer : ℕ) → 1 ≤ fewer → bytes ≤ fewer * each → part_count bytes each ≤ fewer }
{}

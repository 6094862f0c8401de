// The laws of codes, as the contracts of functions that compute nothing.
ghost use Rattle.reed_solomon.specs.Adding.{AddedShardsEncode};
ghost use Rattle.reed_solomon.specs.RoundTrip.{ChangesAreSeen, LostShardsReturn};

/// States that encoded shards come back: whatever the missing ones are overwritten by, as long as as many shards are present as
/// there are of data, what `reconstruct` leaves is what `encode` left.
pub fn lost_shards_return()
    ensures { LostShardsReturn }
{}

/// States what `add_shard` computes once each shard of data was added to zeros, in any order: the shard of parity of the one code word.
pub fn added_shards_encode()
    ensures { AddedShardsEncode }
{}

/// States that a change is seen: shards that were encoded, of which at most as many were changed as there are of parity, are no longer
/// what `encode` writes, so that `verify` refuses them, unless each byte is as it was.
pub fn changes_are_seen()
    ensures { ChangesAreSeen }
{}

// Layouts: what the heads of the shards of a file say where that is possible, with the code of the stripes, where the bytes of these begin,
// and how many they are.
ghost use Rattle.std.specs.Prelude.{◌≡◌, ◌*◌, ◌<◌, ◌≤◌, ◌↔◌, ◌^◌, IfSome, IsSome, IsTrue};
ghost use Rattle.shard_files.specs.Heads.{IsOrigin};
ghost use Rattle.shard_files.specs.Stripes.{IsPossible, piece_start, shard_total, stripe_length, stripe_total, stripe_width};

use crate::StripeCode;
use crate::head::{HEAD, Origin};
use crate::piece::DIGEST;

/// What the heads of the shards of a file say, where a code has so many shards, a shard has from 1 to 2^24 bytes of a stripe, and the file
/// at most 2^56; and the code of each stripe.
#[derive(Clone, Copy)]
pub struct Layout {
    /// What the heads say.
    pub origin: Origin,
    /// The code of each stripe.
    pub code: StripeCode,
    ghost possible: { IsPossible origin },
    ghost fits: { IsOrigin origin },
    ghost made: { (code.number ≡ origin.code) × (code.data_shards ≡ origin.data_shards) × (code.parity_shards ≡ origin.parity_shards)
        × (code.size ≡ origin.size) },
}

impl Layout {
    /// The layout of what heads say, where it is possible.
    pub fn of(origin: Origin) -> Option<Layout>
        ensures of { IfSome result (λ layout. layout.origin ≡ origin) }
        ensures accepted { IsSome result ↔ IsPossible origin }
    {
        if !has_lengths(&origin) {
            return None;
        }
        let code = StripeCode::new(
            origin.code,
            origin.data_shards as usize,
            origin.parity_shards as usize,
            origin.size as usize,
        );
        match code {
            Some(code) => Some(Layout { origin, code }),
            None => None,
        }
    }

    /// How many shards there are.
    pub fn total(&self) -> usize
        ensures { result ≡ shard_total self.now.origin }
    {
        self.origin.data_shards as usize + self.origin.parity_shards as usize
    }

    /// How many bytes of the file a stripe has.
    pub fn width(&self) -> u64
        ensures { result ≡ stripe_width self.now.origin }
    {
        self.origin.data_shards as u64 * self.origin.size
    }

    /// How many stripes there are: none of an empty file.
    pub fn stripe_count(&self) -> u64
        ensures { result ≡ stripe_total self.now.origin }
    {
        let width = self.width();
        (self.origin.length + (width - 1)) / width
    }

    /// How many bytes of the file a stripe has, of which the last may have fewer. There is a stripe of that number.
    pub fn stripe_length(&self, stripe: u64) -> usize
        requires { stripe < stripe_total self.now.origin }
        ensures { result ≡ stripe_length self.now.origin stripe }
    {
        let width = self.width();
        let left = self.origin.length - stripe * width;
        if left < width {
            left as usize
        } else {
            width as usize
        }
    }

    /// Where the piece of a stripe begins in a shard's file. There is a stripe of that number.
    pub fn piece_start(&self, stripe: u64) -> u64
        requires { stripe < stripe_total self.now.origin }
        ensures { result ≡ piece_start self.now.origin stripe }
    {
        HEAD as u64 + stripe * (DIGEST as u64 + self.origin.size)
    }

    /// How many bytes the file of a shard has.
    pub fn file_length(&self) -> u64
        ensures { result ≡ piece_start self.now.origin (stripe_total self.now.origin) }
    {
        HEAD as u64 + self.stripe_count() * (DIGEST as u64 + self.origin.size)
    }
}

// Whether the lengths are no more than they may be.
fn has_lengths(origin: &Origin) -> bool
    ensures { IsTrue result ↔ ((0 < origin.now.size) × (origin.now.size ≤ 2 ^ 24) × (origin.now.length ≤ 2 ^ 56)) }
{
    origin.size > 0 && origin.size <= 1 << 24 && origin.length <= 1 << 56
}

//! The shards of a file: the codes by which its stripes are written, what the files that hold them are, stripe by stripe, and how they are
//! written, read and restored.
#![tactic(auto)]

mod code;
mod error;
mod group;
mod head;
mod laws;
mod layout;
mod lengths;
mod matrix;
mod memory;
mod piece;
mod reading;
mod repair;
mod round_trip;
mod scan;
mod split;
mod transform;
mod words;
mod writing;

pub use crate::code::{MATRIX, MOST_SHARDS, StripeCode, TRANSFORM, default_code, limit_of};
pub use crate::error::{JoinError, RepairError, SplitError};
pub use crate::group::Group;
pub use crate::head::{HEAD, Head, Origin, older_format};
pub use crate::laws::{losses_leave_enough, parts_are_fewest, shards_return, splits_are_one};
pub use crate::layout::Layout;
pub use crate::memory::MemoryShards;
pub use crate::reading::{ShardSource, gather, restored, write_content};
pub use crate::repair::repair_shards;
pub use crate::round_trip::{join_bytes, layout_of, repair_bytes, split_and_join, split_bytes};
pub use crate::scan::{Choice, Finding, Scan, Seen};
pub use crate::writing::{ShardFiles, put_head, put_piece, write_shards};

// Linear maps of bytes and of words of 128 bits.
ghost use Rattle.c_calls.specs.Linear.{MapsLinearly};
ghost use Rattle.c_calls.specs.Fields.{wide_number};
ghost use Rattle.many_words.specs.Fields.{itself};

use crate::numbers::numbers_of;
use crate::{Wide, status};
use field_base::{Holds, Reads};
use word_tables::{ByteMap, ByteMatrix};

/// Writes for each byte the sum of the images at its set bits: eight images, that of bit 0 first.
pub fn map_bytes(values: &[u8], images: &[u8], mapped: &mut [u8]) -> u32
    ensures { MapsLinearly itself 8 images.now values.now mapped.old mapped.new result }
{
    if images.len() != 8 || values.len() != mapped.len() {
        return status::LENGTH;
    }
    let mut rows = [0; 8];
    rows.copy_from_slice(images);
    mapped.copy_from_slice(values);
    ByteMatrix::from_images(rows).apply_slice(mapped);
    status::OK
}

/// Writes for each word the sum of the images at its set bits: 128 images, that of bit 0 first.
pub fn map_wide(values: &[Wide], images: &[Wide], mapped: &mut [Wide]) -> u32
    ensures { MapsLinearly wide_number 128 images.now values.now mapped.old mapped.new result }
{
    if images.len() != 128 || values.len() != mapped.len() {
        return status::LENGTH;
    }
    let map = ByteMap::new(&numbers_of::<128>(images));
    for place in 0..mapped.len() {
        mapped[place] = Wide::of_stored(map.apply(values[place].stored()));
    }
    status::OK
}

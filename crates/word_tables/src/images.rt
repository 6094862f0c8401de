// Linear maps of bytes by their images of the eight bits: of one byte, and of a slice in blocks.
ghost use Rattle.std.specs.Prelude.{◌≡◌, ◌≤◌, length, map};
ghost use Rattle.field_base.specs.LinearMaps.{linear_image};

use crate::nibbles::{images_in_lanes, sums_of_four};
use std::simd::prelude::*;

/// Writes over each byte what the linear map makes of it that takes bit b to `images[b]`. From 16 bytes on it goes by blocks, which
/// are looked up in registers: no address depends on the bytes or on the images.
pub fn map_bytes(images: &[u8; 8], bytes: &mut [u8])
    ensures { bytes.new ≡ map (linear_image images.now) bytes.old }
{
    if bytes.len() < 16 {
        map_each(images, bytes);
    } else {
        map_blocks(images, bytes);
    }
}

// The images of fewer bytes than a block has.
fn map_each(images: &[u8; 8], bytes: &mut [u8])
    ensures { bytes.new ≡ map (linear_image images.now) bytes.old }
{
    for place in 0..bytes.len() {
        bytes[place] = sum_of_images(images, bytes[place]);
    }
}

// The images of at least a block. The last block may overlap the one before it, so that its images are taken before any byte is
// written.
fn map_blocks(images: &[u8; 8], bytes: &mut [u8])
    requires { 16 ≤ length bytes.old }
    ensures { bytes.new ≡ map (linear_image images.now) bytes.old }
{
    let low = sums_of_four(images[0], images[1], images[2], images[3]);
    let high = sums_of_four(images[4], images[5], images[6], images[7]);
    let last = bytes.len() - 16;
    let end = images_in_lanes(images, low, high, u8x16::from_slice(&bytes[last..]));
    let pairs = bytes.len() / 32;
    for pair in 0..pairs {
        let start = 32 * pair;
        let mapped = images_in_lanes(images, low, high, u8x32::from_slice(&bytes[start..]));
        mapped.copy_to_slice(&mut bytes[start..]);
    }
    for block in 2 * pairs..(bytes.len() - 1) / 16 {
        let start = 16 * block;
        let mapped = images_in_lanes(images, low, high, u8x16::from_slice(&bytes[start..]));
        mapped.copy_to_slice(&mut bytes[start..]);
    }
    end.copy_to_slice(&mut bytes[last..]);
}

/// The sum of the images at the set bits of `x`.
#[inline]
pub(crate) fn sum_of_images(images: &[u8], x: u8) -> u8
    ensures { result ≡ linear_image images.now x }
{
    let mut sum = 0;
    let mut rest = x;
    for image in images {
        if rest & 1 == 1 {
            sum ^= *image;
        }
        rest >>= 1;
    }
    sum
}

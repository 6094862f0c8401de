// Calls that map words linearly.
// Written by scripts/make_c_exports.py; do not edit.
ghost use Rattle.c_calls.specs.Linear.{MapsLinearly};
ghost use Rattle.c_calls.specs.Fields.{wide_number};
ghost use Rattle.many_words.specs.Fields.{itself};

use c_calls::Wide;

/// For each byte the sum of the images at its set bits; eight images, that of bit 0 first.
#[unsafe(no_mangle)]
pub extern "C" fn bf_r8_linear_map(values: &[u8], images: &[u8], mapped: &mut [u8]) -> u32
    ensures { MapsLinearly itself 8 images.now values.now mapped.old mapped.new result }
{
    c_calls::map_bytes(values, images, mapped)
}

/// For each word the sum of the images at its set bits; 128 images, that of bit 0 first.
#[unsafe(no_mangle)]
pub extern "C" fn bf_g128_linear_map(values: &[Wide], images: &[Wide], mapped: &mut [Wide]) -> u32
    ensures { MapsLinearly wide_number 128 images.now values.now mapped.old mapped.new result }
{
    c_calls::map_wide(values, images, mapped)
}

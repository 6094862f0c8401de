// The printed text of packed bits and of blocks.
use bits_packed::{PackedGf2x8, PackedGf2x128};
use packed_lanes::M128;
use std::alloc::Global;
use std::fmt::Debug;
use std::test::Fail;

fn shows<T: Debug>(alloc: Global, value: &T, want: &str) -> Result<bool, Fail> {
    let text = format!(in alloc; "{value:?}")?;
    Ok(text.as_str() == want)
}

#[test]
fn words_are_shown_with_all_digits(rt: HostRuntime) -> Result<(), Fail> {
    let alloc = rt.alloc();
    let block = M128::from_words([1, 0xff00_0000_0000_0000]);
    assert!(rt;
        shows(alloc, &PackedGf2x8::new(0x12), "PackedGf2x8(0x12)")?
            && shows(
                alloc,
                &PackedGf2x128::new(block),
                "PackedGf2x128(0x0000000000000001, 0xff00000000000000)"
            )?
            && shows(alloc, &block, "M128([1, 18374686479671623680])")?
    );
    Ok(())
}

// Linear maps from the tower to `Ghash128`, over whole slices.
ghost use Rattle.std.specs.Prelude.{◌≡◌, ◌<◌, ◌≤◌, ◌↔◌, length, map, IsTrue};
ghost use Rattle.field_base.specs.LinearMaps.{linear_image};
ghost use Rattle.field_element.specs.Element.{repr_of};

use crate::names::{BinaryField128, Ghash128};
use field_base::traits::TowerLevel;
use word_tables::ByteMap;

/// The least number of elements for which `Ghash128::try_apply_linear_map_into` makes the tables of a linear map.
pub const LEAST_TABLED: usize = 4096;

impl Ghash128 {
    /// Where there are at least 4096 elements, writes the image of each into `output`, place by place, and returns true: the
    /// map is the linear one that takes bit j of an element of the tower to `images[j]`. With fewer, it returns false and leaves
    /// `output` untouched, so that no tables are made for few elements: the caller then maps them by itself. `input` and
    /// `output` have to be of one length. It takes no memory but the stack.
    pub fn try_apply_linear_map_into(
        images: &[Ghash128; 128],
        input: &[BinaryField128],
        output: &mut [Ghash128],
    ) -> bool
        requires { length input.now ≡ length output.old }
        ensures answer { IsTrue result ↔ (4096 ≤ length input.now) }
        ensures mapped { 4096 ≤ length input.now
            → map repr_of output.new ≡ map (λ x. linear_image (map repr_of images.now) (repr_of x)) input.now }
        ensures kept { length input.now < 4096 → output.new ≡ output.old }
    {
        if input.len() < LEAST_TABLED {
            return false;
        }
        let map = ByteMap::new(&representations(images));
        for place in 0..input.len() {
            output[place] = Ghash128::new(map.apply(input[place].to_repr()));
        }
        true
    }
}

// The representation of each image.
fn representations(images: &[Ghash128; 128]) -> [u128; 128]
    ensures { result ≡ map repr_of images.now }
{
    let mut representations = [0; 128];
    for place in 0..128 {
        representations[place] = images[place].to_repr();
    }
    representations
}

//! What is known of all images of a kernel together: there is one.
#![tactic(auto)]

ghost use Rattle.kl_unique.specs.OneImage.{OneImage};

/// A kernel's kit and its inputs have one image and one placement for each order and gaps: any two images that carry the kit
/// with their placements are the same, byte for byte and address for address.
pub fn one_image()
    ensures { OneImage }
{}

// What is known of all images of a kit.
ghost use Rattle.kl_kernel.specs.OneTarget.{OneTarget};

/// All images of a kit, under any orders and gaps, lead each field to the target that the kit's graph gives it: the same
/// offset of the same piece, or the same number.
pub fn one_target()
    ensures { OneTarget }
{}

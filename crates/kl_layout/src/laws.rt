// What is known of every placement.
ghost use Rattle.kl_layout.specs.OnePlacement.{OnePlacement};

/// A graph has one placement under an order: what is laid out is what `place` gives.
pub fn one_placement()
    ensures { OnePlacement }
{}

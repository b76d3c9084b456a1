// What is known of made kits.
ghost use Rattle.kl_generate.specs.MadeLinks.{MadeGraph, MadeLinks};

/// A made kit links under any order and with any gaps: no fault stands.
pub fn made_links()
    ensures { MadeLinks }
{}

/// The graph of a made kit has two pieces and two fields for each object.
pub fn made_graph()
    ensures { MadeGraph }
{}

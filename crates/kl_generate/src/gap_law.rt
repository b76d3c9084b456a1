// What is known of all gap objects.
ghost use Rattle.kl_generate.specs.GapRead.{GapObjects};

/// Each gap object is read without a flaw, as four sections of the sizes of its gaps beside the table of their names, with no symbol.
pub fn gap_objects()
    ensures { GapObjects }
{}

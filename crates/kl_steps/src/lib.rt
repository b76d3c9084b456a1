//! What each step of a link gives the next, in a kernel and in a library.
#![tactic(auto)]

ghost use Rattle.kl_steps.specs.RoomyLinks.{RoomyLinks};

/// A roomy kit is refused neither for its span nor for the range of a field, under any order and with any gaps.
pub fn roomy_links()
    ensures { RoomyLinks }
{}

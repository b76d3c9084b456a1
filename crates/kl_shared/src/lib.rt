//! Links libraries (shared objects): from a kit and its inputs to an image and its placement.
#![tactic(auto)]

ghost use Rattle.kl_shared.specs.LibraryLinks.{LibraryLinks};

mod image;
mod link;
mod stubs;

pub use link::link_library;
pub use stubs::stub_area;

/// The image of a library's kit that is laid out carries the kit, where no fault of names and fields stands and no value is out of
/// range: at every base that its page allows and for every resolver of names each field leads to its target.
pub fn library_links()
    ensures { LibraryLinks }
{}

//! Lays a link graph out: the address of each piece, and where each class and area starts and ends.
#![tactic(auto)]

mod class;
mod fault;
mod laws;
mod layout;
mod placement;
mod sequence;
mod spreads;
mod stops;

pub use fault::LayoutFault;
pub use laws::one_placement;
pub use layout::page;
pub use placement::place;

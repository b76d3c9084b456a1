//! Resolves names across objects: from a kit and its inputs to the link graph, or the first fault that stands.
#![tactic(auto)]

mod dynamic;
mod entries;
mod fields;
mod graph;
mod leads;
mod lines;
mod linkage;
mod loader;
mod names;
mod pieces;
mod used;

pub use graph::resolve;

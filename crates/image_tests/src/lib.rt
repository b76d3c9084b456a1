//! Tests of the reader of images: the headers of a linked image, each flaw once, and the memory of one that is loaded.
#![tactic(auto)]

#[cfg(test)]
mod loads;
#[cfg(test)]
mod views;

//! Tests of kernels, from the text of a kit and the bytes of its objects to the link graph and to the image, and of libraries to the
//! link graph.
#![tactic(auto)]

#[cfg(test)]
mod images;
#[cfg(test)]
mod kernels;
#[cfg(test)]
mod libraries;
#[cfg(test)]
mod objects;
#[cfg(test)]
mod resolution;

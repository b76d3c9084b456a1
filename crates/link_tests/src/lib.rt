//! Tests of objects and linking: from bytes and records to the bytes of an image and its map.
#![tactic(auto)]

#[cfg(test)]
mod bytes;
#[cfg(test)]
mod maps;
#[cfg(test)]
mod objects;
#[cfg(test)]
mod overlaps;
#[cfg(test)]
mod placements;
#[cfg(test)]
mod records;
#[cfg(test)]
mod tables;

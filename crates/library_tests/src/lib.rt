//! Tests of the dynamic tables of libraries.
#![tactic(auto)]

#[cfg(test)]
mod found;
#[cfg(test)]
mod hashes;
#[cfg(test)]
mod linked;

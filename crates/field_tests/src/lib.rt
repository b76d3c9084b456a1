//! Tests of relocated fields: their values and bytes, and the slots and stubs that are made for them.
#![tactic(auto)]

#[cfg(test)]
mod slots;
pub mod small;
#[cfg(test)]
mod values;

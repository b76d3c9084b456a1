//! Tests of kit texts and of the index: what is read of them, and the first fault.
#![tactic(auto)]

#[cfg(test)]
mod faults;
#[cfg(test)]
mod indexes;
#[cfg(test)]
mod kits;
#[cfg(test)]
mod prints;
#[cfg(test)]
mod sizes;
#[cfg(test)]
mod texts;

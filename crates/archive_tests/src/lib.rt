//! Tests of archives: the members that stand in them, and the first fault.
#![tactic(auto)]

#[cfg(test)]
mod archives;
#[cfg(test)]
mod faults;
#[cfg(test)]
mod made;
#[cfg(test)]
mod members;

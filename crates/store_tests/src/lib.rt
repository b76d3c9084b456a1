//! Tests of the doubles in memory, of digests, records and intents, and of installation.
#![tactic(auto)]

#[cfg(test)]
mod digests;
#[cfg(test)]
mod doubles;
#[cfg(test)]
mod installs;
#[cfg(test)]
mod intents;
#[cfg(test)]
mod names;

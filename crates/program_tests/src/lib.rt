//! Tests of the program: words and files to a status, a cause and what is written; and the host's files, random device and output.
#![tactic(auto)]

#[cfg(test)]
mod author;
#[cfg(test)]
mod generated;
#[cfg(test)]
mod host;
#[cfg(test)]
mod kernels;
#[cfg(test)]
mod machine;
#[cfg(test)]
mod recoveries;
#[cfg(test)]
mod runs;

//! Tests of what is told of each cause: a cause and the files to the text.
#![tactic(auto)]

#[cfg(test)]
mod causes;
#[cfg(test)]
mod kit_texts;
#[cfg(test)]
mod kits;
#[cfg(test)]
mod several;
#[cfg(test)]
mod system;

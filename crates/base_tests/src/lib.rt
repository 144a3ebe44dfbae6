//! Tests of the crates that read and write files, numbers and words, and of their base.
//!
//! They are in a crate of their own, so that no crate is proved a second time for its tests.
#![tactic(auto)]

#[cfg(test)]
mod costs;
#[cfg(test)]
mod drawn_numbers;
#[cfg(test)]
mod geometry;
#[cfg(test)]
mod limits;
#[cfg(test)]
mod match_texts;
#[cfg(test)]
mod network_faults;
#[cfg(test)]
mod networks;
#[cfg(test)]
mod numbers;
#[cfg(test)]
mod shelves;
#[cfg(test)]
mod towns;
#[cfg(test)]
mod traces;
#[cfg(test)]
mod words;

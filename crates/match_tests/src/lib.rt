//! Tests of what the program does not show of matches: rows that refuse a call, foreign rows in the store that
//! workers share, sessions and what they hand out, and the relay between two threads. They have a crate of their
//! own, so that no other crate is proved a second time for them. What the program shows, `tests/cases` covers.
#![tactic(auto)]

#[cfg(test)]
mod foreign_rows;
#[cfg(test)]
mod interleaved;
#[cfg(test)]
mod one_worker;
#[cfg(test)]
mod refused_rows;
#[cfg(test)]
mod relay;
#[cfg(test)]
mod sessions;
#[cfg(test)]
mod workers;

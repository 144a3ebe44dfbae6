//! Tests of the two programs over files and sinks in memory: each read and each put fails in turn, files come a
//! few bytes at a time, nothing is read after a fault, workers run beside each other and share a store, and
//! the live program writes a trace while it still reads. They stand in a crate of their own, so that neither
//! `run` nor `live` is proved a second time for them. What needs no failing call, `tests/cases` has.
#![tactic(auto)]

#[cfg(test)]
mod commands;
#[cfg(test)]
mod ended;
#[cfg(test)]
mod gates;
#[cfg(test)]
mod growth;
#[cfg(test)]
mod live_runs;
#[cfg(test)]
mod reads;
#[cfg(test)]
mod refusals;
#[cfg(test)]
mod runs;
#[cfg(test)]
mod slots;
#[cfg(test)]
mod texts;
#[cfg(test)]
mod town_gates;

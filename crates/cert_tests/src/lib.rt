//! Tests of certificates and of their checker: texts, proofs that no text has, and rows. What the program shows,
//! such as the first condition that fails of a forged certificate, `tests/cases` covers. The tests have a crate
//! of their own, so that neither the reader of certificates nor the checker is proved a second time for them.
#![tactic(auto)]

#[cfg(test)]
mod proofs;
#[cfg(test)]
mod rows;
#[cfg(test)]
mod texts;

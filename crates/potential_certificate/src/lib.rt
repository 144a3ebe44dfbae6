//! The evidence for a match: certificates, and their text written and read.
//!
//! A [`TraceProof`] has the chosen ranks of a trace, the cells of each position and the routed pieces; a
//! [`Certificate`] has the proofs of all traces and the rows of the bounded table that they rely on. [`certify`]
//! makes the proof of a match by copying. Nothing in a certificate is assumed to be right: the checker decides
//! that.
//!
//! The text is a first line with the options; for each trace the line `trace ID`, a line for each position
//! (`none I` or `layer I rank R cells X0 X1 ..`), the line of a piece directly after that of its last position, and
//! `end ID`; then a line for each row (`row_text`) by ascending origin, and the line `certified traces T rows R`.
//! It has at most [`TEXT_LIMIT`] bytes. [`write_certificate`] appends it, and [`read_certificate`] accepts exactly
//! the texts of certificates for one set of options. A [`CertificateReader`] takes the text in blocks, and reads
//! each with up to 64 threads.
//!
//! `certificate_text` in `specs/CertificateText.antt` defines the text, `HasText` which certificates
//! have one, and `certificate_of` in `specs/Reading.antt` what is read. Read these and the laws in
//! [`laws`] first.
#![tactic(auto)]

mod copying;
mod drawing;
mod fault;
mod gathered;
pub mod laws;
mod layers;
mod lines;
mod parts;
mod proof;
mod proof_line;
mod proof_writing;
mod reader;
mod reading;
mod rows;
mod writing;

pub use copying::certify;
pub use fault::{CertFault, WriteFault};
pub use proof::{Certificate, TraceProof};
pub use reader::CertificateReader;
pub use reading::read_certificate;
pub use writing::write_certificate;

/// The most bytes of the text of a certificate.
pub const TEXT_LIMIT: u64 = 1_073_741_824;

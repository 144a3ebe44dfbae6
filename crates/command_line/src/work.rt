//! What the words ask for.

use cost_model::Params;

/// A command: its work, and the options that every command takes, each in its range.
#[derive(Clone, Copy)]
pub struct Command<'a> {
    pub work: Work<'a>,
    pub options: Params,
}

/// The work of a command, with what the words name for it.
#[derive(Clone, Copy)]
pub enum Work<'a> {
    /// Match the traces of a file on the network of a file.
    Match(MatchFiles<'a>),
    /// Follow the traces of a file, point by point, on the network of a file.
    Follow(TraceFiles<'a>),
    /// Follow interleaved traces: each fragment of a trace continues the previous fragment with the
    /// same id, unless a drive of the id has ended in between.
    Streams(StreamFiles<'a>),
    /// Write the certificate of the matches of a file's traces on the network of a file.
    Prove(TraceFiles<'a>),
    /// Check whether a certificate proves the matches of a file's traces on the network of a file.
    Check(CheckFiles<'a>),
    /// Write the table of the network of a file.
    Table(TableFiles<'a>),
    /// Match the traces of a generated town.
    Town(TownNumbers),
}

/// The names of a network file and a trace file.
#[derive(Clone, Copy)]
pub struct TraceFiles<'a> {
    pub network: &'a str,
    pub traces: &'a str,
}

/// The names of the files of `match`: `table` is a table file computed beforehand, if there is one.
#[derive(Clone, Copy)]
pub struct MatchFiles<'a> {
    pub network: &'a str,
    pub traces: &'a str,
    pub table: Option<&'a str>,
}

/// The names of the files of `streams`, and when a drive ends: once the file is more than `idle` seconds
/// past the drive's newest row.
#[derive(Clone, Copy)]
pub struct StreamFiles<'a> {
    pub network: &'a str,
    pub traces: &'a str,
    pub idle: u32,
}

/// The names of the files of `check`.
#[derive(Clone, Copy)]
pub struct CheckFiles<'a> {
    pub network: &'a str,
    pub traces: &'a str,
    pub certificate: &'a str,
}

/// The name of the file of `table`.
#[derive(Clone, Copy)]
pub struct TableFiles<'a> {
    pub network: &'a str,
}

/// The numbers of a generated town: how many rows and columns of corners it has, how many traces, and the
/// seed of the generator.
#[derive(Clone, Copy)]
pub struct TownNumbers {
    pub side: u32,
    pub traces: u32,
    pub seed: u32,
}

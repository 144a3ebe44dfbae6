//! The work of `follow` and `streams`, for all programs that do it: positions are followed one by one, with rows
//! that are searched near each vehicle; then the total line is written.
//!
//! - `follow`: [`FollowJob`] follows traces that come batch by batch, or one by one, one trace after the other. Its
//!   text is `follow_job` in `specs/Follow.antt`; `follow_plan` there defines the output for the files, which
//!   [`follow_traces`] reads and writes.
//! - `streams`: the traces of a file are fragments of ids. Sessions with rows of their own take their positions in
//!   order, and at the end all ids are closed. [`stream_traces`] does it for two files. Its text is `streams_job` in
//!   `specs/Streams.antt`; `streams_plan` there defines the output for the files.
//! - `streams --idle S`: the positions of an id are those of drives. A drive ends before a position that is more than S
//!   seconds newer than its newest one, and its session is removed. The text is `drives_job` in `specs/Drives.antt`, of
//!   the definitions in `specs/Drives.antt` of trace_sessions.
#![tactic(auto)]

mod drive_job;
mod drives;
mod follow;
mod job;
mod laws;
mod rows;
mod streams;
mod times;

pub use follow::follow_traces;
pub use job::FollowJob;
pub use laws::{streams_follow_each_drive, streams_follow_each_id};
pub use streams::stream_traces;

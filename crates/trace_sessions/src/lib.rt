//! Traces that are matched while their positions still come, and their output as lines.
//!
//! [`write_items`] appends the lines of items, `At` and `Missing` as the label line of a match text
//! and `Closed` as its piece line. With an id, each line begins with that id and a space.
//!
//! `follow_lines` in `specs/FollowText.antt` defines the follow text of a trace: a line `fix I` for each position,
//! after it the lines that the position makes certain, and after a line `finish` the remaining lines.
//! [`follow_is_match`] says that without the `fix` and `finish` lines it is the match text, and
//! [`written_lines_stay`] that a written line stays, whatever positions follow.
//!
//! [`follow_trace`] appends the follow text of a trace on a [`Basis`]: it feeds one position after the other to a
//! session, and writes what the session returns.
//!
//! [`Sessions`] keeps the sessions of many traces at once, one for each id. `RepresentsPairs` in
//! `specs/Sessions.antt` says which ids and positions they represent. What [`Sessions::feed`] and
//! [`Sessions::close`] return depends only on the positions of their id.
//!
//! [`Sessions::stream`] takes the positions of a fragment and appends their lines, and [`Sessions::close_all`]
//! those of the end. If no id is full and all ids are below 2^32, the lines of an id are the follow text of its
//! positions alone: [`ids_are_followed_alone`] says so, and [`ids_have_follow_texts`] of the bytes.
//! [`ids_are_answered_alone`] compares the calls of an id among others and alone, if all of them are `Ok`.
//!
//! In a stream whose drives end, an id has one drive after the other. `ended_at` in `specs/Drives.antt` says which drives
//! end before a position, and `all_drive_lines` what is written. [`Sessions::stream_fix`] takes one position, and
//! [`Sessions::end_trace`] ends the trace of one id. The lines of an id are the follow texts of its drives
//! ([`drives_are_followed_alone`]), which have each of its positions ([`drives_have_each_position`]). With the greatest
//! number of seconds no drive ends before the file ([`no_drive_is_idle`]), and an id has one ([`ids_have_one_drive`]).
//!
//! Read first: `item_lines` in `specs/ItemText.antt`, then `follow_lines` and `FollowIsMatch`; and
//! `RepresentsPairs`, `TakesFix` and `ClosesSession`; `stream_lines` and `closing_lines` in `specs/StreamText.antt`;
//! `drives_of` and `all_drive_lines` in `specs/Drives.antt`.
#![tactic(auto)]

mod basis;
mod following;
mod items;
mod laws;
mod sessions;

pub use basis::Basis;
pub use following::follow_trace;
pub use items::write_items;
pub use laws::{
    committed_is_common_prefix, drives_are_followed_alone, drives_have_each_position,
    follow_is_match, ids_are_answered_alone, ids_are_followed_alone, ids_have_follow_texts,
    ids_have_one_drive, no_drive_is_idle, written_lines_stay,
};
pub use sessions::{SessionFault, Sessions};

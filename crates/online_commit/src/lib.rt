//! A session of one trace that takes its positions one by one. It returns the label of each position as soon as all
//! best sequences agree on it, and each piece as soon as it is closed.
//!
//! [`Online::feed`] takes a position and [`Online::finish`] ends the trace. `handed` and `items_of` in
//! `specs/Items.antt` define what they return: the committed labels in the order of the positions, and each closed
//! piece after its last position. [`what_is_handed_out_stays`] says that whatever positions follow, everything
//! returned so far is the beginning of what the whole trace has.
//!
//! A session keeps the positions of the open piece, and for each of them a set of ranks: those that the best
//! sequences to the live ranks of the last position have there. A position is committed when that set has one rank.
//! A new position changes the sets from the last one back to the first one that stays the same. No clause bounds
//! how many sets change.
//!
//! Read first: `handed` in `specs/Items.antt`, `RepresentsLayers` and `FeedsLayer` in `specs/Session.antt`.
#![tactic(auto)]

mod closing;
mod feeding;
mod history;
mod items;
mod laws;
mod letting_go;
mod masks;
mod online;
mod open_piece;
mod settled;

pub use items::Item;
pub use laws::{more_points_hand_out_more, what_is_handed_out_stays};
pub use online::Online;

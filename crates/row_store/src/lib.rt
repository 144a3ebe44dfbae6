//! Rows that threads share without a lock: slots for each node, set once by the first thread, and readers that
//! use a row only if it is right.
//!
//! - [`RowStore`] has the slots: the table's, for the rows within its bound, and for those who match along traces
//!   also slots for near rows, within a third of it. It makes [`Reader`]s, one for each thread.
//! - A [`Reader`] remembers what it has seen: [`Reader::look`] always returns the same row, and a
//!   [`Sight`] says whether it is the row of its node. As [`bounded_table::Rows`] a reader gives the row
//!   of the node whatever the slots contain.
//! - [`agree`] says that two readers that know a row of a node know the same row, and [`known_count`] for how
//!   many nodes some reader knows one.
//!
//! A reader that knows that the row in a slot is right leaves a voucher beside it, and another reader that finds the
//! voucher need not check the row. The vouchers follow a rule, `Vouched` in `specs/inside/Vouchers.antt`.
//!
//! Read first the clauses of [`Reader::look`] and [`agree`]. No call waits.
#![tactic(auto)]

mod accepted;
mod counting;
mod judge;
mod lending;
mod near_slots;
mod opening;
mod place;
mod reader;
mod sight;
mod slots;
mod store;
mod view;
mod vouched;
mod vouchers;
mod whole_rows;

pub use counting::known_count;
pub use near_slots::agree_near;
pub use reader::{Reader, agree};
pub use sight::Sight;
pub use store::{RowStore, near_bound};

//! What workers need of outside. Serves `match` and `town`.

use std::alloc::Global;

/// The threads and the memory of the workers, and the gate that is called for each trace.
#[derive(Clone, Copy)]
pub struct Env<'a, R, G> {
    pub rt: &'a R,
    pub alloc: Global,
    pub gate: &'a G,
}

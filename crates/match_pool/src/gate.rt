//! Observers of each trace that is matched. Serves tests of `work`.

use row_store::RowStore;

/// Is called before and after each trace is matched. Both calls return.
///
/// `trace` is the index of the trace in the file, from 0, and `store` is the store of the worker's rows.
/// No contract says when a gate is called, and with which index and store. The tests in `program_tests`
/// show it, with gates of their own.
///
/// A gate may make its own readers on the store, and look and offer through them.
pub trait Gate: Sync {
    fn begin(&self, trace: u64, store: &RowStore<'_>);

    fn end(&self, trace: u64, store: &RowStore<'_>);
}

/// A gate that does nothing.
#[derive(Clone, Copy)]
pub struct OpenGate;

impl Gate for OpenGate {
    fn begin(&self, _trace: u64, _store: &RowStore<'_>) {}

    fn end(&self, _trace: u64, _store: &RowStore<'_>) {}
}

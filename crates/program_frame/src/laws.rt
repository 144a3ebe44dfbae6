//! Laws of the promises of a run. Each function exists for its clause and does nothing.
ghost use Rattle.program_frame.specs.PromiseLaws.{OnlyReadersRefuse, PromisesAreKept};

/// The promises of a run follow from what its work leaves and from the put of its line.
pub fn promises_are_kept()
    ensures { PromisesAreKept }
{}

/// Over any shelf and any sinks, a run whose plan reads no file and ends with a text has status 0,
/// 1 or 4.
pub fn only_readers_refuse()
    ensures { OnlyReadersRefuse }
{}

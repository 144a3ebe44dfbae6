//! Laws of the definitions. Each function exists for its clause and does nothing.
ghost use Rattle.town.specs.Laws.{NetworkIsLawful, TracesAreLawful};

/// The network file of a town of 2 to 100 rows has no fault, and contains the network of its streets.
pub fn network_is_lawful()
    ensures { NetworkIsLawful }
{}

/// The trace file of such a town, with 1 to 2,000 traces, has no fault, and contains its walks: lawful
/// traces of 20 positions.
pub fn traces_are_lawful()
    ensures { TracesAreLawful }
{}

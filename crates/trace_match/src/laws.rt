//! Laws of the match of a trace. Each function exists for its clause and does nothing.
ghost use Rattle.trace_match.specs.Laws.{CommittedLabelsStay, FirstLabelsStay, LabelsAgreeAsRanks, MatchesAreLawful};

/// The match of a trace has a text, and a label for each position.
pub fn matches_are_lawful()
    ensures { MatchesAreLawful }
{}

/// The labels of a position agree exactly if its ranks do.
pub fn labels_agree_as_ranks()
    ensures { LabelsAgreeAsRanks }
{}

/// The first labels depend on the first layers and ranks alone.
pub fn first_labels_stay()
    ensures { FirstLabelsStay }
{}

/// Committed labels stay, whatever positions follow.
pub fn committed_labels_stay()
    ensures { CommittedLabelsStay }
{}

//! Laws of the definition of a verdict. Each function exists for its clause and does nothing.
ghost use Rattle.cert_checker.specs.Laws.{MatchesAreProved, MatchesHaveText, ProvedAreTheMatches, ProvedIsTheMatch};

/// A trace is proved exactly by a proof that has the ranks, the cells and the pieces of its match,
/// together with the rows of all nodes that the match asks for.
pub fn proved_is_the_match()
    ensures { ProvedIsTheMatch }
{}

/// A certificate is proved exactly if its rows are right and ascend, its proofs are those of the
/// matches of the traces, with their ids, and each node that a match asks for has its row.
pub fn proved_are_the_matches()
    ensures { ProvedAreTheMatches }
{}

/// Proofs of the matches of traces are proved, together with the rows of all nodes that the matches
/// ask for.
pub fn matches_are_proved()
    ensures { MatchesAreProved }
{}

/// A certificate made of proofs of the matches of traces and of rows of nodes has a text. So its
/// written text reads back as this certificate (`certificates_read_back` of `potential_certificate`).
pub fn matches_have_text()
    ensures { MatchesHaveText }
{}

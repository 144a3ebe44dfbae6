//! What `fmm match NET TRACES` writes, as one law.
//!
//! [`listed_match_is_least`] says of every run that keeps its promises (the clause of `run` in `program_run`)
//! that it writes the least match of each trace, where the two files list a network and traces line by line.
//! [`match_is_least`] says the same of all files without a fault. [`match_texts_are_one`] says that there is no
//! other text. The statements are in `specs/ListedMatch.antt`, `specs/MatchIsLeast.antt` and
//! `specs/Matches.antt`, and their words are in `specs/LeastMatch.antt`.
#![tactic(auto)]

ghost use Rattle.match_law.specs.ListedMatch.{ListedMatchIsLeast};
ghost use Rattle.match_law.specs.MatchIsLeast.{MatchIsLeast};
ghost use Rattle.match_law.specs.Matches.{MatchTextsAreOne, MatchesAreLeast};

use listed_files::{networks_are_read, traces_are_read};
use match_words::match_words_are_read;

/// A run of `match` over files that list a network and traces writes the least match of each trace, or ends
/// early with status 1, 3 or 4.
pub fn listed_match_is_least()
    ensures { ListedMatchIsLeast }
{
    match_words_are_read();
    networks_are_read();
    traces_are_read();
}

/// A run of `match` over a network and traces without a fault writes the least match of each trace, or
/// ends early with status 1, 3 or 4.
pub fn match_is_least()
    ensures { MatchIsLeast }
{}

/// The match of a trace as a value is its least match, and nothing else is.
pub fn matches_are_least()
    ensures { MatchesAreLeast }
{}

/// Two texts of the least matches of the same traces are equal, so a run can write only one.
pub fn match_texts_are_one()
    ensures { MatchTextsAreOne }
{}

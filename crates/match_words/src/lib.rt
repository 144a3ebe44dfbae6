//! The words `match NETWORK TRACES`, and then any of the options in any order.
//!
//! `match_words` in `specs/MatchWords.antt` writes them out. The law says that they ask for the match of
//! these two files with these options.
#![tactic(auto)]

ghost use Rattle.match_words.specs.MatchWords.{MatchWordsAreRead};

/// The words that are written out are read as the command that they name.
pub fn match_words_are_read()
    ensures { MatchWordsAreRead }
{}

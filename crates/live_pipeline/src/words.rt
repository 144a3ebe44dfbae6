//! The words with `follow` before them. Serves `live`; decided by `with_follow`.
ghost use Rattle.std.specs.Prelude.{◌≡◌, IfOk, map, string_bytes};
ghost use Rattle.live_pipeline.specs.Words.{with_follow};

use std::alloc::{AllocError, Global};

/// A copy of the words, with `follow` before them.
pub fn follow_words(alloc: Global, words: &[String]) -> Result<Vec<String>, AllocError>
    ensures { IfOk result
        (λ all. map string_bytes all.items ≡ with_follow (map string_bytes words.now)) }
{
    let mut all = Vec::new(alloc);
    all.push(String::from_str(alloc, "follow")?)?;
    for word in words {
        all.push(String::from_str(alloc, word)?)?;
    }
    Ok(all)
}

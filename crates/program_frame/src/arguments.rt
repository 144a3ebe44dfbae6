//! The words that a program is given. Serves `Outside`; decided by `AreWordsOf`.
ghost use Rattle.std.specs.Prelude.{ℕ, List as ListOf, Option, None, Some, IfOk, IfSome, map, option_map, string_bytes, vec_items};
ghost use Rattle.program_frame.specs.Outside.{AreWordsOf, IsArgument};

use plain_list::List;
use std::alloc::{AllocError, Global};
use std::env::{Env, FillError};

/// The arguments of a program by number. Argument 0 is the program's name.
pub trait Arguments {
    /// The bytes of all arguments, if contracts may see them.
    ghost given: { Self → Option (ListOf (ListOf ℕ)) };

    /// The bytes of argument `i`, if there is one.
    fn argument(&self, alloc: Global, i: usize) -> Result<Option<Vec<u8>>, AllocError>
        ensures { IfOk result (λ bytes. IfSome (given self.now) (λ all.
            IsArgument all i (option_map vec_items bytes))) };
}

// The arguments of a process. Contracts see nothing of them.
impl<R: Env> Arguments for R {
    ghost given = { λ _. None };

    fn argument(&self, alloc: Global, i: usize) -> Result<Option<Vec<u8>>, AllocError> {
        let mut bytes = Vec::new(alloc);
        for _ in 0..usize::BITS {
            let room = bytes.len().saturating_add(bytes.len()).max(256);
            bytes.resize(room, 0)?;
            match self.arg(i, &mut bytes) {
                Ok(count) => {
                    bytes.truncate(count);
                    return Ok(Some(bytes));
                }
                Err(FillError::NotPresent) => return Ok(None),
                Err(FillError::TooLong) => {}
            }
        }
        Err(AllocError)
    }
}

/// Arguments in memory, whose bytes contracts see.
#[derive(Clone, Copy)]
pub struct GivenArguments<'a>(pub &'a [List<u8>]);

impl<'a> Arguments for GivenArguments<'a> {
    ghost given = { λ s. Some s.0.now };

    fn argument(&self, alloc: Global, i: usize) -> Result<Option<Vec<u8>>, AllocError> {
        let Some(argument) = self.0.get(i) else {
            return Ok(None);
        };
        let mut bytes = Vec::new(alloc);
        bytes.extend_from_slice(argument.as_slice())?;
        Ok(Some(bytes))
    }
}

/// The words after the program's name, in order. If one of them is invalid UTF-8, there are none.
pub fn read_words<A: Arguments>(alloc: Global, arguments: &A) -> Result<Vec<String>, AllocError>
    ensures { IfOk result (λ words. IfSome (A.given arguments.now) (λ given.
        AreWordsOf given (map string_bytes words.items))) }
{
    let mut words = Vec::new(alloc);
    for i in 1..usize::MAX {
        let Some(bytes) = arguments.argument(alloc, i)? else {
            return Ok(words);
        };
        let Ok(word) = String::from_utf8(bytes) else {
            return Ok(Vec::new(alloc));
        };
        words.push(word)?;
    }
    Err(AllocError)
}

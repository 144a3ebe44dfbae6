//! Whole files of a shelf, up to a limit.
ghost use Rattle.std.specs.Prelude.{◌<◌, ◌^◌, IfOk, IfErr};
ghost use Rattle.program_frame.specs.Read.{FailsToRead, ReadsWhole};

use crate::chunks::CHUNK;
use crate::stop::{File, Stop};
use edge_io::{Shelf, Taken};
use std::alloc::Global;

/// Reads a file from its start to its end or to the first byte above the limit.
pub fn read_file<S: Shelf>(
    alloc: Global,
    shelf: &mut S,
    file: File,
    name: &str,
    limit: u64,
) -> Result<Vec<u8>, Stop>
    requires { limit < 2 ^ 40 }
    ensures ok { IfOk result (λ bytes. ReadsWhole name.now limit
        (S.state shelf.old) (S.state shelf.new) bytes.items) }
    ensures err { IfErr result (FailsToRead file name.now
        (S.state shelf.old) (S.state shelf.new)) }
{
    let mut bytes = Vec::new(alloc);
    while bytes.len() as u64 <= limit {
        let at = bytes.len() as u64;
        let most = (limit + 1 - at).min(CHUNK) as u32;
        match shelf.read(name, at, &mut bytes, most) {
            Taken::Got(_) => {}
            Taken::End => return Ok(bytes),
            Taken::Failed => return Err(Stop::Unread(file)),
            Taken::NoMemory => return Err(Stop::NoMemory),
        }
    }
    Ok(bytes)
}

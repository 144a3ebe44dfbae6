//! Writes texts to the output.
ghost use Rattle.std.specs.Prelude.{◌≡◌};
ghost use Rattle.program_frame.specs.Performs.{PutsText};

use crate::stop::Stop;
use edge_io::{Put, Sink};

/// Writes a text to the output.
pub fn put_text<K: Sink>(out: &mut K, text: &[u8]) -> Result<(), Stop>
    ensures { PutsText (K.state out.old) (K.state out.new) text.now result }
{
    match out.put(text) {
        Put::All => Ok(()),
        Put::Failed => Err(Stop::Unwritten),
        Put::NoMemory => Err(Stop::NoMemory),
    }
}

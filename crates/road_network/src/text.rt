//! The text of a file, whose memory is returned while it is read. Serves `read_network_text`; decided by
//! `text_in`.
ghost use Rattle.std.specs.Prelude.{◌≡◌, Some, take};
ghost use Rattle.road_network.specs.inside.Between.{text_in};

use std::io::{Read, Result};

/// The bytes that are returned at once, since each return costs a call of the system. Speed only: any value is
/// right.
const BLOCK: usize = 65_536;

/// A text that is read from its start to its end. Its bytes are stored in reverse order, so that the
/// bytes that were read are at the end and can be cut off.
#[derive(Drop)]
pub(crate) struct Text {
    reversed: Vec<u8>,
}

impl Text {
    /// The text of some bytes.
    pub fn new(bytes: Vec<u8>) -> Text
        ensures { text_in result ≡ bytes.items }
    {
        let mut reversed = bytes;
        reversed.reverse();
        Text { reversed }
    }

    /// Cuts off the bytes from a place on, and returns their memory when a block of it is free.
    fn cut(&mut self, rest: usize)
        ensures { self.new.reversed.items ≡ take rest self.old.reversed.items }
    {
        self.reversed.truncate(rest);
        if self.reversed.capacity() >= rest.saturating_add(BLOCK) {
            self.reversed.shrink_to_fit();
        }
    }
}

impl Read for Text {
    ghost remaining = { λ t. Some (text_in t) };

    fn read(&mut self, buf: &mut [u8]) -> Result<usize> {
        let count = buf.len().min(self.reversed.len());
        let rest = self.reversed.len() - count;
        let part = &mut buf[..count];
        part.copy_from_slice(&self.reversed[rest..]);
        part.reverse();
        self.cut(rest);
        Ok(count)
    }
}

//! An output stream. Serves the program's `main`; decided by `Puts`, which says of a stream whose bytes
//! contracts see which of them it has.
ghost use Rattle.std.specs.Prelude.{◌≡◌, OnErr, OnOk};
ghost use Rattle.std.specs.Io.KnownBytes.{Appends};
ghost use Rattle.edge_io.specs.Sink.{AppendsPrefix};
ghost use Rattle.edge_io.specs.State.{new_sink};

use crate::{Put, Sink};
use std::io;
use std::io::{ErrorKind, Write};

/// An output stream that is flushed after each text.
#[derive(Drop)]
pub struct StreamSink<W: Write + Drop> {
    stream: W,
    faults: u64,
}

impl<W: Write + Drop> StreamSink<W> {
    /// A sink over the stream.
    pub fn new(stream: W) -> Self
        ensures { ⟦<StreamSink<W> as Sink>⟧.state result ≡ new_sink (W.contents stream) }
    {
        StreamSink { stream, faults: 0 }
    }

    /// The stream, with what was written to it.
    pub fn into_stream(self) -> W
        ensures { W.contents result ≡ (⟦<StreamSink<W> as Sink>⟧.state self).written }
    {
        self.stream
    }
}

// Writes a text, again after a signal interrupted it, and flushes. After an error the stream has a prefix
// of the text.
fn write_flushed<W: Write>(stream: &mut W, text: &[u8]) -> io::Result<()>
    ensures ok { OnOk result (Appends (W.contents stream.old) (W.contents stream.new) text.now) }
    ensures err { OnErr result
        (AppendsPrefix (W.contents stream.old) (W.contents stream.new) text.now) }
{
    let mut rest = text;
    for _ in 0..u64::MAX {
        if rest.is_empty() {
            return stream.flush();
        }
        match stream.write(rest) {
            Ok(0) => return Err(io::Error::from(ErrorKind::WriteZero)),
            Ok(count) => rest = &rest[count..],
            Err(error) if error.kind() == ErrorKind::Interrupted => {}
            Err(error) => return Err(error),
        }
    }
    Err(io::Error::from(ErrorKind::Interrupted))
}

impl<W: Write + Drop> Sink for StreamSink<W> {
    ghost state = { λ s. record { written = W.contents s.stream; faults = s.faults } };

    fn put(&mut self, text: &[u8]) -> Put {
        match write_flushed(&mut self.stream, text) {
            Ok(()) => Put::All,
            Err(_) => {
                self.faults = self.faults.saturating_add(1);
                Put::Failed
            }
        }
    }
}

//! A place to write bytes to. Serves every program that writes; decided by `Puts`.
ghost use Rattle.edge_io.specs.Sink.{Puts};
ghost use Rattle.edge_io.specs.State.{SinkState};

/// The answer of a put.
#[derive(Clone, Copy)]
pub enum Put {
    /// The whole text was written.
    All,
    /// A prefix of the text was written, and the failure was counted.
    Failed,
    /// Out of memory; nothing was written.
    NoMemory,
}

/// A place to write bytes to, in order.
pub trait Sink {
    /// What was written, if contracts may see it, and the number of failed puts. The count saturates at
    /// 2^64 - 1.
    ghost state: { Self → SinkState };

    /// Writes the text after what was written before.
    fn put(&mut self, text: &[u8]) -> Put
        ensures { Puts (state self.old) (state self.new) text.now result };
}

//! The record of a failed read. Serves the shelves; decided by `shelf_after`.
ghost use Rattle.std.specs.Prelude.{◌≡◌, ◌++◌, ◌∷◌, [], None, OnOk, OnErr};
ghost use Rattle.edge_io.specs.Shelf.{IsNotRead, shelf_after};

use crate::Taken;
use plain_list::List;
use std::alloc::{AllocError, Global};

// Appends the name to the names of the failed reads.
fn note(alloc: Global, failed: &mut List<List<u8>>, name: &str) -> Result<(), AllocError>
    ensures ok { OnOk result (failed.new ≡ failed.old ++ name.now ∷ []) }
    ensures err { OnErr result (failed.new ≡ failed.old) }
{
    let mut copy = List::new(alloc);
    copy.extend_from_slice(name.as_bytes())?;
    failed.push(copy)
}

/// Records the name of a failed read, and returns the answer of that read.
pub fn fail_read(alloc: Global, failed: &mut List<List<u8>>, name: &str) -> Taken
    ensures noted { failed.new
        ≡ (shelf_after result name.now (record { holds = None; failed = failed.old })).failed }
    ensures fault { IsNotRead result }
{
    match note(alloc, failed, name) {
        Ok(()) => Taken::Failed,
        Err(_) => Taken::NoMemory,
    }
}

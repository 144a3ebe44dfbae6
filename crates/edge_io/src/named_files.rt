//! Files in memory by their names. Serves the shelves; decided by `lookup` and `IsOpenAt`.
ghost use Rattle.std.specs.Prelude.{◌≡◌, Some, drop, option_copied};
ghost use Rattle.edge_io.specs.Files.{lookup};

use crate::FileSource;
use plain_list::List;
use std::io;
use std::io::ErrorKind;

/// Files by name and bytes, which contracts see. If a name occurs twice, its first file counts.
#[derive(Clone, Copy)]
pub struct NamedFiles<'a>(pub &'a [(List<u8>, List<u8>)]);

impl<'a> FileSource for NamedFiles<'a> {
    type File = &'a [u8];

    ghost holds = { λ s. Some (lookup s.0.now) };

    fn open_at(&self, name: &str, at: u64) -> io::Result<&'a [u8]> {
        match find(self.0, name.as_bytes()) {
            Some(bytes) => Ok(bytes_from(bytes.as_slice(), at)),
            None => Err(io::Error::from(ErrorKind::NotFound)),
        }
    }
}

// The bytes of a file from a place on.
fn bytes_from(file: &[u8], at: u64) -> &[u8]
    ensures { result.now ≡ drop at file.now }
{
    file.get(at as usize..).unwrap_or(&[])
}

/// The bytes of the first file with this name.
pub fn find<'a>(files: &'a [(List<u8>, List<u8>)], name: &[u8]) -> Option<&'a List<u8>>
    ensures { option_copied result ≡ lookup files.now name.now }
{
    let mut rest = files;
    while let [(key, bytes), after @ ..] = rest {
        if key.as_slice() == name {
            return Some(bytes);
        }
        rest = after;
    }
    None
}

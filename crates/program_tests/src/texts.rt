//! Lists, and long files with their texts.
use decimal_text::write_unsigned;
use plain_list::List;
use std::alloc::{AllocError, Global};

pub fn list<T: Copy>(alloc: Global, items: &[T]) -> Result<List<T>, AllocError> {
    let mut list = List::new(alloc);
    list.extend_from_slice(items)?;
    Ok(list)
}

/// A file of so many traces of one position.
pub fn many_traces(alloc: Global, count: u64) -> Result<List<u8>, AllocError> {
    let mut text = list(alloc, b"trace,x,y\n")?;
    for id in 0..count {
        write_unsigned(id, &mut text)?;
        text.extend_from_slice(b",1000,0\n")?;
    }
    Ok(text)
}

/// The texts of so many of them, with this total line.
pub fn many_texts(alloc: Global, count: u64, total: &[u8]) -> Result<List<u8>, AllocError> {
    let mut text = List::new(alloc);
    for id in 0..count {
        append_text(id, &mut text)?;
    }
    text.extend_from_slice(total)?;
    Ok(text)
}

fn append_text(id: u64, text: &mut List<u8>) -> Result<(), AllocError> {
    text.extend_from_slice(b"trace ")?;
    write_unsigned(id, &mut *text)?;
    text.extend_from_slice(b"\nat 0 edge 10 offset 1000 d2 0\npiece 0 0 cost 0 route 10\nend ")?;
    write_unsigned(id, &mut *text)?;
    text.extend_from_slice(b"\n")
}

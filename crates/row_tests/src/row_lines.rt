//! Rows as lines.
use plain_list::List;
use row_text::{read_row, write_row};
use std::alloc::{AllocError, Global};

/// Texts that begin with the line of a row.
const READ: [&[u8]; 3] = [
    b"row 0 0:0:- 1:10000:0 4294967295:4294967295:1\n",
    b"row 0 0:0:- 1234567:12345678:7 23456789:123456789:98765432\n",
    b"row 2 2:0:-\nrow 3",
];

/// Texts that do not.
const REFUSED: [&[u8]; 9] = [
    b"row 0 0:0:- 1:4294967296:1\n",
    b"row 0 0:0:- 01234567:1:1\n",
    b"row 1 1:0:-",
    b"row 01 1:0:-\n",
    b"row 1 1:0:- 2:010:1\n",
    b"row 1 2:7:0\n",
    b"row 1 1:0:- 2:0:1\n",
    b"row 1 2:7:0 1:0:-\n",
    b"row 1 1:0:-  2:7:0\n",
];

/// Whether a row that is read from a text is written as it was. None if no row is read.
fn is_written_again(alloc: Global, text: &[u8]) -> Result<Option<bool>, AllocError> {
    let Some((row, rest)) = read_row(alloc, text)? else {
        return Ok(None);
    };
    let mut written = List::new(alloc);
    write_row(&row, &mut written)?;
    written.extend_from_slice(rest)?;
    Ok(Some(written.as_slice() == text))
}

#[test]
fn lines_of_rows(rt: HostRuntime) {
    for text in READ {
        assert!(rt; is_written_again(rt.alloc(), text) == Ok(Some(true)));
    }
    for text in REFUSED {
        assert!(rt; is_written_again(rt.alloc(), text) == Ok(None));
    }
}

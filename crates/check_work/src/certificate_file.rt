//! Reads a certificate file block by block, while the previous block is being processed. Serves `check`; decided by `ReadsWhole`.
ghost use Rattle.std.specs.Prelude.{◌≡◌, ◌+◌, ◌≤◌, ◌<◌, ◌^◌, ◌++◌, IfErr, IfOk, length};
ghost use Rattle.potential_certificate.specs.CertificateText.{certificate_text_limit};
ghost use Rattle.program_frame.specs.Read.{FailsToRead, ReadsWhole};
ghost use Rattle.check_work.specs.inside.CertificateFiles.{IsOfSize, IsToBeRead, ReadsBlock};

use edge_io::{Shelf, Taken};
use potential_certificate::{CertificateReader, TEXT_LIMIT};
use program_frame::{File, Stop};
use std::alloc::{AllocError, Global};
use std::thread;
use std::thread::Threads;

// The most bytes of one read.
const CHUNK: u64 = 65_536;

// The bytes of a file after a place, up to a limit.
#[derive(Drop)]
struct Block {
    from: u64,
    most: u64,
    bytes: Vec<u8>,
}

// An empty block after this one, with memory of its own.
fn next_block(block: &Block, memory: Vec<u8>, most: u64) -> Block
    requires within { block.now.from + length block.now.bytes.items ≤ certificate_text_limit }
    requires most { (1 ≤ most) × (most < 2 ^ 40) }
    ensures place { result.from ≡ block.now.from + length block.now.bytes.items }
    ensures size { result.most ≡ most }
    ensures empty { IsToBeRead result }
{
    let mut bytes = memory;
    bytes.truncate(0);
    Block {
        from: block.from + block.bytes.len() as u64,
        most,
        bytes,
    }
}

// Reads a block. Returns whether the file may continue after it: not if its end was reached, or the first byte
// above the limit was read.
fn fill<S: Shelf>(shelf: &mut S, name: &str, block: &mut Block) -> Result<bool, Stop>
    requires { IsToBeRead block.old }
    ensures ok { IfOk result (ReadsBlock name.now
        (S.state shelf.old) (S.state shelf.new) block.old.from block.new) }
    ensures err { IfErr result (FailsToRead File.Certificate name.now
        (S.state shelf.old) (S.state shelf.new)) }
    ensures size { IfOk result (λ goes_on. IsOfSize block.old.most block.new goes_on) }
{
    let end = (block.from + block.most).min(TEXT_LIMIT + 1);
    while block.from + (block.bytes.len() as u64) < end {
        let at = block.from + block.bytes.len() as u64;
        let most = (end - at).min(CHUNK) as u32;
        match shelf.read(name, at, &mut block.bytes, most) {
            Taken::Got(_) => {}
            Taken::End => return Ok(false),
            Taken::Failed => return Err(Stop::Unread(File::Certificate)),
            Taken::NoMemory => return Err(Stop::NoMemory),
        }
    }
    Ok(end <= TEXT_LIMIT)
}

// A reader, and the bytes of the block that it takes next.
#[derive(Drop)]
struct Parsing<'a> {
    reader: CertificateReader,
    full: &'a [u8],
}

// Processes a block while the next one is read.
fn take_and_fill<R: Threads + Sync, S: Shelf>(
    rt: &R,
    shelf: &mut S,
    name: &str,
    parsing: Parsing<'_>,
    next: Block,
) -> Result<(CertificateReader, Block, bool), Stop>
    requires { IsToBeRead next }
    ensures taken { IfOk result (λ left. left.0 ≡ parsing.entry.reader ++ parsing.entry.full.now) }
    ensures ok { IfOk result (λ left. ReadsBlock name.now
        (S.state shelf.old) (S.state shelf.new) next.from left.1 left.2) }
    ensures err { IfErr result (FailsToRead File.Certificate name.now
        (S.state shelf.old) (S.state shelf.new)) }
{
    let Parsing { reader, full } = parsing;
    let (taken, (block, filled, _shelf)) = thread::join(
        rt,
        move || -> Result<CertificateReader, AllocError>
            ensures { IfOk result (λ more. more ≡ reader ++ full.entry.now) }
        { reader.push(rt, full) },
        move || -> (Block, Result<bool, Stop>, &mut S)
            requires { IsToBeRead next }
            ensures ok { IfOk result.1 (ReadsBlock name.entry.now
                (S.state shelf.entry.now) (S.state result.2.now) next.from result.0) }
            ensures err { IfErr result.1 (FailsToRead File.Certificate name.entry.now
                (S.state shelf.entry.now) (S.state result.2.now)) }
            ensures lent { result.2.ghost_name ≡ shelf.entry.ghost_name }
        {
            let mut block = next;
            let filled = fill(&mut *shelf, name, &mut block);
            (block, filled, shelf)
        },
    );
    let goes_on = filled?;
    Ok((taken?, block, goes_on))
}

/// Reads a certificate file from its start to its end or to the first byte above the limit, in blocks of at most
/// `size` bytes. Only two blocks are stored, and the parts of the text that are not proofs or rows.
pub fn read_certificate_file<R: Threads + Sync, S: Shelf>(
    rt: &R,
    alloc: Global,
    shelf: &mut S,
    name: &str,
    size: u64,
) -> Result<CertificateReader, Stop>
    requires { (1 ≤ size) × (size < 2 ^ 40) }
    ensures ok { IfOk result (λ reader. ReadsWhole name.now certificate_text_limit
        (S.state shelf.old) (S.state shelf.new) reader) }
    ensures err { IfErr result (FailsToRead File.Certificate name.now
        (S.state shelf.old) (S.state shelf.new)) }
{
    let mut reader = CertificateReader::new(alloc);
    let mut spare = Vec::new(alloc);
    // The first block is read alone, so it is small.
    let mut block = Block {
        from: 0,
        most: size.div_ceil(4),
        bytes: Vec::new(alloc),
    };
    let mut goes_on = fill(shelf, name, &mut block)?;
    while goes_on {
        let next = next_block(&block, spare, size);
        let parsing = Parsing {
            reader,
            full: &block.bytes,
        };
        let (more, filled, on) = take_and_fill(rt, &mut *shelf, name, parsing, next)?;
        reader = more;
        spare = block.bytes;
        block = filled;
        goes_on = on;
    }
    Ok(reader.push(rt, &block.bytes)?)
}

//! The parts of a text, read in parallel by workers that draw them. Serves the reader of blocks; decided by `AreReadsOf`.
ghost use Rattle.std.specs.Prelude.{◌≡◌, ◌<◌, ◌≤◌, All, IfOk, length};
ghost use Rattle.tickets.specs.Tickets.{IsOpenTicket};
ghost use Rattle.potential_certificate.specs.inside.Gathering.{AreEachReadOf, AreReadsOf, IsPlacedIn, put_at_places};

use crate::parts::{PartRead, cut, read_part, unread};
use plain_list::List;
use rayon::current_num_threads;
use std::alloc::{AllocError, Global};
use std::thread;
use std::thread::Threads;
use tickets::{Claims, Ticket};

/// The most workers; each has a ticket.
const MOST_WORKERS: usize = 64;

/// The most numbers to draw. Parts from that index on stay unread.
const MOST_DRAWN: u64 = 4_294_967_296;

/// The result of reading the part at an index.
#[derive(Drop)]
pub struct PlacedRead<'a> {
    pub place: usize,
    pub read: PartRead<'a>,
}

// Reads each part whose index the ticket draws, until none is left.
fn draw_parts<'a>(
    alloc: Global,
    parts: &[&'a [u8]],
    claims: &Claims,
    mut ticket: Ticket,
) -> Result<List<PlacedRead<'a>>, AllocError>
    requires count { claims.now.count ≤ length parts.now }
    requires own { ticket.claims ≡ claims.now.name }
    requires open { IsOpenTicket claims.now.count ticket }
    ensures { IfOk result (All (IsPlacedIn parts.now)) }
{
    let mut done = List::new(alloc);
    while let Some(number) = claims.draw(&mut ticket) {
        let place = number as usize;
        let read = read_part(alloc, parts[place])?;
        done.push(PlacedRead { place, read })?;
    }
    Ok(done)
}

// What each worker read. Each has a ticket, and a thread of its own if one is available.
fn draw_all<'a, R: Threads + Sync>(
    rt: &R,
    alloc: Global,
    parts: &[&'a [u8]],
) -> Result<Vec<Result<List<PlacedRead<'a>>, AllocError>>, AllocError>
    ensures { IfOk result (λ all. All (λ done. IfOk done (All (IsPlacedIn parts.now))) all.items) }
{
    let count = (parts.len() as u64).min(MOST_DRAWN);
    let workers = current_num_threads(rt)
        .min(parts.len())
        .clamp(1, MOST_WORKERS);
    let (claims, tickets) = Claims::open(alloc, count, workers as u32)?;
    thread::map_vec(
        rt,
        tickets.into_vec(),
        &|ticket: Ticket| draw_parts(alloc, parts, &claims, ticket),
    )
}

// Parts of which nothing is read yet.
fn unread_parts<'a>(alloc: Global, parts: &[&'a [u8]]) -> Result<Vec<PartRead<'a>>, AllocError>
    ensures { IfOk result (λ reads. AreEachReadOf parts.now reads.items) }
{
    let mut reads = Vec::with_capacity(alloc, parts.len())?;
    for part in parts {
        reads.push(unread(alloc, part))?;
    }
    Ok(reads)
}

// Stores the results at the indices of their parts.
fn put_in<'a>(reads: &mut [PartRead<'a>], done: List<PlacedRead<'a>>)
    requires { All (λ placed. placed.place < length reads.old) done }
    ensures { reads.new ≡ put_at_places reads.old done.entry }
{
    for PlacedRead { place, read } in done.into_vec() {
        reads[place] = read;
    }
}

// What is read of each part, in parallel. A part that no worker drew stays unread, which only costs time.
fn read_each<'a, R: Threads + Sync>(
    rt: &R,
    alloc: Global,
    parts: &[&'a [u8]],
) -> Result<Vec<PartRead<'a>>, AllocError>
    ensures { IfOk result (λ reads. AreEachReadOf parts.now reads.items) }
{
    let mut reads = unread_parts(alloc, parts)?;
    for done in draw_all(rt, alloc, parts)? {
        put_in(&mut reads, done?);
    }
    Ok(reads)
}

/// What is read of the parts of a text, in parallel.
pub fn read_parts<'a, R: Threads + Sync>(
    rt: &R,
    alloc: Global,
    text: &'a [u8],
) -> Result<Vec<PartRead<'a>>, AllocError>
    ensures { IfOk result (λ reads. AreReadsOf text.now reads.items) }
{
    let parts = cut(alloc, text)?;
    read_each(rt, alloc, parts.as_slice())
}

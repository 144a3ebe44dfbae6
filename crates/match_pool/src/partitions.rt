//! The traces of a batch, divided into partitions by area. Serves `match_all`; decided by `ArePartitionsOf`.
//! Columns from west to east have equally many traces, and each is cut from south to north. Speed only: any
//! division is right in which each number is once.
ghost use Rattle.std.specs.Prelude.{◌≡◌, ◌≤◌, [], ◌∷◌, IfOk, length};
ghost use Rattle.std.specs.List.{range_with_len};
ghost use Rattle.match_pool.specs.inside.Partitions.{AreSpotsOf, ArePartitionsOf};

use crate::tables::empty_lists;
use plain_list::List;
use std::alloc::{AllocError, Global};
use trace_reader::Trace;

/// Where a trace lies: twice the middle of its bounding box, and the column of the map, which is
/// known once the traces are sorted from west to east.
#[derive(Clone, Copy)]
pub struct Spot {
    pub x: i64,
    pub y: i64,
    pub column: usize,
    pub number: usize,
}

/// Where the trace of this number lies.
fn spot_of(number: usize, trace: &Trace) -> Spot
    ensures { result.number ≡ number }
{
    let (mut west, mut east) = (i32::MAX, i32::MIN);
    let (mut south, mut north) = (i32::MAX, i32::MIN);
    for fix in trace.fixes.as_slice() {
        west = west.min(fix.x);
        east = east.max(fix.x);
        south = south.min(fix.y);
        north = north.max(fix.y);
    }
    Spot {
        x: i64::from(west) + i64::from(east),
        y: i64::from(south) + i64::from(north),
        column: 0,
        number,
    }
}

/// Where the traces lie, in the same order.
fn spots_of(alloc: Global, traces: &[Trace]) -> Result<Vec<Spot>, AllocError>
    ensures { IfOk result (λ spots. AreSpotsOf (length traces.now) spots.items) }
{
    let mut spots = Vec::with_capacity(alloc, traces.len())?;
    for number in 0..traces.len() {
        spots.push(spot_of(number, &traces[number]))?;
    }
    Ok(spots)
}

/// Gives each spot its column: each column has the next `width` spots.
fn set_columns(spots: &mut Vec<Spot>, width: usize)
    requires width { 1 ≤ width }
    ensures { (count : _) → AreSpotsOf count spots.old.items → AreSpotsOf count spots.new.items }
{
    for rank in 0..spots.len() {
        spots[rank].column = rank / width;
    }
}

/// The spots column by column, and in each from south to north, so that consecutive ones are near.
fn sorted(alloc: Global, traces: &[Trace], columns: usize) -> Result<Vec<Spot>, AllocError>
    requires columns { 1 ≤ columns }
    ensures { IfOk result (λ spots. AreSpotsOf (length traces.now) spots.items) }
{
    let mut spots = spots_of(alloc, traces)?;
    spots.sort_unstable_by_key(|spot| spot.x);
    let width = spots.len() / columns + 1;
    set_columns(&mut spots, width);
    spots.sort_unstable_by_key(|spot| (spot.column, spot.y));
    Ok(spots)
}

/// The numbers below a count, in order.
pub fn numbers_below(alloc: Global, count: usize) -> Result<List<usize>, AllocError>
    ensures { IfOk result (λ numbers. numbers ≡ range_with_len 0 count) }
{
    let mut numbers = Vec::with_capacity(alloc, count)?;
    for number in 0..count {
        numbers.push(number)?;
    }
    Ok(List::from_vec(numbers))
}

/// One partition of all numbers, in order.
fn one_partition(alloc: Global, count: usize) -> Result<Vec<List<usize>>, AllocError>
    ensures { IfOk result (λ partitions. partitions.items ≡ range_with_len 0 count ∷ []) }
{
    let mut partitions = Vec::with_capacity(alloc, 1)?;
    partitions.push(numbers_below(alloc, count)?)?;
    Ok(partitions)
}

/// The numbers of the traces in `count` partitions by area, each number in one. A single partition has
/// them in order.
pub fn cut(alloc: Global, traces: &[Trace], count: usize) -> Result<Vec<List<usize>>, AllocError>
    requires count { 1 ≤ count }
    ensures count { IfOk result (λ partitions. length partitions.items ≡ count) }
    ensures partitions { IfOk result (λ partitions. ArePartitionsOf (length traces.now) partitions.items) }
    ensures single { count ≡ 1
        → IfOk result (λ partitions. partitions.items ≡ range_with_len 0 (length traces.now) ∷ []) }
{
    if count == 1 {
        return one_partition(alloc, traces.len());
    }
    let spots = sorted(alloc, traces, count.isqrt())?;
    let height = spots.len() / count + 1;
    let mut partitions = empty_lists(alloc, count)?;
    for rank in 0..spots.len() {
        partitions[(rank / height).min(count - 1)].push(spots[rank].number)?;
    }
    Ok(partitions)
}

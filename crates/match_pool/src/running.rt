//! Calls of a function for each item, in threads. Serves `WorkerSet::run`; decided by `ChangesEach`.
ghost use Rattle.std.specs.Prelude.{◌≡◌, ◌+◌, ◌<◌, ◌^◌, length};
ghost use Rattle.std.specs.Fork.{AcceptsAt, AcceptsEach, ChangesAt, ChangesEach};
ghost use Rattle.std.specs.Thread.{IsSend, IsSync};
ghost use Rattle.match_pool.specs.inside.Running.{EachFrom, EachFromTo};

use std::thread::{Threads, join_mut};

/// Calls `f(i, &mut items[i])` for each index, each time in a thread of its own if one is available.
///
/// The calling thread starts all threads, and makes the last call itself. With `thread::for_each_mut`, new
/// threads would start further threads: a thread that was started by one that has just begun often shares
/// its processor for a while.
pub fn run_each<R: Threads + Sync, T: Send, F: Fn(usize, &mut T) + Sync>(
    rt: &R,
    items: &mut [T],
    f: &F,
)
    requires { AcceptsEach F.Fn f.now items.old }
    ensures { ChangesEach F.Fn f.now items.old items.new }
{
    run_from(rt, f, 0, items);
}

/// As `run_each`, but the first item has the index `first`.
#[cycle(runs)]
fn run_from<R: Threads + Sync, T: Send, F: Fn(usize, &mut T) + Sync>(
    rt: &R,
    f: &F,
    first: usize,
    items: &mut [T],
)
    requires room { first + length items.old < 2 ^ 64 }
    requires accepts { EachFrom (AcceptsAt F.Fn f.now) first items.old }
    ensures { EachFromTo (ChangesAt F.Fn f.now) first items.old items.new }
{
    let Some((item, rest)) = items.split_first_mut() else {
        return;
    };
    if rest.is_empty() {
        run_one(f, first, item);
        return;
    }
    run_first(rt, f, first, item, rest);
}

/// Makes the call for one item in a new thread, and meanwhile goes on with the other items.
// A function of its own, so that the closures require what this function requires.
#[cycle(runs)]
fn run_first<R: Threads + Sync, T: Send, F: Fn(usize, &mut T) + Sync>(
    rt: &R,
    f: &F,
    first: usize,
    item: &mut T,
    rest: &mut [T],
)
    requires room { first + 1 + length rest.old < 2 ^ 64 }
    requires item { AcceptsAt F.Fn f.now first item.old }
    requires rest { EachFrom (AcceptsAt F.Fn f.now) (first + 1) rest.old }
    ensures item { ChangesAt F.Fn f.now first item.old item.new }
    ensures rest { EachFromTo (ChangesAt F.Fn f.now) (first + 1) rest.old rest.new }
{
    let mut one = ||
        requires { AcceptsAt F.Fn f.now first item.now }
        ensures { ChangesAt F.Fn f.entry.now first item.entry.now item.exit.now }
    { run_one(f, first, item) };
    let mut others = ||
        requires { IsSync R.row × IsSync F.row × IsSend T.row × (first + 1 + length rest.now < 2 ^ 64)
            × EachFrom (AcceptsAt F.Fn f.now) (first + 1) rest.now }
        ensures { EachFromTo (ChangesAt F.Fn f.entry.now) (first + 1) rest.entry.now rest.exit.now }
    { run_from(rt, f, first + 1, rest) };
    join_mut(rt, &mut one, &mut others);
}

/// Makes the call for one item.
// A function of its own, since a closure that passes a captured `item` on to `f` gets no proof.
fn run_one<T, F: Fn(usize, &mut T)>(f: &F, place: usize, item: &mut T)
    requires { AcceptsAt F.Fn f.now place item.old }
    ensures { ChangesAt F.Fn f.now place item.old item.new }
{
    f(place, item);
}

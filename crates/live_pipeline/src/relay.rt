//! A relay of parts of a trace file, from the thread that reads it to the one that matches: what was
//! taken is a prefix of what was put.
//!
//! [`Relay::open`] returns the relay and its two passes: the owner of the [`PutPass`] may put, and the
//! owner of the [`TakePass`] may take. Contracts see a pass as the list of the parts that were put or
//! taken with it. [`Relay::close`] consumes both, and states that what was taken is a prefix of what was
//! put.
//!
//! The rule of the queue states this at each of its steps (`Relayed` in `specs/inside/RelayRule.antt`), and that the
//! traces that were put are lawful and no more than a file has, so whoever takes them knows it.
ghost use Rattle.std.specs.Prelude.{◌≡◌, ◌≤◌, ◌++◌, List, IfErr, IfOk, IfSome, MatchOption, MatchResult};
ghost use Rattle.live_pipeline.specs.declared.part.Part.{Part as APart};
ghost use Rattle.live_pipeline.specs.Order.{AreBounded, MayFollow, WereWaiting, more, no_parts};

use crate::part::Part;
use crate::rule::{InOrder, Log, Puts, Roles, Takes, Total};
use crossbeam_queue::{Pass, RuledArrayQueue};
use crossbeam_utils::sync::{Parker, Unparker};
use std::alloc::{AllocError, Global};
use std::marker::Model;
use std::sync::Wait;

/// A queue of parts between two threads, with its allocator. Contracts see its name and its capacity.
#[derive(Drop)]
pub struct Relay {
    alloc: Global,
    queue: RuledArrayQueue<Part, Log, InOrder>,
}

impl Model for Relay {
    ghost use Rattle.live_pipeline.specs.Order.{Line};
    ghost use Rattle.crossbeam_queue.specs.Passes.{ruled_capacity};

    ghost Value = { Line };

    ghost view = { λ r. record { name = r.queue.table.shared.table_id; capacity = ruled_capacity r.queue } };
}

/// The right to put parts. Contracts see its relay, and the parts that were put with it.
#[derive(Drop)]
pub struct PutPass {
    pass: Pass<Part, Log>,
    /// Where the thread sleeps while the queue is full.
    room: Parker,
    /// Wakes the thread that waits for a part.
    filled: Unparker,
}

impl Model for PutPass {
    ghost use Rattle.std.specs.Prelude.{◌≡◌, true, false, []};
    ghost use Rattle.live_pipeline.specs.Order.{Parts};
    ghost use Rattle.live_pipeline.specs.inside.RelayRule.{log};
    ghost use Rattle.crossbeam_queue.specs.Passes.{view as seen};

    ghost Value = { Parts };

    ghost view = { λ p. record { relay = p.pass.table_id; parts = (seen p.pass).put } };

    ghost invariant = { λ p. (p.pass.me.1 ≡ []) × (seen p.pass ≡ log true false (seen p.pass).put []) };
}

/// The right to take parts. Contracts see its relay, and the parts that were taken with it.
#[derive(Drop)]
pub struct TakePass {
    pass: Pass<Part, Log>,
    /// Where the thread sleeps while the queue is empty.
    filled: Parker,
    /// Wakes the thread that waits for room.
    room: Unparker,
}

impl Model for TakePass {
    ghost use Rattle.std.specs.Prelude.{◌≡◌, true, false, []};
    ghost use Rattle.live_pipeline.specs.Order.{Parts};
    ghost use Rattle.live_pipeline.specs.inside.RelayRule.{log};
    ghost use Rattle.crossbeam_queue.specs.Passes.{view as seen};

    ghost Value = { Parts };

    ghost view = { λ p. record { relay = p.pass.table_id; parts = (seen p.pass).taken } };

    ghost invariant = { λ p. (p.pass.me.1 ≡ []) × (seen p.pass ≡ log false true [] (seen p.pass).taken) };
}

impl Relay {
    /// A relay with room for this many parts, and its passes.
    pub fn open(alloc: Global, capacity: u32) -> Result<(Relay, PutPass, TakePass), AllocError>
        requires { (1 ≤ capacity) × (capacity ≤ 1024) }
        ensures { IfOk result (λ r. (r.0.capacity ≡ capacity) × (r.1 ≡ no_parts r.0.name) × (r.2 ≡ no_parts r.0.name)) }
    {
        let room = Parker::new(alloc)?;
        let filled = Parker::new(alloc)?;
        let wakes_putter = room.unparker().clone()?;
        let wakes_taker = filled.unparker().clone()?;
        let (queue, mut writer) = RuledArrayQueue::ruled(alloc, capacity as usize)?;
        let reader = queue.another::<Roles>(&mut writer);
        Ok((
            Relay { alloc, queue },
            PutPass {
                pass: writer,
                room,
                filled: wakes_taker,
            },
            TakePass {
                pass: reader,
                filled,
                room: wakes_putter,
            },
        ))
    }

    /// The allocator.
    pub fn alloc(&self) -> Global {
        self.alloc
    }

    /// Puts a part, or returns it: then the queue was full at some moment of the call.
    pub fn try_put<R: Wait>(&self, rt: &R, pass: &mut PutPass, part: Part) -> Result<(), Part>
        requires own { pass.old.relay ≡ self.now.name }
        requires may { MayFollow pass.old.parts part }
        ensures put { MatchResult result (λ _. pass.new ≡ more pass.old part) (λ back. (back ≡ part) × (pass.new ≡ pass.old)) }
        ensures full { IfErr result (λ _. WereWaiting self.now.capacity pass.old.parts) }
    {
        self.queue.push_as::<Puts, R>(rt, &mut pass.pass, part)?;
        pass.filled.unpark();
        Ok(())
    }

    /// Takes the oldest part. On `None`, the queue was empty at some moment of the call; no clause says so.
    pub fn try_take<R: Wait>(&self, rt: &R, pass: &mut TakePass) -> Option<Part>
        requires { pass.old.relay ≡ self.now.name }
        ensures taken { MatchOption result (pass.new ≡ pass.old) (λ part. pass.new ≡ more pass.old part) }
        ensures bounded { IfSome result (λ _. AreBounded pass.new.parts) }
    {
        let part = self.queue.pop_as::<Takes, R>(rt, &mut pass.pass)?;
        pass.room.unpark();
        Some(part)
    }

    /// Puts a part, and sleeps until the queue has room for it.
    pub fn put<R: Wait>(&self, rt: &R, pass: &mut PutPass, part: Part)
        requires own { pass.old.relay ≡ self.now.name }
        requires may { MayFollow pass.old.parts part }
        ensures { pass.new ≡ more pass.old part }
    {
        let mut part = part;
        for _ in rt.forever() {
            match self.try_put(rt, pass, part) {
                Ok(()) => return,
                Err(back) => {
                    part = back;
                    pass.room.park(rt);
                }
            }
        }
        unreachable!()
    }

    /// Takes the oldest part, and sleeps until there is one.
    pub fn take<R: Wait>(&self, rt: &R, pass: &mut TakePass) -> Part
        requires { pass.old.relay ≡ self.now.name }
        ensures part { pass.new ≡ more pass.old result }
        ensures bounded { AreBounded pass.new.parts }
    {
        for _ in rt.forever() {
            if let Some(part) = self.try_take(rt, pass) {
                return part;
            }
            pass.filled.park(rt);
        }
        unreachable!()
    }

    /// Ends the relay: what was taken is a prefix of what was put. Allocates nothing.
    pub fn close(self, put: PutPass, take: TakePass)
        requires { (put.relay ≡ self.name) × (take.relay ≡ self.name) }
        ensures { (rest : List APart) × (put.parts ≡ take.parts ++ rest) }
    {
        let PutPass {
            pass: mut whole,
            ..
        } = put;
        let TakePass { pass: reader, .. } = take;
        self.queue.absorb::<Roles>(&mut whole, reader);
        self.queue.learn_as::<Total>(&mut whole);
    }
}

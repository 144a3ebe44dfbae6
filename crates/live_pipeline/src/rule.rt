//! The rule of the queue, and its steps.
use crate::part::Part;
use crossbeam_queue::protocol::{Join, Lesson, Outcome, Protocol, Split};
use std::collections::LinkedList;

// What a pass may do, and what was put and taken with it. No value of it is made.
pub struct Log {
    pub puts: bool,
    pub takes: bool,
    pub put: LinkedList<Part>,
    pub taken: LinkedList<Part>,
}

pub struct InOrder;

impl Protocol<Part, Log> for InOrder {
    ghost use Rattle.std.specs.Prelude.{true, []};
    ghost use Rattle.live_pipeline.specs.inside.RelayRule.{log, Relayed};

    ghost holds = { Relayed };

    ghost first = { log true true [] [] };
}

pub struct Roles;

impl Split<Log> for Roles {
    ghost use Rattle.std.specs.Prelude.{true, false, []};
    ghost use Rattle.live_pipeline.specs.inside.RelayRule.{log};

    ghost left = { λ v. log true false v.put [] };

    ghost right = { λ v. log false true [] v.taken };
}

impl Join<Log> for Roles {
    ghost use Rattle.std.specs.Prelude.{true, false, []};
    ghost use Rattle.live_pipeline.specs.inside.RelayRule.{log};

    ghost both = { λ v w. log true true v.put w.taken };

    ghost spent = { log false false [] [] };
}

pub struct Puts;

impl Outcome<Part, Log> for Puts {
    ghost use Rattle.std.specs.Prelude.{◌≡◌, ◌++◌, ◌∷◌, []};
    ghost use Rattle.live_pipeline.specs.inside.RelayRule.{log};

    ghost then = { λ v x w. w ≡ log v.puts v.takes (v.put ++ x ∷ []) v.taken };
}

impl Lesson<Part, Log> for Puts {
    ghost use Rattle.std.specs.Prelude.{◌≡◌, ◌++◌, List};
    ghost use Rattle.live_pipeline.specs.declared.part.Part.{Part as APart};

    ghost fact = { λ v items. (taken : List APart) × (v.put ≡ taken ++ items) };
}

pub struct Takes;

impl Outcome<Part, Log> for Takes {
    ghost use Rattle.std.specs.Prelude.{◌≡◌, ◌++◌, ◌∷◌, []};
    ghost use Rattle.live_pipeline.specs.Order.{AreBounded};
    ghost use Rattle.live_pipeline.specs.inside.RelayRule.{log};

    ghost then = { λ v x w. (w ≡ log v.puts v.takes v.put (v.taken ++ x ∷ []))
        × AreBounded (v.taken ++ x ∷ []) };
}

impl Lesson<Part, Log> for Takes {
    ghost fact = { λ _ _. Unit {0} };
}

pub struct Total;

impl Lesson<Part, Log> for Total {
    ghost use Rattle.std.specs.Prelude.{◌≡◌, ◌++◌};

    ghost fact = { λ v items. v.put ≡ v.taken ++ items };
}

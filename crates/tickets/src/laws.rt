//! The law of the rule. The function exists for its clause and does nothing.
ghost use Rattle.tickets.specs.Tickets.{DrawnOnce};

/// By the rule, each number below the counter is in exactly one view, once, and no view has another number.
pub fn each_number_is_drawn_once()
    ensures { DrawnOnce }
{}

//! The generator of a town. Serves `town_traces`; decided by `draw` and `state_after`.
ghost use Rattle.std.specs.Prelude.{◌≡◌, ◌≤◌};
ghost use Rattle.town.specs.Draws.{draw, state_after};

use std::marker::Model;

const FACTOR: u64 = 6_364_136_223_846_793_005;

const SHIFT: u64 = 1_442_695_040_888_963_407;

/// A generator of numbers, always the same from one seed. Allocates nothing. A contract sees the state
/// from which it draws next.
#[derive(Clone, Copy, Debug, PartialEq, Eq)]
pub struct Draw {
    state: u64,
}

impl Model for Draw {
    ghost use Rattle.std.specs.Prelude.{ℕ};

    ghost Value = { ℕ };

    ghost view = { λ d. d.state };

    ghost inverse = { λ state. record { state = state } };
}

impl Draw {
    /// The generator with this seed.
    pub fn new(seed: u64) -> Draw
        ensures { result ≡ seed }
    {
        Draw { state: seed }
    }

    /// The next number, below `m`.
    #[tactic(auto, unfolding(crate::specs::Draws::state_after))]
    pub fn below(&mut self, m: u32) -> u32
        requires { 1 ≤ m }
        ensures value { result ≡ draw 1 self.old m }
        ensures state { self.new ≡ state_after 1 self.old }
    {
        self.state = self.state.wrapping_mul(FACTOR).wrapping_add(SHIFT);
        (self.state >> 33) as u32 % m
    }
}

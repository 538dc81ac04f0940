//! The numbers that sessions are made of.
ghost use Rattle.std.specs.Prelude.{◌≡◌, ◌<◌};
ghost use Rattle.session_maker.specs.Draws.{draw_below, next};

use std::marker::Model;

/// What numbers are drawn by, seen as its state.
#[derive(Drop)]
pub struct Draws {
    state: u32,
}

impl Model for Draws {
    ghost use Rattle.std.specs.Prelude.{ℕ};

    ghost Value = { ℕ };

    ghost view = { λ d. d.state };
}

impl Draws {
    /// The draws of a seed.
    pub fn new(seed: u32) -> Draws
        ensures { result ≡ seed }
    {
        Draws { state: seed }
    }

    /// Draws one of the `count` numbers from 0 on.
    pub fn draw(&mut self, count: u64) -> u64
        requires { 0 < count }
        ensures state { self.new ≡ next self.old }
        ensures drawn { result ≡ draw_below count (next self.old) }
        ensures below { result < count }
    {
        let state = (u64::from(self.state) * 1_103_515_245 + 12_345) % (1 << 31);
        self.state = state as u32;
        state / 65_536 % count
    }
}

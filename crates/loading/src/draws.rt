// Draws: numbers that follow from a state of 32 bits.
ghost use Rattle.std.specs.Prelude.{◌≡◌};
ghost use Rattle.loading.specs.Draws.{state_after, draw};

// The state that the next draw follows from.
#[derive(Drop)]
pub struct Source {
    pub state: u32,
}

impl Source {
    // Draws a number.
    #[tactic(auto, unfolding(crate::specs::Draws::state_after))]
    pub fn draw(&mut self) -> u64
        ensures drawn { result ≡ draw 1 self.old.state }
        ensures stepped { self.new.state ≡ state_after 1 self.old.state }
    {
        self.state = self.state.wrapping_mul(1664525).wrapping_add(1013904223);
        (self.state / 65536) as u64
    }
}

// A linear congruential generator of 32 bits. The step is a function on u32; over the struct that keeps the state stands `draw`.
#![tactic(auto)]

ghost use Rattle.std.specs.Prelude.{◌≡◌};
ghost use Rattle.lcg.specs.Draws.{state_after, draw_of, advanced};

#[derive(Clone, Copy, Debug, PartialEq, Eq)]
pub struct Generator {
    pub state: u32,
}

// The state after one. Cost: a product and a sum, both cut to 32 bits.
#[tactic(auto, unfolding(crate::specs::Draws::state_after))]
pub fn step(state: u32) -> u32
    ensures { result ≡ state_after state }
{
    state.wrapping_mul(1664525).wrapping_add(1013904223)
}

impl Generator {
    // The next draw, 0 to 65,535. The generator goes on to its next state.
    #[tactic(auto, unfolding(crate::specs::Draws::draw_after))]
    pub fn draw(&mut self) -> u32
        ensures { (result ≡ draw_of self.old) × (self.new ≡ advanced self.old) }
    {
        self.state = step(self.state);
        self.state / 65536
    }
}

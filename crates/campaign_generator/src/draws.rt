//! The numbers that are drawn, one after the other.

ghost use Rattle.std.specs.Prelude.{◌≡◌, ◌<◌};
ghost use Rattle.campaign_generator.specs.Draws.{stepped, drawn};

/// The state that the next draw starts from.
#[derive(Drop)]
pub struct Draws {
    pub state: u32,
}

impl Draws {
    /// Draws the next number, below 65,536.
    #[tactic(auto, unfolding(crate::specs::Draws::stepped, crate::specs::Draws::drawn))]
    pub fn draw(&mut self) -> u32
        ensures state { self.new.state ≡ stepped self.old.state }
        ensures value { result ≡ drawn self.old.state }
    {
        self.state = ((1_664_525 * u64::from(self.state) + 1_013_904_223) % (1 << 32)) as u32;
        self.state / 65_536
    }
}

//! Numbers drawn one after the other.

ghost use Rattle.std.specs.Prelude.{◌≡◌, ◌<◌, ◌%◌, ◌^◌};
ghost use Rattle.tl_demo.specs.Demo.{drawn_number, next_state};

/// A linear congruential generator. Its state is below 2^31.
#[derive(Drop)]
pub(crate) struct Draws {
    state: u32,
}

impl Draws {
    /// A generator that begins with a number, without its highest bit.
    pub(crate) fn new(number: u32) -> Draws
        ensures { result.state ≡ number % 2 ^ 31 }
    {
        Draws {
            state: number % (1 << 31),
        }
    }

    /// Draws a number below `below`.
    #[tactic(auto, unfolding(crate::specs::Demo::drawn_number, crate::specs::Demo::next_state))]
    pub(crate) fn draw(&mut self, below: u32) -> u32
        requires { 0 < below }
        ensures value { result ≡ drawn_number below self.old.state }
        ensures range { result < below }
        ensures state { self.new.state ≡ next_state self.old.state }
    {
        let product = u64::from(self.state) * 1_103_515_245;
        self.state = ((product + 12_345) % (1 << 31)) as u32;
        (self.state / 65_536) % below
    }
}

ghost use Rattle.std.specs.Prelude.{◌≡◌, ◌<◌, ◌≤◌, ◌^◌};
ghost use Rattle.sample_maker.specs.Draws.{next, below};

/// Numbers that follow from a seed.
#[derive(Clone, Copy, Debug)]
pub struct Draws {
    pub state: u32,
}

impl Draws {
    /// The next number below a bound.
    #[tactic(auto, unfolding(crate::specs::Draws::next, crate::specs::Draws::below))]
    pub fn below(&mut self, bound: u16) -> u16
        requires { 0 < bound }
        ensures number { result ≡ below bound (next self.old.state) }
        ensures state { self.new.state ≡ next self.old.state }
        ensures within { result < bound }
    {
        let next = (1_664_525 * u64::from(self.state) + 1_013_904_223) % 4_294_967_296;
        self.state = next as u32;
        (self.state / 65536 % u32::from(bound)) as u16
    }
}

//! Picks of a test, which follow from a seed.
ghost use Rattle.std.specs.Prelude.{◌≡◌, ◌<◌};

/// Numbers that look like chance, the same ones for the same seed.
#[derive(Clone, Copy, Debug)]
pub struct Picks {
    state: u64,
}

impl Picks {
    /// The picks of a seed.
    pub fn new(seed: u64) -> Picks {
        Picks { state: seed }
    }

    /// The next number, from 0 to `count` - 1.
    pub fn below(&mut self, count: usize) -> usize
        requires { 0 < count }
        ensures { result < count }
    {
        let state = self
            .state
            .wrapping_mul(6_364_136_223_846_793_005)
            .wrapping_add(1_442_695_040_888_963_407);
        self.state = state;
        (state >> 33) as usize % count
    }
}

//! Numbers by chance.

/// Numbers that follow from a seed, one from another.
#[derive(Clone, Copy)]
pub struct Chance {
    state: u64,
}

impl Chance {
    /// The numbers of a seed.
    pub fn new(seed: u64) -> Chance {
        Chance { state: seed }
    }

    /// A number below a bound; 0 where that is 0.
    pub fn below(&mut self, bound: u64) -> u64 {
        self.state = self
            .state
            .wrapping_mul(6_364_136_223_846_793_005)
            .wrapping_add(1_442_695_040_888_963_407);
        (self.state / 4_294_967_296).checked_rem(bound).unwrap_or(0)
    }

    /// A number below a bound, as a smaller type; 0 where the bound is 0.
    pub fn small(&mut self, bound: u32) -> u32 {
        u32::try_from(self.below(u64::from(bound))).unwrap_or(0)
    }

    /// Whether something happens that happens once in so many times.
    pub fn is_once_in(&mut self, times: u64) -> bool {
        self.below(times) == 0
    }

    /// One of some items; none where there are none.
    pub fn pick<'a, T>(&mut self, items: &'a [T]) -> Option<&'a T> {
        let index = self.below(items.len() as u64);
        items.get(index as usize)
    }
}

// Numbers that look random. The same seed gives the same numbers, on every machine.
ghost use Rattle.std.specs.Prelude.{◌<◌, length};

const FACTOR: u64 = 6_364_136_223_846_793_005;

const SUMMAND: u64 = 1_442_695_040_888_963_407;

#[derive(Clone, Copy, Debug, PartialEq, Eq)]
pub(crate) struct Random(u64);

impl Random {
    pub(crate) fn seeded(seed: u64) -> Random {
        Random(seed)
    }

    // Any number of 32 bits.
    pub(crate) fn number(&mut self) -> u32 {
        self.0 = self.0.wrapping_mul(FACTOR).wrapping_add(SUMMAND);
        (self.0 >> 32) as u32
    }

    // A number below a limit.
    pub(crate) fn below(&mut self, limit: u32) -> u32
        requires { 0 < limit }
        ensures { result < limit }
    {
        self.number() % limit
    }

    // Yes, once in so many times.
    pub(crate) fn once_in(&mut self, times: u32) -> bool
        requires { 0 < times }
    {
        self.below(times) == 0
    }

    // Any byte.
    pub(crate) fn byte(&mut self) -> u8 {
        self.below(256) as u8
    }

    // One of these.
    pub(crate) fn one_of<T: Copy>(&mut self, choices: &[T]) -> T
        requires { 0 < length choices.now }
    {
        choices[self.number() as usize % choices.len()]
    }
}

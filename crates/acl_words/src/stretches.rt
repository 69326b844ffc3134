ghost use Rattle.std.specs.Prelude.{◌<◌, ◌≤◌, ◌+◌};

/// Lines that follow one another in one file: so many, from the first on. There is at least one.
#[derive(Clone, Copy, PartialEq, Eq)]
pub struct Stretch {
    pub file: u32,
    pub first: u32,
    pub count: u32,
    pub ghost some: { 0 < count },
    pub ghost numbered: { first + count ≤ 4294967296 },
}

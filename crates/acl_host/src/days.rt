ghost use Rattle.std.specs.Prelude.{ℤ, pos, negsuc, ◌≤ℤ◌};

/// A day of the years 0001 to 9999 of the proleptic Gregorian calendar.
#[derive(Clone, Copy, PartialEq, Eq)]
pub struct Day {
    /// Days since 1970-01-01.
    pub number: i32,
    // 0001-01-01 is 719,162 days before it, 9999-12-31 is 2,932,896 days after it
    pub ghost from_year_1: { negsuc 719161 ≤ℤ number },
    pub ghost to_year_9999: { number ≤ℤ pos 2932896 },
}

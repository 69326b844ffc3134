ghost use Rattle.std.specs.Prelude.{◌≡◌, ℕ, List};
ghost use Rattle.acl_run.specs.Lines.{outside_line};

use crate::endings::Which;

/// A program, and the lines that it writes on standard error about itself.
pub trait Program {
    ghost name: { List ℕ };

    ghost usage: { List ℕ };

    /// The line that says how the program is called.
    fn usage_line() -> &'static str
        ensures { result.now ≡ usage };

    /// The line that says what failed outside the program. There is none for standard error itself.
    fn outside_line(which: Which) -> &'static str
        ensures { result.now ≡ outside_line name which };
}

ghost use Rattle.std.specs.Prelude.{◌≡◌};
ghost use Rattle.acl_run.specs.Lines.{outside_line};
ghost use Rattle.aclgen_core.specs.FaultLines.{program_name, usage_line};

use acl_run::Which;

/// The line that says how the program is called.
pub fn usage_line() -> &'static str
    ensures { result.now ≡ usage_line }
{
    "usage: aclgen --policy_file P --definitions_directory D --output_directory O [--date YYYY-MM-DD] [--exp_info N] [--shade_check]\n"
}

/// The line that says what failed outside the program.
pub fn outside_line(which: Which) -> &'static str
    ensures { result.now ≡ outside_line program_name which }
{
    acl_run::outside_line!("aclgen", which)
}

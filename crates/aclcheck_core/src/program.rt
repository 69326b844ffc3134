use acl_run::{Program, Which};

/// The program aclcheck.
pub struct AclCheck;

impl Program for AclCheck {
    ghost use Rattle.aclcheck_core.specs.FaultLines.{program_name, usage_line};

    ghost name = { program_name };

    ghost usage = { usage_line };

    fn usage_line() -> &'static str {
        "usage: aclcheck COMMAND OPTIONS\n"
    }

    fn outside_line(which: Which) -> &'static str {
        acl_run::outside_line!("aclcheck", which)
    }
}

use acl_run::{Program, Which};

/// The program acltool.
pub struct AclTool;

impl Program for AclTool {
    ghost use Rattle.acltool_core.specs.ToolLines.{program_name, usage_line};

    ghost name = { program_name };

    ghost usage = { usage_line };

    fn usage_line() -> &'static str {
        "usage: acltool COMMAND OPTIONS\n"
    }

    fn outside_line(which: Which) -> &'static str {
        acl_run::outside_line!("acltool", which)
    }
}

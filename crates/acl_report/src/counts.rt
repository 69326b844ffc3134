ghost use Rattle.std.specs.Prelude.{◌≡◌, ◌++◌, true, OnOk};
ghost use Rattle.acl_report.specs.Reports.{count_line};

use acl_target::{Target, put_target};
use acl_text::{Memory, Out, PutFault, Whole, put_number};

#[tactic(auto, unfolding(crate::specs::Reports::count_line))]
fn put_count_line(
    report: &mut Whole,
    path: &[u8],
    target: &Target,
    entries: u64,
) -> Result<(), PutFault>
    requires { report.old.is_open ≡ true }
    ensures text { OnOk result (report.new.bytes
        ≡ report.old.bytes ++ count_line path.now target.now entries) }
    ensures opened { OnOk result (report.new.is_open ≡ true) }
{
    report.put(path)?;
    report.put(b": ")?;
    put_target(report, target)?;
    report.put(b": entries ")?;
    put_number(report, u128::from(entries))?;
    report.put(b"\n")
}

/// Puts the line on a filter: the path of its file, its target and the number of its entries. It fails only where memory
/// is wanted.
pub fn put_count(
    report: &mut Whole,
    path: &[u8],
    target: &Target,
    entries: u64,
) -> Result<(), Memory>
    requires { report.old.is_open ≡ true }
    ensures text { OnOk result (report.new.bytes
        ≡ report.old.bytes ++ count_line path.now target.now entries) }
    ensures opened { OnOk result (report.new.is_open ≡ true) }
{
    match put_count_line(report, path, target, entries) {
        Ok(()) => Ok(()),
        Err(_) => Err(Memory),
    }
}

ghost use Rattle.std.specs.Prelude.{◌≡◌, ◌≤◌, length};
ghost use Rattle.std.specs.List.{list_any, count_by};
ghost use Rattle.acl_target.specs.Clashes.{clash, same_kind};

use acl_target::{Kind, Target, clash};

/// Whether the target clashes with one of the earlier ones.
pub(crate) fn clashes(earlier: &[Target], target: &Target) -> bool
    ensures { result ≡ list_any (λ e. clash e target.now) earlier.now }
{
    earlier.iter().any(|e| clash(e, target))
}

/// How many of the targets are of the platform.
pub(crate) fn count_of(earlier: &[Target], kind: Kind) -> usize
    ensures count { result ≡ count_by (λ e. same_kind e.kind kind) earlier.now }
    ensures bound { result ≤ length earlier.now }
{
    earlier.iter().filter(|e| e.kind == kind).count()
}

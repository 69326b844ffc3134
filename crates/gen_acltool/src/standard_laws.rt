ghost use Rattle.gen_acltool.specs.ListNumbers.{ListsDiffer};

/// A law: no two lists of filters have the same number, where their targets have different ones, as those
/// of a policy do.
pub fn targets_of_a_policy_have_different_lists()
    ensures { ListsDiffer }
{}

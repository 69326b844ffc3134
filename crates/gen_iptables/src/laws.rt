ghost use Rattle.gen_iptables.specs.EntryRows.{CountIsOfAppends};
ghost use Rattle.gen_iptables.specs.Groups.{OneListOfGroups};
ghost use Rattle.gen_iptables.specs.SectionNames.{FirstLine, SectionsDiffer};

/// A law: a section's first line is `## ` and the text of its target.
pub fn a_section_begins_with_its_target()
    ensures { FirstLine }
{}

/// A law: no two sections of filters whose targets do not clash have the same hook and family.
pub fn targets_without_clash_have_different_sections()
    ensures { SectionsDiffer }
{}

/// A law: the number of entries of a filter is that of the rows of its section which begin with `-A`.
#[tactic(auto, using(crate::proofs::AppendRows::count_is_of_appends))]
pub fn entries_are_rows_that_append()
    ensures { CountIsOfAppends }
{}

/// A law: the ports of a rule have one list of groups, each as long as one match takes.
#[tactic(auto, using(crate::proofs::GroupEnds::one_list_of_groups))]
pub fn ports_have_one_list_of_groups()
    ensures { OneListOfGroups }
{}

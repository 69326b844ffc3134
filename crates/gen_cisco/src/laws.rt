ghost use Rattle.gen_cisco.specs.SectionNames.{FirstLine, ListsDiffer};

/// A law: a section's first line is `! ` and the text of its target.
pub fn a_section_begins_with_its_target()
    ensures { FirstLine }
{}

/// A law: no two lists of filters whose targets do not clash have the same name.
pub fn targets_without_clash_have_different_lists()
    ensures { ListsDiffer }
{}

ghost use Rattle.gen_junos.specs.SectionNames.{FirstLine, NamesDiffer};

/// A law: a section's first line is a comment with the text of its target.
pub fn a_section_begins_with_its_target()
    ensures { FirstLine }
{}

/// A law: no two sections of filters whose targets do not clash have the same name.
pub fn targets_without_clash_have_different_sections()
    ensures { NamesDiffer }
{}

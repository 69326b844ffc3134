ghost use Rattle.gen_nftables.specs.TableNames.{FirstLine, TablesDiffer};

/// A law: a section's first line is `## ` and the text of its target.
pub fn a_section_begins_with_its_target()
    ensures { FirstLine }
{}

/// A law: no two tables of filters whose targets differ in number have the same name.
pub fn targets_of_different_numbers_have_different_tables()
    ensures { TablesDiffer }
{}

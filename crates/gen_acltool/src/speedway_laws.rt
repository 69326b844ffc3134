ghost use Rattle.gen_acltool.specs.FirstLines.{FirstLine};

/// A law: a section's first line is `## ` and the text of its target.
#[tactic(auto, using(crate::proofs::FirstRows::first_line))]
pub fn a_section_begins_with_its_target()
    ensures { FirstLine }
{}

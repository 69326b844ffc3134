ghost use Rattle.policy_grammar.specs.FittingPolicies.{JustFittingPoliciesAreMeant};
ghost use Rattle.policy_grammar.specs.PrintedWords.{PrintedWordsAreRead, PrintedTextsAreRead};
ghost use Rattle.policy_grammar.specs.ReadingLaws.{
  JustTargetLinesAreRead,
  TextsAreRead,
  WordsMeanOnePolicy,
  JustTextsAreRead,
  JustTextsAreReadOfWords,
  SlipsStay,
  OtherSlipsStay,
};
ghost use Rattle.policy_grammar.specs.WrittenTexts.{WritableTextsHaveLines, FittingPoliciesAreReadFromLines};

/// A law: target lines that stand are read as what they mean, whatever the order of their words, and nothing else is.
pub fn just_target_lines_are_read()
    ensures { JustTargetLinesAreRead }
{}

/// A law: each text that stands is read as what it means, whatever the order of its items, and wherever its words stand.
#[tactic(auto, using(crate::proofs::BlockLaws::text_read, crate::proofs::ReadingLaws::one_policy))]
pub fn texts_are_read()
    ensures read { TextsAreRead }
    ensures one_policy { WordsMeanOnePolicy }
{}

/// A law: what is read is just what the texts mean that have the words that were read.
pub fn just_texts_are_read()
    ensures lines { JustTextsAreRead }
    ensures words { JustTextsAreReadOfWords }
{}

/// A law: a slip at a word stays where a keyword or a brace follows, or nothing, and one that more values cannot mend
/// stays whatever follows.
#[tactic(auto, using(crate::proofs::SlipLaws::slips_stay, crate::proofs::SlipLaws::other_slips_stay))]
pub fn slips_stay()
    ensures any { SlipsStay }
    ensures others { OtherSlipsStay }
{}

/// A law: words that are printed with white space between them are read as these words.
#[tactic(auto, using(crate::proofs::PrintingLaws::printed_read, crate::proofs::PrintingLaws::printed_texts_read))]
pub fn printed_words_are_read()
    ensures words { PrintedWordsAreRead }
    ensures texts { PrintedTextsAreRead }
{}

/// A law: the policies that texts mean are just those that fit.
pub fn just_fitting_policies_are_meant()
    ensures { JustFittingPoliciesAreMeant }
{}

/// A law: a text that stands has lines, but for a string with a quote in it, and each policy that fits is read from some
/// lines, but for a comment with a quote in it.
#[tactic(auto, using(crate::proofs::WrittenTexts::texts_have_lines, crate::proofs::WrittenTexts::fitting_read_from_lines))]
pub fn texts_have_lines()
    ensures texts { WritableTextsHaveLines }
    ensures policies { FittingPoliciesAreReadFromLines }
{}

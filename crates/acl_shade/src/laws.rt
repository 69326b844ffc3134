ghost use Rattle.acl_shade.specs.ComputableShading.{ShadingIsComputed};
ghost use Rattle.acl_shade.specs.Deletions.{AnyShadedTermsCanGo, ShadedTermsCanGo, ShadingTermStays, ToldTermsGo};

/// A law: the function that says whether a term shades another says what the relation says.
pub fn shading_is_computed()
    ensures { ShadingIsComputed }
{}

/// A law: a block without any of its shaded terms, one, some or all, decides each packet on each of its targets as the
/// block does.
pub fn shaded_terms_can_go()
    ensures any { AnyShadedTermsCanGo }
    ensures all { ShadedTermsCanGo }
{}

/// A law: the terms for which a shading term is told are those that are taken out where all shaded ones go.
#[tactic(auto, using(crate::proofs::ChosenTerms::told_go))]
pub fn told_terms_go()
    ensures { ToldTermsGo }
{}

/// A law: where each term passes a test that shades one which does, some term of a block passes the test exactly where
/// one that stays does.
pub fn shading_terms_stay()
    ensures { ShadingTermStays }
{}

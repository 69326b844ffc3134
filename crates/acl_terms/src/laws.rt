ghost use Rattle.acl_terms.specs.ComputableTerms.{TermsAreOne, TermsAreThere};
ghost use Rattle.acl_terms.specs.Outcomes.{EmptyTermsMatchNone, PoliciesDecideAsWritten, TermsLiveAsWritten, TermsMatchAsWritten};

/// A law: a resolved term matches a packet exactly where the term as it is written does.
pub fn terms_match_as_written()
    ensures { TermsMatchAsWritten }
{}

/// A law: a resolved term is live exactly where the term as it is written is.
pub fn terms_live_as_written()
    ensures { TermsLiveAsWritten }
{}

/// A law: a term that is empty in a family matches no packet of it.
#[tactic(auto, using(crate::proofs::PairLaws::empty_matches_none))]
pub fn empty_terms_match_none()
    ensures { EmptyTermsMatchNone }
{}

/// A law: the resolved terms of a block decide a packet as the terms as they are written do.
pub fn policies_decide_as_written()
    ensures { PoliciesDecideAsWritten }
{}

/// A law: a term as it is written is resolved in one way.
pub fn terms_are_one()
    ensures { TermsAreOne }
{}

/// A law: a term as it is written that has no slip is resolved in some way, where names that reach ports of a
/// protocol reach some port.
pub fn terms_are_there()
    ensures { TermsAreThere }
{}

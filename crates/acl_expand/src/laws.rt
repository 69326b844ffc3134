ghost use Rattle.acl_expand.specs.Expansions.{FiltersDecideAsWritten};
ghost use Rattle.acl_expand.specs.KnownRules.{AlikeHaveTheSameRules};

/// A law: the filter of resolved terms decides as the block's terms as they are written, as far as its platform
/// can show it.
pub fn filters_decide_as_written()
    ensures { FiltersDecideAsWritten }
{}

/// A law: on targets with the same families, where each term is live on both or on neither, has the same verdict on both,
/// and both know connections or do not, if its option asks for that, terms have the same rules, and the same first slip.
pub fn alike_targets_have_the_same_rules()
    ensures { AlikeHaveTheSameRules }
{}

use crate::blocks::Blocks;
use crate::named_terms::NamedTerms;
use crate::open_terms::OpenTerm;
use acl_target::Targets;

/// Where in the structure of a policy the reading stands.
#[derive(Clone, Copy, PartialEq, Eq)]
pub(crate) enum Part {
    /// Before the first header.
    Start,
    /// Behind `header`.
    Header,
    InHeader,
    /// Behind the `}` of a header.
    HeaderEnd,
    /// Behind `term`.
    Term,
    /// Behind a term's name.
    Named,
    InTerm,
    /// Behind the `}` of a term.
    TermEnd,
}

/// What was read of a policy so far.
#[derive(Drop)]
pub(crate) struct PolicyState {
    /// The blocks that have ended.
    pub(crate) blocks: Blocks,
    /// All targets of the policy.
    pub(crate) earlier: Targets,
    /// The targets and the terms of the block.
    pub(crate) targets: Targets,
    pub(crate) terms: NamedTerms,
    /// How many terms of the policy have begun.
    pub(crate) term_count: usize,
    pub(crate) part: Part,
    /// The term whose braces are open.
    pub(crate) draft: OpenTerm,
}

use crate::raw_terms::RawTerms;
use acl_target::Targets;
use acl_text::Items;

/// A header's targets and the terms behind it.
#[derive(Drop)]
pub struct Block {
    pub targets: Targets,
    pub terms: RawTerms,
}

/// A list of blocks.
pub type Blocks = Items<Block>;

/// A policy: its blocks in order.
#[derive(Drop)]
pub struct Policy {
    pub blocks: Blocks,
}

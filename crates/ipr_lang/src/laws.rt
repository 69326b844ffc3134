ghost use Rattle.ipr_lang.specs.Texts.{BothTexts, OneDocument};

use crate::restore::Restore;
use acl_rows::a_text_has_one_document as has_one_document;

/// A law: a text has at most one document.
pub fn a_text_has_one_document()
    ensures { OneDocument }
{
    has_one_document::<Restore>();
}

/// A law: a document that is written for iptables-restore has a text there, and a text of iptables
/// arguments, and both spell it.
#[tactic(auto, using(crate::proofs::BothTexts::both_texts))]
pub fn a_document_has_a_text_in_both_languages()
    ensures { BothTexts }
{}

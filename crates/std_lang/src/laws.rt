ghost use Rattle.std_lang.specs.Texts.{OneDocument};

use crate::standard::Standard;
use acl_rows::a_text_has_one_document as has_one_document;

/// A law: a text has at most one document.
pub fn a_text_has_one_document()
    ensures { OneDocument }
{
    has_one_document::<Standard>();
}

ghost use Rattle.std.specs.Prelude.{◌≡◌, ◌+◌, ◌<◌, ◌++◌, [], ℕ, List, false, flat_map, length};
ghost use Rattle.acl_packet.specs.declared.packets.Packet.{Packet};
ghost use Rattle.acl_rows.specs.Documents.{SpellsRows, outcome_at};
ghost use Rattle.acl_text.specs.Names.{in_common};

use crate::languages::Language;

/// A text has at most one document.
pub fn a_text_has_one_document<L: Language>()
    ensures { (bytes : List ℕ) (a b : List L.Section) → SpellsRows L.is_section L.names L.rows bytes a
        → SpellsRows L.is_section L.names L.rows bytes b → a ≡ b }
{
    L::a_document_is_read_again();
}

/// A document has at most one text.
pub fn a_document_has_one_text<L: Language>()
    ensures { (bytes other : List ℕ) (doc : List L.Section)
        → SpellsRows L.is_section L.names L.rows bytes doc
        → SpellsRows L.is_section L.names L.rows other doc → bytes ≡ other }
{}

/// The empty text spells the document without sections.
pub fn the_empty_text_has_no_section<L: Language>()
    ensures { SpellsRows L.is_section L.names L.rows [] [] }
{}

/// Two texts whose documents have no name in common spell, joined, the joined document.
pub fn joined_texts_spell_joined_documents<L: Language>()
    ensures { (bytes more : List ℕ) (a b : List L.Section)
        → SpellsRows L.is_section L.names L.rows bytes a
        → SpellsRows L.is_section L.names L.rows more b
        → in_common (flat_map L.names a) (flat_map L.names b) ≡ false
        → SpellsRows L.is_section L.names L.rows (bytes ++ more) (a ++ b) }
{}

/// A section of two joined documents does what it does in its own.
pub fn joined_documents_keep_outcomes<L: Language>()
    ensures first { (a b : List L.Section) (which : ℕ) (p : Packet) → which < length a
        → outcome_at L.outcome (a ++ b) which p ≡ outcome_at L.outcome a which p }
    ensures second { (a b : List L.Section) (which : ℕ) (p : Packet)
        → outcome_at L.outcome (a ++ b) (length a + which) p ≡ outcome_at L.outcome b which p }
{}

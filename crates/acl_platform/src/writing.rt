ghost use Rattle.std.specs.Prelude.{◌≡◌, ℕ, List, IsTrue, IfSome, map, flat_map, slice_get};
ghost use Rattle.std.specs.List.{All, IsDistinct};
ghost use Rattle.std.specs.Str.{bytes_eq};
ghost use Rattle.acl_text.specs.Puts.{Puts};
ghost use Rattle.acl_rows.specs.Documents.{SpellsRows, outcome_at};
ghost use Rattle.acl_rows.specs.Rows.{text_of_rows};
ghost use Rattle.acl_platform.specs.Limits.{filter_limit};
ghost use Rattle.acl_platform.specs.Platforms.{DecidesAs, IsAccepted};

use crate::filters::Filter;
use crate::platforms::Platform;
use acl_text::{Out, PutFault};
use std::alloc::Global;

/// Puts the text of the one document whose sections are those of the filters, in order.
///
/// The section at a place decides the packets of its filter's families as that filter does.
pub fn write_all<P: Platform, O: Out>(
    alloc: Global,
    platform: &P,
    filters: &[Filter],
    out: &mut O,
) -> Result<(), PutFault>
    requires open { IsTrue (O.is_open out.old) }
    requires accepted { All
        (IsAccepted (P.handles platform.now) (λ f. filter_limit P.limit (P.count f) f)) filters.now }
    requires names_differ { IsDistinct bytes_eq
        (flat_map P.Language.names (map (P.section platform.now) filters.now)) }
    ensures puts { Puts O.Out out.old out.new
        (text_of_rows (flat_map P.Language.rows (map (P.section platform.now) filters.now))) result }
    ensures spelled { SpellsRows P.Language.is_section P.Language.names P.Language.rows
        (text_of_rows (flat_map P.Language.rows (map (P.section platform.now) filters.now)))
        (map (P.section platform.now) filters.now) }
    ensures decides { (k : ℕ) → IfSome (slice_get filters.now k)
        (λ f. DecidesAs f (outcome_at P.Language.outcome (map (P.section platform.now) filters.now) k)) }
{
    P::a_section_is_spelled();
    P::a_section_decides();
    platform.put_sections(alloc, filters, out)
}

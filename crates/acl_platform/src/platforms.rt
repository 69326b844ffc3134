ghost use Rattle.std.specs.Prelude.{◌≡◌, ℕ, List, [], ◌∷◌, Bool, true, IsTrue, flat_map, map, min};
ghost use Rattle.std.specs.List.{All};
ghost use Rattle.acl_text.specs.Output.{COUNT_END};
ghost use Rattle.acl_text.specs.Puts.{Puts};
ghost use Rattle.acl_rows.specs.Documents.{SpellsRows};
ghost use Rattle.acl_rows.specs.Rows.{text_of_rows};
ghost use Rattle.acl_platform.specs.declared.filters.Filter.{Filter};
ghost use Rattle.acl_platform.specs.Combinations.{IsSized};
ghost use Rattle.acl_platform.specs.Limits.{filter_limit};
ghost use Rattle.acl_platform.specs.Platforms.{DecidesAs, IsAccepted, judged};
ghost use Rattle.acl_platform.specs.SoundFilters.{IsSound};

use crate::filters::{Filter, Limit};
use crate::limits::{RuleLimits, count_in_limit, first_limit};
use acl_rows::Language;
use acl_text::{Out, PutFault};
use std::alloc::Global;

/// A platform: a language of documents, and the section of it that a filter becomes.
///
/// For the filters that the platform `handles`, `section` is what a document of its language has for
/// the filter, and `count` the number of its entries. A value of the platform may say what its documents
/// have besides, as where their lists are numbered from. Why a rule is not taken, `RuleLimits` says.
pub trait Platform: RuleLimits {
    type Language: Language;

    ghost handles: { Self → Filter → Bool };

    ghost section: { Self → Filter → Self.Language.Section };

    ghost count: { Filter → ℕ };

    /// The number of entries of the filter's section; a number that does not fit stands at the
    /// greatest one that does. Protocols and types of its rules have to be numbers below 256, ports
    /// below 65,536.
    fn entry_count(&self, filter: &Filter) -> u64
        requires { All IsSized filter.now.rules }
        ensures { result ≡ min (count filter.now) COUNT_END };

    /// Puts the text of the section of a sound filter that the platform handles, in an output that has
    /// to be open.
    fn put_section<O: Out>(&self, filter: &Filter, out: &mut O) -> Result<(), PutFault>
        requires open { IsTrue (O.is_open out.old) }
        requires handled { handles self.now filter.now ≡ true }
        requires sound { IsSound filter.now }
        ensures { Puts O.Out out.old out.new
            (text_of_rows (flat_map Self.Language.rows (section self.now filter.now ∷ []))) result };

    /// Puts the text of the sections of filters, in order: sound ones that the platform handles, in an
    /// output that has to be open.
    fn put_sections<O: Out>(
        &self,
        alloc: Global,
        filters: &[Filter],
        out: &mut O,
    ) -> Result<(), PutFault>
        requires open { IsTrue (O.is_open out.old) }
        requires handled { All (λ f. handles self.now f ≡ true) filters.now }
        requires sound { All IsSound filters.now }
        ensures { Puts O.Out out.old out.new
            (text_of_rows (flat_map Self.Language.rows (map (section self.now) filters.now))) result }
    {
        for filter in filters {
            self.put_section(filter, out)?;
        }
        Ok(())
    }

    /// A law: the text of the section of a filter that is taken spells the document of that section.
    fn a_section_is_spelled()
        ensures { (platform : Self) (f : Filter)
            → IsAccepted (handles platform) (λ g. filter_limit Self.limit (count g) g) f
            → SpellsRows Self.Language.is_section Self.Language.names Self.Language.rows
            (text_of_rows (flat_map Self.Language.rows (section platform f ∷ [])))
            (section platform f ∷ []) };

    /// A law: the section of a filter that is taken decides packets as the filter does.
    fn a_section_decides()
        ensures { (platform : Self) (f : Filter)
            → IsAccepted (handles platform) (λ g. filter_limit Self.limit (count g) g) f
            → DecidesAs f (Self.Language.outcome (section platform f)) };
}

/// The number of entries of the filter's section, or the first limit that the filter meets. The filter
/// has to be sound, and one that the platform handles.
#[tactic(auto, using(crate::proofs::SoundRules::all_sized))]
pub fn count_within_limits<P: Platform>(platform: &P, filter: &Filter) -> Result<u64, Limit>
    requires handled { P.handles platform.now filter.now ≡ true }
    requires sound { IsSound filter.now }
    ensures { result ≡ judged (filter_limit P.limit (P.count filter.now) filter.now)
        (P.count filter.now) }
{
    match first_limit(platform, filter.rules.as_slice()) {
        Some(limit) => Err(limit),
        None => count_in_limit(platform.entry_count(filter)),
    }
}

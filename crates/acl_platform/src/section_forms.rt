ghost use Rattle.std.specs.Prelude.{◌≡◌, [], ◌∷◌, IsTrue, flat_map, map};
ghost use Rattle.std.specs.List.{All};
ghost use Rattle.acl_packet.specs.declared.addresses.Family.{Family};
ghost use Rattle.acl_packet.specs.declared.addresses.Family.TheVariants.{V4, V6};
ghost use Rattle.acl_text.specs.Puts.{Puts};
ghost use Rattle.acl_rows.specs.Rows.{text_of_rows};
ghost use Rattle.acl_platform.specs.declared.filters.Filter.{Filter};
ghost use Rattle.acl_platform.specs.Combinations.{IsSized};
ghost use Rattle.acl_platform.specs.SoundFilters.{IsSound};

use crate::family_texts::FamilyTexts;
use crate::filters::Filter;
use crate::rule_rows::RuleForm;
use crate::rules::Rule;
use acl_packet::Family;
use acl_rows::Language;
use acl_text::{Out, PutFault};
use std::alloc::Global;

/// A form of rules for each family, and the section of a filter, whose text is put over that of its
/// rules. What writes the rules of a filter one behind the other has such a form, and the text of
/// rules which several filters in a row have is made once.
pub trait SectionForm: RuleForm + Drop {
    type Language: Language;

    ghost family_of: { Self → Family };

    ghost section: { Filter → Self.Language.Section };

    /// The form of the rules of the family.
    fn of_family(family: Family) -> Self
        ensures { family_of result ≡ family };

    /// Puts the text of the section that the filter becomes, over the texts of its rules.
    fn put_over<O: Out>(
        texts: &FamilyTexts<'_, Self>,
        filter: &Filter,
        out: &mut O,
    ) -> Result<(), PutFault>
        requires open { IsTrue (O.is_open out.old) }
        requires v4 { family_of texts.now.v4.form ≡ V4 }
        requires v6 { family_of texts.now.v6.form ≡ V6 }
        requires rules { texts.now.v4.rules.now ≡ filter.now.rules }
        ensures { Puts O.Out out.old out.new
            (text_of_rows (flat_map Self.Language.rows (section filter.now ∷ []))) result };
}

/// Puts the text of the section that a sound filter becomes, in an output that has to be open.
#[tactic(auto, using(crate::proofs::SoundRules::all_sized))]
pub fn put_section_by<F: SectionForm, O: Out>(filter: &Filter, out: &mut O) -> Result<(), PutFault>
    requires open { IsTrue (O.is_open out.old) }
    requires sound { IsSound filter.now }
    ensures { Puts O.Out out.old out.new
        (text_of_rows (flat_map F.Language.rows (F.section filter.now ∷ []))) result }
{
    F::put_over(&texts_of::<F>(filter.rules.as_slice()), filter, out)
}

/// Puts the text of the sections that sound filters become, in order, in an output that has to be
/// open. That of rules which several filters in a row have is made once.
pub fn put_sections_by<F: SectionForm, O: Out>(
    alloc: Global,
    filters: &[Filter],
    out: &mut O,
) -> Result<(), PutFault>
    requires open { IsTrue (O.is_open out.old) }
    requires sound { All IsSound filters.now }
    ensures { Puts O.Out out.old out.new
        (text_of_rows (flat_map F.Language.rows (map F.section filters.now))) result }
{
    put_in_turn(alloc, filters, &mut texts_of::<F>(&[]), out)
}

// Puts the text of the section of each filter, over the texts turned to its rules.
fn put_in_turn<'a, F: SectionForm, O: Out>(
    alloc: Global,
    filters: &'a [Filter],
    texts: &mut FamilyTexts<'a, F>,
    out: &mut O,
) -> Result<(), PutFault>
    requires open { IsTrue (O.is_open out.old) }
    requires sound { All IsSound filters.now }
    requires v4 { F.family_of texts.old.v4.form ≡ V4 }
    requires v6 { F.family_of texts.old.v6.form ≡ V6 }
    ensures { Puts O.Out out.old out.new
        (text_of_rows (flat_map F.Language.rows (map F.section filters.now))) result }
{
    for filter in filters {
        texts.turn_to(alloc, filter.families, filter.rules.as_slice());
        F::put_over(texts, filter, out)?;
    }
    Ok(())
}

fn texts_of<F: SectionForm>(rules: &[Rule]) -> FamilyTexts<'_, F>
    requires { All IsSized rules.now }
    ensures v4 { F.family_of result.v4.form ≡ V4 }
    ensures v6 { F.family_of result.v6.form ≡ V6 }
    ensures rules { result.v4.rules.now ≡ rules.now }
{
    FamilyTexts::new(F::of_family(Family::V4), F::of_family(Family::V6), rules)
}

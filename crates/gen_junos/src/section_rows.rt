ghost use Rattle.std.specs.Prelude.{◌≡◌, ◌∷◌, [], flat_map};
ghost use Rattle.acl_packet.specs.declared.addresses.Family.TheVariants.{V4, V6};
ghost use Rattle.acl_packet.specs.Addresses.{first_family};
ghost use Rattle.junos_lang.specs.Texts.{note_row, term_rows};
ghost use Rattle.gen_junos.specs.Sections.{
  default_term,
  section_of,
  term_of,
  terms_of,
};

use crate::condition_rows::RuleConditions;
use acl_packet::{Family, Verdict};
use acl_platform::{
    FamilyTexts, Filter, NoteRows, RemarkForm, Rule, RuleForm, RuleTexts, SectionForm,
};
use acl_rows::Rows;
use acl_text::{Out, PutFault};
use junos_lang::{NoteRow, SectionEnd, SectionHead, TermEnd, TermHead, ThenRows};

/// A rule as a term of a filter of the family.
#[derive(Drop)]
pub(crate) struct InFamily {
    family: Family,
}

impl SectionForm for InFamily {
    type Language = junos_lang::Junos;

    ghost family_of = { λ f. f.family };

    ghost section = { section_of };

    fn of_family(family: Family) -> InFamily {
        InFamily { family }
    }

    fn put_over<O: Out>(
        texts: &FamilyTexts<'_, InFamily>,
        filter: &Filter,
        out: &mut O,
    ) -> Result<(), PutFault> {
        let family = filter.families.first_family();
        let head = SectionHead {
            family,
            name: filter.name.as_slice(),
        };
        let terms = TermRows {
            texts: texts_in(family, texts),
        };
        (head, (terms, SectionEnd)).put_rows(out)
    }
}

fn texts_in<'a, 'r>(
    family: Family,
    texts: &'a FamilyTexts<'r, InFamily>,
) -> &'a RuleTexts<'r, InFamily>
    requires v4 { texts.now.v4.form.family ≡ V4 }
    requires v6 { texts.now.v6.form.family ≡ V6 }
    ensures family { result.now.form.family ≡ family }
    ensures rules { result.now.rules.now ≡ texts.now.v4.rules.now }
{
    match family {
        Family::V4 => &texts.v4,
        Family::V6 => &texts.v6,
    }
}

// The terms of rules.
#[derive(Drop)]
struct TermRows<'a, 'r> {
    texts: &'a RuleTexts<'r, InFamily>,
}

impl<'a, 'r> Rows for TermRows<'a, 'r> {
    ghost rows = { λ t. flat_map (term_rows t.texts.now.form.family) (terms_of t.texts.now.rules.now) };

    fn put_rows<O: Out>(&self, out: &mut O) -> Result<(), PutFault> {
        if self.texts.rules.is_empty() {
            let family = self.texts.form.family;
            DefaultTerm { family }.put_rows(out)
        } else {
            self.texts.put_rows(out)
        }
    }
}

// The term of a filter without a rule.
#[derive(Drop)]
struct DefaultTerm {
    family: Family,
}

impl Rows for DefaultTerm {
    ghost rows = { λ t. term_rows t.family default_term };

    fn put_rows<O: Out>(&self, out: &mut O) -> Result<(), PutFault> {
        let head = TermHead {
            name: b"default-deny".as_slice(),
        };
        let actions = ThenRows {
            syslog: false,
            verdict: Verdict::Deny,
        };
        (head, (actions, TermEnd)).put_rows(out)
    }
}

impl RuleForm for InFamily {
    ghost rule_rows = { λ f rule. term_rows f.family (term_of rule) };

    fn put_rule<O: Out>(&self, rule: &Rule, out: &mut O) -> Result<(), PutFault> {
        let note = NoteRows {
            note: rule.note.as_slice(),
            form: self,
        };
        let head = TermHead {
            name: rule.name.as_slice(),
        };
        let conditions = RuleConditions {
            family: self.family,
            rule,
        };
        let actions = ThenRows {
            syslog: rule.log,
            verdict: rule.verdict,
        };
        (note, (head, (conditions, (actions, TermEnd)))).put_rows(out)
    }
}

impl RemarkForm for InFamily {
    ghost remark_rows = { λ f text. note_row text ∷ [] };

    fn put_remark<O: Out>(&self, text: &[u8], out: &mut O) -> Result<(), PutFault> {
        NoteRow { text }.put_rows(out)
    }
}

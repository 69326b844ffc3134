ghost use Rattle.std.specs.Prelude.{◌≡◌, flat_map};
ghost use Rattle.std.specs.List.{All};
ghost use Rattle.acl_platform.specs.Choices.{number_choices};
ghost use Rattle.acl_platform.specs.Combinations.{IsSized};
ghost use Rattle.nft_lang.specs.declared.documents.Item.TheVariants.{Remark, Rule as ARule};
ghost use Rattle.nft_lang.specs.Texts.{item_rows};
ghost use Rattle.gen_nftables.specs.RowSteps.{head_of, items_rows};
ghost use Rattle.gen_nftables.specs.Sections.{
  accepts,
  chain_rule,
  remarks_in,
  rule_items,
};

use crate::rule_words::RuleWords;
use acl_packet::Families;
use acl_platform::{
    Choices, Filter, NumberChoices, RemarkForm, RemarkRows, Rule, RuleForm, put_rules,
};
use acl_rows::{Row, RowForm, Rows};
use acl_target::Ending;
use acl_text::{Out, PutFault};
use nft_lang::{CommentRow, TableHead};

/// What begins the section that the filter becomes.
pub(crate) fn head_of(filter: &Filter) -> TableHead
    ensures { result ≡ head_of filter.now }
{
    TableHead {
        hook: filter.hook,
        families: filter.families,
        number: filter.number,
        priority: filter.priority,
        accept: accepts(filter.ending),
    }
}

fn accepts(ending: Ending) -> bool
    ensures { result ≡ accepts ending }
{
    matches!(ending, Ending::Accept)
}

/// The items of the chain that the rules of a filter become.
#[derive(Drop)]
pub(crate) struct ChainItems<'a> {
    pub(crate) families: Families,
    pub(crate) verbose: bool,
    pub(crate) rules: &'a [Rule],
    pub(crate) ghost sized: { All IsSized rules.now },
}

impl<'a> Rows for ChainItems<'a> {
    ghost rows = { λ i. items_rows i.families (flat_map (rule_items i.verbose) i.rules.now) };

    fn put_rows<O: Out>(&self, out: &mut O) -> Result<(), PutFault> {
        let form = InChain {
            families: self.families,
            verbose: self.verbose,
        };
        put_rules(self.rules, &form, out)
    }
}

// A rule of the filter: its remarks, and a rule for each protocol.
#[derive(Drop)]
struct InChain {
    families: Families,
    verbose: bool,
}

impl RuleForm for InChain {
    ghost rule_rows = { λ f rule. items_rows f.families (rule_items f.verbose rule) };

    fn put_rule<O: Out>(&self, rule: &Rule, out: &mut O) -> Result<(), PutFault> {
        let remarks = Remarks { form: self, rule };
        let families = self.families;
        (remarks, ChainRules { families, rule }).put_rows(out)
    }
}

impl RemarkForm for InChain {
    ghost remark_rows = { λ f text. item_rows f.families (Remark text) };

    #[tactic(auto, unfolding(nft_lang::specs::Texts::item_rows))]
    fn put_remark<O: Out>(&self, text: &[u8], out: &mut O) -> Result<(), PutFault> {
        CommentRow { text }.put_rows(out)
    }
}

// The remarks of a rule, where they are asked for.
#[derive(Drop)]
struct Remarks<'a> {
    form: &'a InChain,
    rule: &'a Rule,
}

impl<'a> Rows for Remarks<'a> {
    ghost rows = { λ r. flat_map (λ text. item_rows r.form.now.families (Remark text))
        (remarks_in r.form.now.verbose r.rule.now) };

    fn put_rows<O: Out>(&self, out: &mut O) -> Result<(), PutFault> {
        if self.form.verbose {
            let remarks = RemarkRows {
                rule: self.rule,
                form: self.form,
            };
            remarks.put_rows(out)
        } else {
            Ok(())
        }
    }
}

// The rules of the chain that a rule becomes, one for each protocol or one for all.
#[derive(Drop)]
struct ChainRules<'a> {
    families: Families,
    rule: &'a Rule,
    ghost sized: { IsSized rule.now },
}

impl<'a> Rows for ChainRules<'a> {
    ghost rows = { λ c. flat_map
        (λ proto. item_rows c.families (ARule (chain_rule c.rule.now proto)))
        (number_choices c.rule.now.protos) };

    #[tactic(auto, using(acl_platform::proofs::SoundRules::protocols_small))]
    fn put_rows<O: Out>(&self, out: &mut O) -> Result<(), PutFault> {
        let protocols = NumberChoices {
            set: &self.rule.protos,
        };
        let form = OfRule {
            families: self.families,
            rule: self.rule,
        };
        protocols.put_each(&form, out)
    }
}

// A protocol, as the rule that it gives.
#[derive(Drop)]
struct OfRule<'a> {
    families: Families,
    rule: &'a Rule,
    ghost sized: { IsSized rule.now },
}

impl<'a> RowForm<Option<u8>> for OfRule<'a> {
    ghost item_rows = { λ f proto. item_rows f.families (ARule (chain_rule f.rule.now proto)) };

    fn put_item<O: Out>(&self, item: &Option<u8>, out: &mut O) -> Result<(), PutFault> {
        // The last space of the indent is the one that stands before the first word.
        let nothing: &[u8] = b"";
        let row = Row {
            indent: 7,
            first: nothing,
            rest: RuleWords {
                families: self.families,
                proto: *item,
                rule: self.rule,
            },
        };
        row.put_rows(out)
    }
}

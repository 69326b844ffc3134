ghost use Rattle.std.specs.Prelude.{◌≡◌, ◌∷◌, [], ℕ, IsTrue, map, flat_map, true};
ghost use Rattle.std.specs.List.{All};
ghost use Rattle.acl_text.specs.Puts.{Puts};
ghost use Rattle.acl_rows.specs.Rows.{text_of_rows};
ghost use Rattle.acl_platform.specs.Combinations.{IsSized};
ghost use Rattle.acl_platform.specs.SoundFilters.{IsSound};
ghost use Rattle.std_lang.specs.declared.documents.Item.TheVariants.{Entry as AnEntry, Remark};
ghost use Rattle.std_lang.specs.Texts.{item_rows, text_of};
ghost use Rattle.gen_acltool.specs.Limits.{has_number};
ghost use Rattle.gen_acltool.specs.RowSteps.{items_rows};
ghost use Rattle.gen_acltool.specs.Sections.{denial, entry_of, list_items, list_number, permits, rule_items, section_of};

use acl_packet::{Family, Prefix, Verdict};
use acl_platform::{Filter, ListedPrefixes, RemarkForm, RemarkRows, Rule, RuleForm, put_rules};
use acl_rows::{EachListed, RowForm, Rows, is_empty};
use acl_text::{Out, PutFault};
use std_lang::{Entry, EntryRow, ListHead, RemarkRow};

/// Puts the text of the list that the filter becomes, where the first list has this number.
pub(crate) fn put_section<O: Out>(first: u8, filter: &Filter, out: &mut O) -> Result<(), PutFault>
    requires open { IsTrue (O.is_open out.old) }
    requires numbered { has_number first filter.now ≡ true }
    requires sound { IsSound filter.now }
    ensures { Puts O.Out out.old out.new (text_of (section_of first filter.now ∷ [])) result }
{
    let number = list_number(first, filter);
    let items = ListItems {
        number,
        rules: filter.rules.as_slice(),
    };
    (ListHead { number }, items).put_rows(out)
}

fn list_number(first: u8, filter: &Filter) -> u8
    requires numbered { has_number first filter.now ≡ true }
    requires sound { IsSound filter.now }
    ensures { result ≡ list_number first filter.now }
{
    (u32::from(first) + filter.number - 1) as u8
}

// The items of the list of a number.
#[derive(Drop)]
struct ListItems<'a> {
    number: u8,
    rules: &'a [Rule],
    ghost sized: { All IsSized rules.now },
}

impl<'a> Rows for ListItems<'a> {
    ghost rows = { λ l. items_rows l.number (list_items l.rules.now) };

    fn put_rows<O: Out>(&self, out: &mut O) -> Result<(), PutFault> {
        let number = self.number;
        if is_empty(self.rules) {
            let entry = denial();
            EntryRow { number, entry }.put_rows(out)
        } else {
            put_rules(self.rules, &OfList { number }, out)
        }
    }
}

fn denial() -> Entry
    ensures { result ≡ denial }
{
    Entry {
        permit: false,
        src: Prefix::everywhere(Family::V4),
        log: false,
    }
}

// Rules, as items of the list of a number.
#[derive(Drop)]
struct OfList {
    number: u8,
}

impl RuleForm for OfList {
    ghost rule_rows = { λ f rule. items_rows f.number (rule_items rule) };

    fn put_rule<O: Out>(&self, rule: &Rule, out: &mut O) -> Result<(), PutFault> {
        let remarks = RemarkRows { rule, form: self };
        let entries = EachListed {
            items: ListedPrefixes::all(&rule.src),
            form: OfRule {
                number: self.number,
                rule,
            },
        };
        (remarks, entries).put_rows(out)
    }
}

impl RemarkForm for OfList {
    ghost remark_rows = { λ f text. item_rows f.number (Remark text) };

    fn put_remark<O: Out>(&self, text: &[u8], out: &mut O) -> Result<(), PutFault> {
        let number = self.number;
        RemarkRow { number, text }.put_rows(out)
    }
}

// A source, as an entry of its rule.
#[derive(Drop)]
struct OfRule<'a> {
    number: u8,
    rule: &'a Rule,
}

impl<'a> RowForm<Prefix> for OfRule<'a> {
    ghost item_rows = { λ f source. item_rows f.number (AnEntry (entry_of f.rule.now source)) };

    fn put_item<O: Out>(&self, item: &Prefix, out: &mut O) -> Result<(), PutFault> {
        let row = EntryRow {
            number: self.number,
            entry: entry_of(self.rule, item),
        };
        row.put_rows(out)
    }
}

fn entry_of(rule: &Rule, source: &Prefix) -> Entry
    ensures { result ≡ entry_of rule.now source.now }
{
    Entry {
        permit: permits(rule.verdict),
        src: *source,
        log: rule.log,
    }
}

fn permits(verdict: Verdict) -> bool
    ensures { result ≡ permits verdict }
{
    matches!(verdict, Verdict::Accept)
}

ghost use Rattle.std.specs.Prelude.{◌≡◌, ◌++◌, codes, flat_map, map, IsTrue};
ghost use Rattle.acl_text.specs.Puts.{Puts};
ghost use Rattle.acl_rows.specs.Rows.{row, text_of_rows, words_in};
ghost use Rattle.acl_packet.specs.declared.addresses.Family.TheVariants.{V6};
ghost use Rattle.acl_platform.specs.Combinations.{IsSized, combinations};
ghost use Rattle.cisco_lang.specs.declared.documents.Flags.{Flags};
ghost use Rattle.cisco_lang.specs.declared.documents.Item.TheVariants.{Entry as AnEntry, Remark};
ghost use Rattle.cisco_lang.specs.EntryHalves.{entry_back, entry_source, entry_start};
ghost use Rattle.cisco_lang.proofs.HalfLaws.{entry_parts};
ghost use Rattle.cisco_lang.specs.Texts.{end_rows, head_rows, item_rows};
ghost use Rattle.gen_cisco.specs.RowSteps.{items_rows};
ghost use Rattle.gen_cisco.specs.Sections.{
  closing_entries,
  entry_of,
  flags_of,
  items_in,
  list_items,
  permits,
  section_of,
  wide_entry,
};

use crate::counts::{has_rule, is_of};
use acl_packet::{Families, Family, Prefix, Verdict};
use acl_platform::{
    Combination, CombinationForm, FamilyTexts, Filter, RemarkForm, RemarkRows, Rule, RuleForm,
    RuleTexts, SectionForm, Test, put_combinations_by_parts,
};
use acl_rows::{OneWord, Piece, Row, RowForm, Rows, Words};
use acl_text::{Out, PutFault};
use cisco_lang::{
    EndWords, Entry, EntryBack, EntryFront, EntryHalves, EntryRow, EntryStart, Flags, ListEnd,
    ListHead, RemarkRow, SectionHead,
};

/// The items of the rules that are of the family.
#[derive(Drop)]
pub(crate) struct InFamily {
    family: Family,
}

impl SectionForm for InFamily {
    type Language = cisco_lang::Cisco;

    ghost family_of = { λ f. f.family };

    ghost section = { section_of };

    fn of_family(family: Family) -> InFamily {
        InFamily { family }
    }

    fn put_over<O: Out>(
        texts: &FamilyTexts<'_, InFamily>,
        filter: &Filter,
        out: &mut O,
    ) -> Result<(), PutFault> {
        let name = filter.name.as_slice();
        let section = SectionHead {
            name,
            families: filter.families,
        };
        let v4 = ListItems { texts: &texts.v4 };
        let v6 = ListItems { texts: &texts.v6 };
        match filter.families {
            Families::Inet => {
                let head = ListHead {
                    family: Family::V4,
                    name,
                };
                (section, (head, (v4, ListEnd))).put_rows(out)
            }
            Families::Inet6 => {
                let head = ListHead {
                    family: Family::V6,
                    name,
                };
                (section, (head, (v6, ListEnd))).put_rows(out)
            }
            Families::Mixed => {
                let head = ListHead {
                    family: Family::V4,
                    name,
                };
                let first = (head, (v4, ListEnd));
                let second = (MixedHead { name }, (v6, ListEnd));
                (section, (first, second)).put_rows(out)
            }
        }
    }
}

// The rows that begin the IPv6 list of a filter of both families.
#[derive(Drop)]
struct MixedHead<'a> {
    name: &'a [u8],
}

impl<'a> Rows for MixedHead<'a> {
    ghost rows = { λ h. head_rows V6 (codes "ipv6-" ++ h.name.now) };

    fn put_rows<O: Out>(&self, out: &mut O) -> Result<(), PutFault> {
        let list = OneWord {
            piece: b"access-list".as_slice(),
        };
        let name = OneWord {
            piece: (b"ipv6-".as_slice(), self.name),
        };
        let family = OneWord {
            piece: b"ipv6".as_slice(),
        };
        let removal = Row {
            indent: 0,
            first: b"no".as_slice(),
            rest: (family, (list, name)),
        };
        let head = Row {
            indent: 0,
            first: b"ipv6".as_slice(),
            rest: (list, name),
        };
        (removal, head).put_rows(out)
    }
}

// The items of the list of a family.
#[derive(Drop)]
struct ListItems<'a, 'r> {
    texts: &'a RuleTexts<'r, InFamily>,
}

impl<'a, 'r> Rows for ListItems<'a, 'r> {
    ghost rows = { λ l. items_rows l.texts.now.form.family
        (list_items l.texts.now.form.family l.texts.now.rules.now) };

    fn put_rows<O: Out>(&self, out: &mut O) -> Result<(), PutFault> {
        let family = self.texts.form.family;
        if has_rule(family, self.texts.rules) {
            self.texts.put_rows(out)
        } else {
            put_closing(family, out)
        }
    }
}

fn put_closing<O: Out>(family: Family, out: &mut O) -> Result<(), PutFault>
    requires { IsTrue (O.is_open out.old) }
    ensures { Puts O.Out out.old out.new
        (text_of_rows (items_rows family (map (λ e. AnEntry e) (closing_entries family)))) result }
{
    let denial = wide_row(family, false, None, None);
    match family {
        Family::V4 => denial.put_rows(out),
        Family::V6 => {
            let advertisements = wide_row(family, true, Some(58), Some(136));
            let solicitations = wide_row(family, true, Some(58), Some(135));
            (advertisements, (solicitations, denial)).put_rows(out)
        }
    }
}

fn wide_row(family: Family, permit: bool, proto: Option<u8>, itype: Option<u8>) -> EntryRow
    ensures { result ≡ record {
      family = family;
      entry = wide_entry family permit proto itype;
    } }
{
    EntryRow {
        family,
        entry: Entry {
            permit,
            proto,
            src: Prefix::everywhere(family),
            sport: None,
            dst: Prefix::everywhere(family),
            dport: None,
            itype,
            icode: None,
            flags: None,
            log: false,
        },
    }
}

impl RuleForm for InFamily {
    ghost rule_rows = { λ f rule. items_rows f.family (items_in f.family rule) };

    fn put_rule<O: Out>(&self, rule: &Rule, out: &mut O) -> Result<(), PutFault> {
        if is_of(self.family, rule) {
            let remarks = RemarkRows { rule, form: self };
            (remarks, Entries { rule }).put_rows(out)
        } else {
            Ok(())
        }
    }
}

impl RemarkForm for InFamily {
    ghost remark_rows = { λ f text. item_rows f.family (Remark text) };

    #[tactic(auto, unfolding(cisco_lang::specs::Texts::item_rows))]
    fn put_remark<O: Out>(&self, text: &[u8], out: &mut O) -> Result<(), PutFault> {
        RemarkRow { text }.put_rows(out)
    }
}

// The entries of a rule, one for each combination.
#[derive(Drop)]
struct Entries<'a> {
    rule: &'a Rule,
    ghost sized: { IsSized rule.now },
}

impl<'a> Rows for Entries<'a> {
    ghost rows = { λ e. flat_map
        (λ c. item_rows e.rule.now.family (AnEntry (entry_of e.rule.now c)))
        (combinations e.rule.now) };

    fn put_rows<O: Out>(&self, out: &mut O) -> Result<(), PutFault> {
        put_combinations_by_parts(self.rule, &OfRule { rule: self.rule }, out)
    }
}

// A combination, as an entry of its rule.
#[derive(Drop)]
struct OfRule<'a> {
    rule: &'a Rule,
}

impl<'a> RowForm<Combination> for OfRule<'a> {
    ghost item_rows = { λ f c. item_rows f.rule.now.family (AnEntry (entry_of f.rule.now c)) };

    #[tactic(auto, unfolding(cisco_lang::specs::Texts::item_rows, cisco_lang::specs::Texts::entry_words, cisco_lang::specs::EntryHalves::front_words, cisco_lang::specs::EntryHalves::back_words))]
    #[inline]
    fn put_item<O: Out>(&self, item: &Combination, out: &mut O) -> Result<(), PutFault> {
        let row = EntryHalves {
            front: front_of(self.rule, item.proto, &item.src, item.sport),
            back: back_of(self.rule, &item.dst, item.dport, item.itype, item.icode),
        };
        row.put_rows(out)
    }
}

impl<'a> CombinationForm for OfRule<'a> {
    ghost start = { λ f proto.
        entry_start f.rule.now.family (permits f.rule.now.verdict) proto };

    ghost source = { λ f src sport. entry_source f.rule.now.family src sport };

    ghost back = { λ f dst dport itype icode. entry_back f.rule.now.family dst dport itype icode
        (flags_of f.rule.now.test) f.rule.now.log };

    #[inline]
    fn put_start<O: Out>(&self, proto: Option<u8>, out: &mut O) -> Result<(), PutFault> {
        let start = EntryStart {
            family: self.rule.family,
            permit: permits(self.rule.verdict),
            proto,
        };
        start.put_into(out)
    }

    #[inline]
    fn put_source<O: Out>(
        &self,
        src: &Prefix,
        sport: Option<(u16, u16)>,
        out: &mut O,
    ) -> Result<(), PutFault> {
        let source = EndWords {
            family: self.rule.family,
            place: src,
            ports: sport,
        };
        source.put_spaced(out)
    }

    #[inline]
    fn put_back<O: Out>(
        &self,
        dst: &Prefix,
        dport: Option<(u16, u16)>,
        itype: Option<u8>,
        icode: Option<u8>,
        out: &mut O,
    ) -> Result<(), PutFault> {
        back_of(self.rule, dst, dport, itype, icode).put_into(out)
    }

    ghost is_parts = { λ f c. entry_parts f.rule.now.family (entry_of f.rule.now c) };
}

#[inline]
fn front_of<'a>(
    rule: &Rule,
    proto: Option<u8>,
    src: &'a Prefix,
    sport: Option<(u16, u16)>,
) -> EntryFront<'a>
    ensures { result ≡ record {
      family = rule.now.family;
      permit = permits rule.now.verdict;
      proto = proto;
      src = src.entry;
      sport = sport;
    } }
{
    EntryFront {
        family: rule.family,
        permit: permits(rule.verdict),
        proto,
        src,
        sport,
    }
}

#[inline]
fn back_of<'a>(
    rule: &Rule,
    dst: &'a Prefix,
    dport: Option<(u16, u16)>,
    itype: Option<u8>,
    icode: Option<u8>,
) -> EntryBack<'a>
    ensures { result ≡ record {
      family = rule.now.family;
      dst = dst.entry;
      dport = dport;
      itype = itype;
      icode = icode;
      flags = flags_of rule.now.test;
      log = rule.now.log;
    } }
{
    EntryBack {
        family: rule.family,
        dst,
        dport,
        itype,
        icode,
        flags: flags_of(rule.test),
        log: rule.log,
    }
}

#[inline]
fn permits(verdict: Verdict) -> bool
    ensures { result ≡ permits verdict }
{
    matches!(verdict, Verdict::Accept)
}

#[inline]
fn flags_of(test: Test) -> Option<Flags>
    ensures { result ≡ flags_of test }
{
    match test {
        Test::Plain => None,
        Test::AckOrRst => Some(Flags::Established),
        Test::SynNotAck => Some(Flags::SynNotAck),
        Test::Rst => Some(Flags::Rst),
        Test::State => None,
    }
}

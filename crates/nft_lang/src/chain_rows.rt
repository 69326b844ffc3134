ghost use Rattle.std.specs.Prelude.{◌≡◌, ◌∷◌, [], IsTrue, codes};
ghost use Rattle.acl_text.specs.Puts.{Puts};
ghost use Rattle.acl_rows.specs.Rows.{row, text_of_rows, words_in};
ghost use Rattle.nft_lang.specs.declared.documents.Item.TheVariants.{Rule as ARule};
ghost use Rattle.nft_lang.specs.RuleRowSteps.{rule_of_row};
ghost use Rattle.nft_lang.specs.Texts.{end_rows, families_word, head_rows, hook_word, addresses_words, ports_words, table_rows, target_row, table_row, start_row, chain_rows, icmp_words, item_rows, default_word, priority_word, rule_words, section_rows, table_word};
ghost use Rattle.nft_lang.specs.Documents.{table_name};

use crate::documents::{Flags, Item, Rule, Section};
use crate::rule_words::{FlagTest, PacketFamily, Protocol, RuleEnding};
use crate::sets::{ElementSet, IcmpNumber, PrefixWord, SetKey};
use acl_packet::{Families, Family, Hook, Prefix, Verdict};
use acl_rows::{Each, FreeText, Number, OneWord, Piece, RangeWords, Row, RowForm, Rows, Words};
use acl_text::{Out, PutFault};
use itoa::Buffer;

/// The row of a rule of a table of the families. A set without elements is not written.
#[derive(Drop)]
pub struct RuleRow<'a> {
    pub families: Families,
    pub family: Family,
    pub proto: Option<u8>,
    pub src: &'a [Prefix],
    pub dst: &'a [Prefix],
    pub sports: &'a [(u16, u16)],
    pub dports: &'a [(u16, u16)],
    pub itypes: &'a [u8],
    pub icodes: &'a [u8],
    pub flags: Option<Flags>,
    pub state: bool,
    pub log: bool,
    pub verdict: Verdict,
}

impl<'a> Rows for RuleRow<'a> {
    ghost rows = { λ r. item_rows r.families (ARule (rule_of_row r)) };

    #[tactic(auto, unfolding(crate::specs::Texts::item_rows, crate::specs::Texts::rule_words))]
    fn put_rows<O: Out>(&self, out: &mut O) -> Result<(), PutFault> {
        let family = self.family;
        let packet_family = PacketFamily {
            families: self.families,
            family,
        };
        let protocol = Protocol { number: self.proto };
        let addresses = AddressSets {
            family,
            src: self.src,
            dst: self.dst,
        };
        let ports = PortSets {
            proto: self.proto,
            sports: self.sports,
            dports: self.dports,
        };
        let icmp = IcmpSets {
            family,
            itypes: self.itypes,
            icodes: self.icodes,
        };
        let test = FlagTest { flags: self.flags };
        let ending = RuleEnding {
            state: self.state,
            log: self.log,
            verdict: self.verdict,
        };
        // The last space of the indent is the one that stands before the first word.
        let nothing: &[u8] = b"";
        let row = Row {
            indent: 7,
            first: nothing,
            rest: (
                packet_family,
                (protocol, (addresses, (ports, (icmp, (test, ending))))),
            ),
        };
        row.put_rows(out)
    }
}

/// The row of a remark.
#[derive(Drop)]
pub struct CommentRow<'a> {
    pub text: &'a [u8],
}

impl<'a> Rows for CommentRow<'a> {
    ghost rows = { λ r. row 8 (codes "#" ∷ words_in r.text.now) ∷ [] };

    fn put_rows<O: Out>(&self, out: &mut O) -> Result<(), PutFault> {
        let row = Row {
            indent: 8,
            first: b"#".as_slice(),
            rest: FreeText { text: self.text },
        };
        row.put_rows(out)
    }
}

/// The rows that begin a section: its target, its table, which takes an older one of its name away,
/// and its chain.
#[derive(Drop)]
pub struct TableHead {
    pub hook: Hook,
    pub families: Families,
    pub number: u32,
    pub priority: i32,
    /// Whether the chain's policy is to accept; else it is to drop.
    pub accept: bool,
}

impl Rows for TableHead {
    ghost rows = { λ h. head_rows h.hook h.families h.number h.priority h.accept };

    #[tactic(auto, unfolding(crate::specs::Texts::head_rows))]
    fn put_rows<O: Out>(&self, out: &mut O) -> Result<(), PutFault> {
        let table = NewTable {
            hook: self.hook,
            families: self.families,
            number: self.number,
        };
        let chain = ChainHead {
            hook: self.hook,
            priority: self.priority,
            accept: self.accept,
        };
        (table, chain).put_rows(out)
    }
}

#[derive(Drop)]
struct NewTable {
    hook: Hook,
    families: Families,
    number: u32,
}

impl Rows for NewTable {
    ghost rows = { λ h. table_rows h.hook h.families h.number };

    fn put_rows<O: Out>(&self, out: &mut O) -> Result<(), PutFault> {
        let add: &[u8] = b"add";
        let delete: &[u8] = b"delete";
        let families = self.families;
        let number = self.number;
        let target = TargetRow {
            hook: self.hook,
            families,
        };
        let addition = TableRow {
            command: add,
            families,
            number,
        };
        let removal = TableRow {
            command: delete,
            families,
            number,
        };
        (
            target,
            (addition, (removal, TableStart { families, number })),
        )
            .put_rows(out)
    }
}

#[derive(Drop)]
struct TargetRow {
    hook: Hook,
    families: Families,
}

impl Rows for TargetRow {
    ghost rows = { λ t. target_row t.hook t.families ∷ [] };

    fn put_rows<O: Out>(&self, out: &mut O) -> Result<(), PutFault> {
        let mark: &[u8] = b"##";
        let target: &[&[u8]] = &[
            b"nftables",
            hook_word(self.hook),
            families_word(self.families),
        ];
        let row = Row {
            indent: 0,
            first: mark,
            rest: target,
        };
        row.put_rows(out)
    }
}

#[derive(Drop)]
struct TableRow<'a> {
    command: &'a [u8],
    families: Families,
    number: u32,
}

impl<'a> Rows for TableRow<'a> {
    ghost rows = { λ t. table_row t.command.now t.families t.number ∷ [] };

    fn put_rows<O: Out>(&self, out: &mut O) -> Result<(), PutFault> {
        let table: &[&[u8]] = &[b"table", table_word(self.families)];
        let name = OneWord {
            piece: TableName {
                number: self.number,
            },
        };
        let row = Row {
            indent: 0,
            first: self.command,
            rest: (table, name),
        };
        row.put_rows(out)
    }
}

#[derive(Drop)]
struct TableStart {
    families: Families,
    number: u32,
}

impl Rows for TableStart {
    ghost rows = { λ t. start_row t.families t.number ∷ [] };

    fn put_rows<O: Out>(&self, out: &mut O) -> Result<(), PutFault> {
        let family = OneWord {
            piece: table_word(self.families),
        };
        let name = OneWord {
            piece: TableName {
                number: self.number,
            },
        };
        let brace = OneWord {
            piece: b"{".as_slice(),
        };
        let row = Row {
            indent: 0,
            first: b"table".as_slice(),
            rest: (family, (name, brace)),
        };
        row.put_rows(out)
    }
}

#[derive(Drop)]
struct ChainHead {
    hook: Hook,
    priority: i32,
    accept: bool,
}

impl Rows for ChainHead {
    ghost rows = { λ h. chain_rows h.hook h.priority h.accept };

    fn put_rows<O: Out>(&self, out: &mut O) -> Result<(), PutFault> {
        let hook = hook_word(self.hook);
        let opening: &[&[u8]] = &[hook, b"{"];
        let kind: &[&[u8]] = &[b"filter", b"hook", hook, b"priority"];
        let policy: &[&[u8]] = &[b"policy", default_word(self.accept)];
        let priority = OneWord {
            piece: Priority {
                priority: self.priority,
            },
        };
        let beginning = Row {
            indent: 4,
            first: b"chain".as_slice(),
            rest: opening,
        };
        let base = Row {
            indent: 8,
            first: b"type".as_slice(),
            rest: (kind, (priority, policy)),
        };
        (beginning, base).put_rows(out)
    }
}

/// The rows that end a section.
#[derive(Drop)]
pub struct SectionEnd;

impl Rows for SectionEnd {
    ghost rows = { λ e. end_rows };

    fn put_rows<O: Out>(&self, out: &mut O) -> Result<(), PutFault> {
        let none: &[&[u8]] = &[];
        let chain = Row {
            indent: 4,
            first: b"}".as_slice(),
            rest: none,
        };
        let table = Row {
            indent: 0,
            first: b"}".as_slice(),
            rest: none,
        };
        (chain, table).put_rows(out)
    }
}

fn hook_word(hook: Hook) -> &'static [u8]
    ensures { result.now ≡ hook_word hook }
{
    match hook {
        Hook::Input => b"input",
        Hook::Output => b"output",
        Hook::Forward => b"forward",
    }
}

fn families_word(families: Families) -> &'static [u8]
    ensures { result.now ≡ families_word families }
{
    match families {
        Families::Inet => b"inet",
        Families::Inet6 => b"inet6",
        Families::Mixed => b"mixed",
    }
}

fn table_word(families: Families) -> &'static [u8]
    ensures { result.now ≡ table_word families }
{
    match families {
        Families::Inet => b"ip",
        Families::Inet6 => b"ip6",
        Families::Mixed => b"inet",
    }
}

fn default_word(accept: bool) -> &'static [u8]
    ensures { result.now ≡ default_word accept }
{
    if accept { b"accept;" } else { b"drop;" }
}

#[derive(Clone, Copy)]
struct TableName {
    number: u32,
}

impl Piece for TableName {
    ghost text = { λ n. table_name n.number };

    fn put_into<O: Out>(&self, out: &mut O) -> Result<(), PutFault> {
        let number = u128::from(self.number);
        (b"aclgen_".as_slice(), Number { number }).put_into(out)
    }
}

#[derive(Drop)]
struct Priority {
    priority: i32,
}

impl Piece for Priority {
    ghost text = { λ p. priority_word p.priority };

    fn put_into<O: Out>(&self, out: &mut O) -> Result<(), PutFault> {
        let mut buffer = Buffer::new();
        let number = buffer.format(self.priority).as_bytes();
        (number, b";".as_slice()).put_into(out)
    }
}

#[derive(Drop)]
struct AddressSets<'a> {
    family: Family,
    src: &'a [Prefix],
    dst: &'a [Prefix],
}

impl<'a> Words for AddressSets<'a> {
    ghost words = { λ a. addresses_words a.family a.src.now a.dst.now };

    #[tactic(auto, unfolding(crate::specs::Texts::addresses_words))]
    fn put_spaced<O: Out>(&self, out: &mut O) -> Result<(), PutFault> {
        let source = ElementSet {
            key: SetKey::Source(self.family),
            elements: self.src,
            form: PrefixWord,
        };
        let destination = ElementSet {
            key: SetKey::Destination(self.family),
            elements: self.dst,
            form: PrefixWord,
        };
        (source, destination).put_spaced(out)
    }
}

#[derive(Drop)]
struct PortSets<'a> {
    proto: Option<u8>,
    sports: &'a [(u16, u16)],
    dports: &'a [(u16, u16)],
}

impl<'a> Words for PortSets<'a> {
    ghost words = { λ p. ports_words p.proto p.sports.now p.dports.now };

    #[tactic(auto, unfolding(crate::specs::Texts::ports_words))]
    fn put_spaced<O: Out>(&self, out: &mut O) -> Result<(), PutFault> {
        let source = ElementSet {
            key: SetKey::SourcePort(self.proto),
            elements: self.sports,
            form: RangeWords { separator: b'-' },
        };
        let destination = ElementSet {
            key: SetKey::DestinationPort(self.proto),
            elements: self.dports,
            form: RangeWords { separator: b'-' },
        };
        (source, destination).put_spaced(out)
    }
}

#[derive(Drop)]
struct IcmpSets<'a> {
    family: Family,
    itypes: &'a [u8],
    icodes: &'a [u8],
}

impl<'a> Words for IcmpSets<'a> {
    ghost words = { λ i. icmp_words i.family i.itypes.now i.icodes.now };

    #[tactic(auto, unfolding(crate::specs::Texts::icmp_words))]
    fn put_spaced<O: Out>(&self, out: &mut O) -> Result<(), PutFault> {
        let types = ElementSet {
            key: SetKey::IcmpType(self.family),
            elements: self.itypes,
            form: IcmpNumber,
        };
        let codes = ElementSet {
            key: SetKey::IcmpCode(self.family),
            elements: self.icodes,
            form: IcmpNumber,
        };
        (types, codes).put_spaced(out)
    }
}

// The items of a chain in a table of the families.
#[derive(Drop)]
pub(crate) struct OfFamilies {
    pub(crate) families: Families,
}

impl RowForm<Item> for OfFamilies {
    ghost item_rows = { λ f i. item_rows f.families i };

    #[tactic(auto, unfolding(crate::specs::Texts::item_rows))]
    fn put_item<O: Out>(&self, item: &Item, out: &mut O) -> Result<(), PutFault> {
        match item {
            Item::Remark(text) => CommentRow {
                text: text.as_slice(),
            }
            .put_rows(out),
            Item::Rule(rule) => put_rule(self.families, rule, out),
        }
    }
}

#[tactic(auto, unfolding(crate::specs::Texts::item_rows))]
fn put_rule<O: Out>(families: Families, rule: &Rule, out: &mut O) -> Result<(), PutFault>
    requires { IsTrue (O.is_open out.old) }
    ensures { Puts O.Out out.old out.new
        (text_of_rows (item_rows families (ARule rule.now))) result }
{
    let row = RuleRow {
        families,
        family: rule.family,
        proto: rule.proto,
        src: rule.src.as_slice(),
        dst: rule.dst.as_slice(),
        sports: rule.sports.as_slice(),
        dports: rule.dports.as_slice(),
        itypes: rule.itypes.as_slice(),
        icodes: rule.icodes.as_slice(),
        flags: rule.flags,
        state: rule.state,
        log: rule.log,
        verdict: rule.verdict,
    };
    row.put_rows(out)
}

impl Rows for Section {
    ghost rows = { section_rows };

    #[tactic(auto, unfolding(crate::specs::Texts::section_rows))]
    fn put_rows<O: Out>(&self, out: &mut O) -> Result<(), PutFault> {
        let head = TableHead {
            hook: self.hook,
            families: self.families,
            number: self.number,
            priority: self.priority,
            accept: self.accept,
        };
        let items = Each {
            items: self.items.as_slice(),
            form: OfFamilies {
                families: self.families,
            },
        };
        (head, (items, SectionEnd)).put_rows(out)
    }
}

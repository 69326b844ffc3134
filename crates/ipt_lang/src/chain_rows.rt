ghost use Rattle.std.specs.Prelude.{◌≡◌, ◌∷◌, []};
ghost use Rattle.ipt_lang.specs.Documents.{family_word, hook_word};
ghost use Rattle.ipt_lang.specs.Texts.{chain_name, chain_row, chain_rows, head_rows, hook_letter, jump_row, default_rows, default_word, remark_rows, rule_rows, section_rows, target_row};

use crate::documents::{Chain, Rule, Section};
use crate::ports::PortLists;
use crate::rule_rows::{RuleBack, RuleFront, RuleRow, RuleSource};
use acl_packet::{Family, Hook};
use acl_rows::{Each, FreeText, OneWord, Piece, RangeWords, Row, RowForm, Rows};
use acl_text::{Bytes, Out, PutFault};

/// The rows that begin a section: its target, and the policy where one is said.
#[derive(Drop)]
pub struct SectionHead {
    pub hook: Hook,
    pub family: Family,
    /// Whether the hook's policy is to accept, else it is to drop; `None` is not written.
    pub accept: Option<bool>,
}

impl Rows for SectionHead {
    ghost rows = { λ h. head_rows h.hook h.family h.accept };

    #[tactic(auto, unfolding(crate::specs::Texts::head_rows))]
    fn put_rows<O: Out>(&self, out: &mut O) -> Result<(), PutFault> {
        let target = TargetRow {
            hook: self.hook,
            family: self.family,
        };
        let policy = DefaultRows {
            hook: self.hook,
            accept: self.accept,
        };
        (target, policy).put_rows(out)
    }
}

/// The comment row that names a section's target.
#[derive(Drop)]
pub struct TargetRow {
    pub hook: Hook,
    pub family: Family,
}

impl Rows for TargetRow {
    ghost rows = { λ t. target_row t.hook t.family ∷ [] };

    fn put_rows<O: Out>(&self, out: &mut O) -> Result<(), PutFault> {
        let target: &[&[u8]] = &[b"iptables", hook_word(self.hook), family_word(self.family)];
        let row = Row {
            indent: 0,
            first: b"##".as_slice(),
            rest: target,
        };
        row.put_rows(out)
    }
}

/// The row of a section's policy, where one is said.
#[derive(Drop)]
pub(crate) struct DefaultRows {
    pub(crate) hook: Hook,
    pub(crate) accept: Option<bool>,
}

impl Rows for DefaultRows {
    ghost rows = { λ p. default_rows p.hook p.accept };

    #[tactic(auto, unfolding(crate::specs::Texts::default_rows))]
    fn put_rows<O: Out>(&self, out: &mut O) -> Result<(), PutFault> {
        match self.accept {
            Some(accept) => {
                let policy: &[&[u8]] = &[hook_word(self.hook), default_word(accept)];
                let row = Row {
                    indent: 0,
                    first: b"-P".as_slice(),
                    rest: policy,
                };
                row.put_rows(out)
            }
            None => Ok(()),
        }
    }
}

/// The word of a hook, which is the name of its chain.
pub fn hook_word(hook: Hook) -> &'static [u8]
    ensures { result.now ≡ hook_word hook }
{
    match hook {
        Hook::Input => b"INPUT",
        Hook::Output => b"OUTPUT",
        Hook::Forward => b"FORWARD",
    }
}

fn family_word(family: Family) -> &'static [u8]
    ensures { result.now ≡ family_word family }
{
    match family {
        Family::V4 => b"inet",
        Family::V6 => b"inet6",
    }
}

/// The word of a policy, to accept or to drop.
pub fn default_word(accept: bool) -> &'static [u8]
    ensures { result.now ≡ default_word accept }
{
    if accept { b"ACCEPT" } else { b"DROP" }
}

/// The row of a remark.
#[derive(Drop)]
pub struct RemarkRow<'a> {
    pub text: &'a [u8],
}

impl<'a> Rows for RemarkRow<'a> {
    ghost rows = { λ r. remark_rows r.text.now };

    #[tactic(auto, unfolding(crate::specs::Texts::remark_rows))]
    fn put_rows<O: Out>(&self, out: &mut O) -> Result<(), PutFault> {
        let row = Row {
            indent: 0,
            first: b"#".as_slice(),
            rest: FreeText { text: self.text },
        };
        row.put_rows(out)
    }
}

/// The name of a chain: the hook's letter, a `_` and a name.
#[derive(Clone, Copy)]
pub struct ChainName<'a> {
    pub hook: Hook,
    pub name: &'a [u8],
}

impl<'a> Piece for ChainName<'a> {
    ghost text = { λ c. chain_name c.hook c.name.now };

    #[inline]
    fn put_into<O: Out>(&self, out: &mut O) -> Result<(), PutFault> {
        (hook_front(self.hook), self.name).put_into(out)
    }
}

#[inline]
fn hook_front(hook: Hook) -> &'static [u8]
    ensures { result.now ≡ hook_letter hook ∷ 95 ∷ [] }
{
    match hook {
        Hook::Input => b"I_",
        Hook::Output => b"O_",
        Hook::Forward => b"F_",
    }
}

/// The row of a new chain.
#[derive(Drop)]
pub struct ChainHead<'a> {
    pub hook: Hook,
    /// The name without the hook's letter and the `_` behind it.
    pub name: &'a [u8],
}

impl<'a> Rows for ChainHead<'a> {
    ghost rows = { λ c. chain_row c.hook c.name.now ∷ [] };

    fn put_rows<O: Out>(&self, out: &mut O) -> Result<(), PutFault> {
        let name = ChainName {
            hook: self.hook,
            name: self.name,
        };
        let row = Row {
            indent: 0,
            first: b"-N".as_slice(),
            rest: OneWord { piece: name },
        };
        row.put_rows(out)
    }
}

/// The row of the jump to a chain, behind the chain's rules.
#[derive(Drop)]
pub struct JumpRow<'a> {
    pub hook: Hook,
    pub name: &'a [u8],
}

impl<'a> Rows for JumpRow<'a> {
    ghost rows = { λ j. jump_row j.hook j.name.now ∷ [] };

    fn put_rows<O: Out>(&self, out: &mut O) -> Result<(), PutFault> {
        let words: &[&[u8]] = &[hook_word(self.hook), b"-j"];
        let name = ChainName {
            hook: self.hook,
            name: self.name,
        };
        let row = Row {
            indent: 0,
            first: b"-A".as_slice(),
            rest: (words, OneWord { piece: name }),
        };
        row.put_rows(out)
    }
}

impl Rows for Section {
    ghost rows = { section_rows };

    #[tactic(auto, unfolding(crate::specs::Texts::section_rows))]
    fn put_rows<O: Out>(&self, out: &mut O) -> Result<(), PutFault> {
        let head = SectionHead {
            hook: self.hook,
            family: self.family,
            accept: self.accept,
        };
        let chains = Each {
            items: self.chains.as_slice(),
            form: OfHook {
                hook: self.hook,
                family: self.family,
            },
        };
        (head, chains).put_rows(out)
    }
}

// The chains of a hook and a family.
#[derive(Drop)]
struct OfHook {
    hook: Hook,
    family: Family,
}

impl RowForm<Chain> for OfHook {
    ghost item_rows = { λ f c. chain_rows f.hook f.family c };

    #[tactic(auto, unfolding(crate::specs::Texts::chain_rows))]
    fn put_item<O: Out>(&self, chain: &Chain, out: &mut O) -> Result<(), PutFault> {
        let hook = self.hook;
        let name = chain.name.as_slice();
        let remarks = Each {
            items: chain.remarks.as_slice(),
            form: Remarks,
        };
        let rules = Each {
            items: chain.rules.as_slice(),
            form: OfChain {
                hook,
                family: self.family,
                name,
            },
        };
        let jump = JumpRow { hook, name };
        (remarks, (ChainHead { hook, name }, (rules, jump))).put_rows(out)
    }
}

/// Remarks, each as its row.
#[derive(Drop)]
pub struct Remarks;

impl RowForm<Bytes> for Remarks {
    ghost item_rows = { λ f text. remark_rows text };

    fn put_item<O: Out>(&self, text: &Bytes, out: &mut O) -> Result<(), PutFault> {
        let row = RemarkRow {
            text: text.as_slice(),
        };
        row.put_rows(out)
    }
}

/// Rules of a chain, each as its row.
#[derive(Drop)]
pub struct OfChain<'a> {
    pub hook: Hook,
    pub family: Family,
    /// The chain's name without the hook's letter and the `_` behind it.
    pub name: &'a [u8],
}

impl<'a> RowForm<Rule> for OfChain<'a> {
    ghost item_rows = { λ f r. rule_rows f.hook f.family f.name.now r };

    #[tactic(auto, unfolding(crate::specs::Texts::rule_rows))]
    fn put_item<O: Out>(&self, rule: &Rule, out: &mut O) -> Result<(), PutFault> {
        let ports = PortLists {
            sports: rule.sports.as_slice(),
            dports: rule.dports.as_slice(),
            form: RangeWords { separator: b':' },
        };
        let front = RuleFront {
            hook: self.hook,
            name: self.name,
            family: self.family,
            proto: rule.proto,
        };
        let source = RuleSource { address: rule.src };
        let back = RuleBack {
            family: self.family,
            dst: rule.dst,
            ports,
            itype: rule.itype,
            icode: rule.icode,
            flags: rule.flags,
            state: rule.state,
            act: rule.act,
        };
        let row = RuleRow {
            front,
            source,
            back,
        };
        row.put_rows(out)
    }
}

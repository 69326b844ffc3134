ghost use Rattle.std.specs.Prelude.{◌≡◌, IfOk, drop};
ghost use Rattle.acl_text.specs.Cuts.{cut_at};
ghost use Rattle.ipt_lang.specs.Documents.{IsRemark, IsRule};
ghost use Rattle.ipt_lang.specs.ScanSteps.{IsAny, IsChainName, TakesItem, TakesPolicy, TextBehind, first_line, name_in, name_rows, policy_rows, remark_in, scanned_rule, target, target_at, target_in, target_rows};
ghost use Rattle.ipt_lang.specs.Texts.{remark_rows, rule_rows};
ghost use Rattle.ipt_lang.specs.ReadingSteps.{hook_in};
ghost use Rattle.acl_rows.specs.FamilyWords.{family_in};

use crate::chain_rows::{ChainHead, DefaultRows, OfChain, RemarkRow, TargetRow};
use crate::chains_drafts::hook_of;
use crate::documents::Rule;
use crate::rule_drafts::rule_of;
use crate::validity::{is_chain_name, is_rule};
use acl_packet::{Family, Hook};
use acl_rows::{RowForm, RowWords, Rows, family_named, rows_behind};
use acl_text::{Memory, Out, PutFault, is_safe_text, split_at_byte};
use std::alloc::Global;

/// What was taken from the front of a text, and what the text has behind it.
#[derive(Drop)]
pub(crate) struct Taken<'a, T> {
    pub(crate) item: T,
    pub(crate) rest: &'a [u8],
}

/// Takes the remark that the text begins with.
pub(crate) fn take_remark<'a>(text: &'a [u8]) -> Option<Taken<'a, &'a [u8]>>
    ensures { TakesItem IsRemark remark_rows (λ t. t.now) text.now result }
{
    let remark = remark_in(text);
    if !is_safe_text(remark) {
        return None;
    }
    match rows_behind(text, &RemarkRow { text: remark }) {
        Some(rest) => Some(Taken { item: remark, rest }),
        None => None,
    }
}

fn remark_in(text: &[u8]) -> &[u8]
    ensures { result.now ≡ remark_in text.now }
{
    behind(first_line(text), b"# ".len())
}

/// Takes the row of a new chain, and of it the chain's name.
pub(crate) fn take_name<'a>(hook: Hook, text: &'a [u8]) -> Option<Taken<'a, &'a [u8]>>
    ensures { TakesItem IsChainName (name_rows hook) (λ t. t.now) text.now result }
{
    let name = name_in(text);
    if !is_chain_name(name) {
        return None;
    }
    match rows_behind(text, &ChainHead { hook, name }) {
        Some(rest) => Some(Taken { item: name, rest }),
        None => None,
    }
}

fn name_in(text: &[u8]) -> &[u8]
    ensures { result.now ≡ name_in text.now }
{
    behind(first_line(text), b"-N I_".len())
}

/// Takes the rule of the chain that the text begins with.
pub(crate) fn take_rule<'a>(
    alloc: Global,
    chain: &OfChain<'_>,
    text: &'a [u8],
) -> Result<Option<Taken<'a, Rule>>, Memory>
    requires { IsChainName chain.now.name.now }
    ensures { IfOk result (TakesItem (IsRule chain.now.family)
        (rule_rows chain.now.hook chain.now.family chain.now.name.now) (λ r. r) text.now) }
{
    let rule = scanned_rule(alloc, chain.family, text)?;
    if !is_rule(chain.family, &rule) {
        return Ok(None);
    }
    let row = OneRule { chain, rule: &rule };
    match rows_behind(text, &row) {
        Some(rest) => Ok(Some(Taken { item: rule, rest })),
        None => Ok(None),
    }
}

fn scanned_rule(alloc: Global, family: Family, text: &[u8]) -> Result<Rule, Memory>
    ensures { IfOk result (λ r. r ≡ scanned_rule family text.now) }
{
    let words = RowWords::new(first_line(text));
    rule_of(alloc, family, words.behind_first().behind_first())
}

// A rule of a chain, as its row.
#[derive(Drop)]
struct OneRule<'a> {
    chain: &'a OfChain<'a>,
    rule: &'a Rule,
}

impl<'a> Rows for OneRule<'a> {
    ghost rows = { λ r.
        rule_rows r.chain.now.hook r.chain.now.family r.chain.now.name.now r.rule.now };

    fn put_rows<O: Out>(&self, out: &mut O) -> Result<(), PutFault> {
        self.chain.put_item(self.rule, out)
    }
}

/// Takes the first row of a section, which names its target.
pub(crate) fn take_target(text: &[u8]) -> Option<Taken<'_, TargetRow>>
    ensures { TakesItem IsAny target_rows (λ t. t) text.now result }
{
    let target = target_in(text);
    match rows_behind(text, &target) {
        Some(rest) => Some(Taken { item: target, rest }),
        None => None,
    }
}

fn target_in(text: &[u8]) -> TargetRow
    ensures { result ≡ target_in text.now }
{
    match split_at_byte(behind(first_line(text), b"## iptables ".len()), b' ') {
        Some((hook, family)) => target_of(hook, family),
        None => target_of(&[], &[]),
    }
}

fn target_of(hook: &[u8], family: &[u8]) -> TargetRow
    ensures { result ≡ target (hook_in hook.now) (family_in family.now) }
{
    TargetRow {
        hook: hook_of(hook),
        family: family_named(family),
    }
}

/// The policy that was taken from the front of a text, if one was, and what the text has behind it.
#[derive(Clone, Copy, Drop)]
pub(crate) struct TakenPolicy<'a> {
    pub(crate) accept: Option<bool>,
    pub(crate) rest: &'a [u8],
}

/// Takes the row of the policy, if the text begins with one.
pub(crate) fn take_policy(hook: Hook, text: &[u8]) -> TakenPolicy<'_>
    ensures { TakesPolicy hook text.now result }
{
    if let Some(rest) = policy_behind(hook, true, text) {
        return TakenPolicy {
            accept: Some(true),
            rest,
        };
    }
    match policy_behind(hook, false, text) {
        Some(rest) => TakenPolicy {
            accept: Some(false),
            rest,
        },
        None => TakenPolicy {
            accept: None,
            rest: text,
        },
    }
}

// What the text has behind the row of that policy.
fn policy_behind(hook: Hook, accept: bool, text: &[u8]) -> Option<&[u8]>
    ensures { TextBehind (policy_rows hook accept) text.now result }
{
    let policy = DefaultRows {
        hook,
        accept: Some(accept),
    };
    rows_behind(text, &policy)
}

// The first line of the text; all of it where no line ends.
#[tactic(auto, unfolding(crate::specs::ScanSteps::first_line))]
fn first_line(text: &[u8]) -> &[u8]
    ensures { result.now ≡ first_line text.now }
{
    match split_at_byte(text, b'\n') {
        Some((line, _)) => line,
        None => text,
    }
}

// What the text has behind so many bytes.
fn behind(text: &[u8], count: usize) -> &[u8]
    ensures { result.now ≡ drop count text.now }
{
    if count <= text.len() {
        &text[count..]
    } else {
        &[]
    }
}

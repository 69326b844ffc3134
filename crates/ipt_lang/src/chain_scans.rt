ghost use Rattle.std.specs.Prelude.{◌≡◌, IfOk};
ghost use Rattle.ipt_lang.specs.Documents.{IsRemark};
ghost use Rattle.ipt_lang.specs.ScanSteps.{IsBehind, IsChainName, TakesChain, TakesChains, TakesRules};
ghost use Rattle.ipt_lang.specs.Texts.{remark_rows};

use crate::chain_rows::{JumpRow, OfChain, TargetRow};
use crate::row_scans::{take_name, take_remark, take_rule};
use crate::walking::{one_rule_more, outcome_so_far};
use acl_packet::{Outcome, Packet, Verdict};
use acl_rows::rows_behind;
use acl_text::Memory;
use std::alloc::Global;

/// What a text has behind the rules of a chain, and what has been decided there.
#[derive(Clone, Copy, Drop)]
pub(crate) struct TakenRules<'a> {
    pub(crate) outcome: Outcome,
    pub(crate) rest: &'a [u8],
}

/// A chain that was taken from the front of a text: its name, what has been decided at its end, and
/// what the text has behind it.
#[derive(Clone, Copy, Drop)]
pub(crate) struct TakenChain<'a> {
    pub(crate) name: &'a [u8],
    pub(crate) outcome: Outcome,
    pub(crate) rest: &'a [u8],
}

/// The chains that were taken from the front of a text: their names, what they decide, and what the
/// text has behind them.
#[derive(Drop)]
pub(crate) struct TakenChains<'a> {
    pub(crate) names: Vec<&'a [u8]>,
    pub(crate) outcome: Outcome,
    pub(crate) rest: &'a [u8],
}

/// Takes the chains that the text begins with.
pub(crate) fn take_chains<'a>(
    alloc: Global,
    target: &TargetRow,
    text: &'a [u8],
    packet: &Packet,
) -> Result<TakenChains<'a>, Memory>
    ensures { IfOk result (TakesChains target.now.hook target.now.family text.now packet.now) }
{
    let mut names = Vec::new(alloc);
    let mut outcome = outcome_so_far(Verdict::Left, false);
    let mut rest = text;
    while let Some(chain) = take_chain(alloc, target, rest, packet, outcome)? {
        names.push(chain.name)?;
        outcome = chain.outcome;
        rest = chain.rest;
    }
    Ok(TakenChains {
        names,
        outcome,
        rest,
    })
}

/// Takes the chain that the text begins with, for a packet on which this has been decided.
fn take_chain<'a>(
    alloc: Global,
    target: &TargetRow,
    text: &'a [u8],
    packet: &Packet,
    so_far: Outcome,
) -> Result<Option<TakenChain<'a>>, Memory>
    ensures { IfOk result
        (TakesChain target.now.hook target.now.family text.now packet.now so_far) }
{
    let Some(head) = take_name(target.hook, behind_remarks(text)) else {
        return Ok(None);
    };
    let name = head.item;
    let chain = OfChain {
        hook: target.hook,
        family: target.family,
        name,
    };
    let rules = take_rules(alloc, &chain, head.rest, packet, so_far)?;
    let jump = JumpRow {
        hook: target.hook,
        name,
    };
    match rows_behind(rules.rest, &jump) {
        Some(rest) => Ok(Some(TakenChain {
            name,
            outcome: rules.outcome,
            rest,
        })),
        None => Ok(None),
    }
}

// What the text has behind the remarks that it begins with.
fn behind_remarks(text: &[u8]) -> &[u8]
    ensures { IsBehind IsRemark remark_rows text.now result.now }
{
    let mut rest = text;
    while let Some(remark) = take_remark(rest) {
        rest = remark.rest;
    }
    rest
}

// Takes the rules of the chain that the text begins with, for a packet on which this has been
// decided.
fn take_rules<'a>(
    alloc: Global,
    chain: &OfChain<'_>,
    text: &'a [u8],
    packet: &Packet,
    so_far: Outcome,
) -> Result<TakenRules<'a>, Memory>
    requires { IsChainName chain.now.name.now }
    ensures { IfOk result (TakesRules chain.now.hook chain.now.family chain.now.name.now
        text.now packet.now so_far) }
{
    let mut outcome = so_far;
    let mut rest = text;
    while let Some(taken) = take_rule(alloc, chain, rest)? {
        outcome = one_rule_more(outcome, &taken.item, packet);
        rest = taken.rest;
    }
    Ok(TakenRules { outcome, rest })
}

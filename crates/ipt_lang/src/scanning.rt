ghost use Rattle.std.specs.Prelude.{◌≡◌, IfOk};
ghost use Rattle.acl_packet.specs.Addresses.{same_family};
ghost use Rattle.ipt_lang.specs.ScanSteps.{TakesBody, decided_for};

use crate::chain_rows::TargetRow;
use crate::chain_scans::take_chains;
use crate::iptables::Iptables;
use crate::row_scans::{take_policy, take_target};
use crate::validity::target_words;
use crate::walking::at_end;
use acl_packet::{Family, Outcome, Packet};
use acl_rows::{Scan, TakenSection, are_distinct_names};
use acl_text::Memory;
use std::alloc::Global;

impl Scan for Iptables {
    fn take_section<'a>(
        alloc: Global,
        text: &'a [u8],
        names: &mut Vec<&'a [u8]>,
        packet: &Packet,
    ) -> Result<Option<TakenSection<'a>>, Memory> {
        let Some(head) = take_target(text) else {
            return Ok(None);
        };
        let target = head.item;
        let Some(taken) = take_body(alloc, &target, head.rest, packet)? else {
            return Ok(None);
        };
        names.push(target_words(target.hook, target.family))?;
        Ok(Some(taken))
    }
}

// Takes what a section of the target has behind its first row.
fn take_body<'a>(
    alloc: Global,
    target: &TargetRow,
    text: &'a [u8],
    packet: &Packet,
) -> Result<Option<TakenSection<'a>>, Memory>
    ensures { IfOk result (TakesBody target.now.hook target.now.family text.now packet.now) }
{
    let policy = take_policy(target.hook, text);
    let chains = take_chains(alloc, target, policy.rest, packet)?;
    let outcome = decided_for(target.family, policy.accept, chains.outcome, packet);
    if are_distinct_names(chains.names) {
        Ok(Some(TakenSection {
            outcome,
            rest: chains.rest,
        }))
    } else {
        Ok(None)
    }
}

// What a section of the family does to the packet, where its chains do that.
fn decided_for(
    family: Family,
    accept: Option<bool>,
    so_far: Outcome,
    packet: &Packet,
) -> Option<Outcome>
    ensures { result ≡ decided_for family accept so_far packet.now }
{
    if family == packet.family {
        Some(at_end(accept, so_far))
    } else {
        None
    }
}

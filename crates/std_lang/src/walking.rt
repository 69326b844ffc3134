ghost use Rattle.std.specs.Prelude.{◌≡◌};
ghost use Rattle.std_lang.specs.Walks.{decided_by, first_holding, has_entries, is_entry, walk};

use crate::documents::{Entry, Item};
use acl_packet::{Outcome, Packet, Verdict};
use cisco_lang::verdict_of;

#[tactic(auto, unfolding(crate::specs::Walks::walk))]
pub(crate) fn walk(items: &[Item], packet: &Packet) -> Outcome
    ensures { result ≡ walk items.now packet.now }
{
    if !has_entries(items) {
        return Outcome::unlogged(Verdict::Accept);
    }
    match first_holding(items, packet) {
        Some(outcome) => outcome,
        None => Outcome::unlogged(Verdict::Deny),
    }
}

fn has_entries(items: &[Item]) -> bool
    ensures { result ≡ has_entries items.now }
{
    items.iter().any(|item| is_entry(item))
}

fn is_entry(item: &Item) -> bool
    ensures { result ≡ is_entry item.now }
{
    match item {
        Item::Entry(_) => true,
        Item::Remark(_) => false,
    }
}

#[tactic(auto, unfolding(crate::specs::Walks::first_holding))]
fn first_holding(items: &[Item], packet: &Packet) -> Option<Outcome>
    ensures { result ≡ first_holding items.now packet.now }
{
    for item in items {
        if let Item::Entry(entry) = item {
            if entry.src.contains(packet.src) {
                return Some(decided_by(entry));
            }
        }
    }
    None
}

fn decided_by(entry: &Entry) -> Outcome
    ensures { result ≡ decided_by entry.now }
{
    Outcome {
        verdict: verdict_of(entry.permit),
        logged: entry.log,
    }
}

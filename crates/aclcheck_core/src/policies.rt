ghost use Rattle.std.specs.Prelude.{◌≡◌, ◌++◌, true, flat_map, zip, IfOk, OnOk};
ghost use Rattle.acl_load.specs.LoadFaults.{LoadsFiles};
ghost use Rattle.acl_options.specs.CodeViews.{inputs_view};
ghost use Rattle.acl_packet.specs.Packets.{IsPacket};
ghost use Rattle.aclcheck_core.specs.AnswerSteps.{block_lines, target_lines};
ghost use Rattle.aclcheck_core.specs.CheckAnswers.{AsksPolicyOf, MakesText};

use crate::lines::put_line;
use acl_host::{Day, Tree};
use acl_load::{LoadFault, Loaded, Terms, load};
use acl_options::Inputs;
use acl_packet::Packet;
use acl_policy::Block;
use acl_target::Target;
use acl_terms::Term;
use acl_text::{Memory, PutFault, Whole};
use std::alloc::Global;

// Puts the lines on the targets of a block, which has these terms.
fn put_targets(
    text: &mut Whole,
    today: Day,
    packet: &Packet,
    targets: &[Target],
    terms: &[Term],
) -> Result<(), PutFault>
    requires { text.old.is_open ≡ true }
    ensures text { OnOk result (text.new.bytes ≡ text.old.bytes
        ++ flat_map (target_lines today packet.now terms.now) targets.now) }
    ensures opened { OnOk result (text.new.is_open ≡ true) }
{
    for target in targets {
        if target.families.covers(packet.family) {
            put_line(text, today, packet, target, terms)?;
        }
    }
    Ok(())
}

// Puts the lines on the targets of each block, whose terms are those of the list at its place.
fn put_blocks(
    text: &mut Whole,
    today: Day,
    packet: &Packet,
    blocks: &[Block],
    lists: &[Terms],
) -> Result<(), PutFault>
    requires { text.old.is_open ≡ true }
    ensures text { OnOk result (text.new.bytes ≡ text.old.bytes
        ++ flat_map (block_lines today packet.now) (zip blocks.now lists.now)) }
    ensures opened { OnOk result (text.new.is_open ≡ true) }
{
    let [block, more @ ..] = blocks else {
        return Ok(());
    };
    let [terms, others @ ..] = lists else {
        return Ok(());
    };
    put_targets(
        text,
        today,
        packet,
        block.targets.as_slice(),
        terms.as_slice(),
    )?;
    put_blocks(text, today, packet, more, others)
}

// The lines on all targets of the policy.
fn policy_lines(
    alloc: Global,
    loaded: &Loaded,
    today: Day,
    packet: &Packet,
) -> Result<Whole, Memory>
    ensures { IfOk result (λ text. text.bytes ≡ flat_map (block_lines today packet.now)
        (zip loaded.now.policy.blocks loaded.now.terms)) }
{
    let mut text = Whole::new(alloc);
    let blocks = loaded.policy.blocks.as_slice();
    match put_blocks(&mut text, today, packet, blocks, loaded.terms.as_slice()) {
        Ok(()) => Ok(text),
        Err(_) => Err(Memory),
    }
}

/// The lines that say what each target of the policy does with the packet that day, in order, or the first fault of the
/// naming files and the policy.
///
/// The targets are those whose families hold the packet's. A line is `TARGET: VERDICT by NAME`, with the name of the term
/// that decides, or `TARGET: VERDICT by default`. The limits of platforms are not judged.
pub fn answer_policy<T: Tree>(
    alloc: Global,
    inputs: &Inputs<'_>,
    packet: &Packet,
    today: Day,
    tree: &mut T,
) -> Result<Whole, LoadFault>
    requires { IsPacket packet.now }
    ensures makes { MakesText (AsksPolicyOf (inputs_view inputs.now) packet.now today)
        (T.files tree.old) result }
    ensures looks { LoadsFiles T.Tree tree.old tree.new result }
{
    let loaded = load(alloc, tree, inputs.definitions, inputs.policy)?;
    Ok(policy_lines(alloc, &loaded, today, packet)?)
}

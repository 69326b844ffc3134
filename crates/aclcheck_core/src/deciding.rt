ghost use Rattle.std.specs.Prelude.{◌≡◌, ◌≤◌, Some, map};
ghost use Rattle.std.specs.String.{string_bytes};
ghost use Rattle.acl_options.specs.CheckCommands.{AskPolicy, AskText};
ghost use Rattle.acl_options.specs.CodeViews.{inputs_view, section_view};
ghost use Rattle.acl_options.specs.ComputableChecks.{check_request_of};
ghost use Rattle.acl_packet.specs.Packets.{IsPacket};
ghost use Rattle.acl_run.specs.Deciding.{LooksAlone};
ghost use Rattle.acl_run.specs.Worlds.{Watch, disk, watch};
ghost use Rattle.aclcheck_core.specs.DecidingSteps.{DecidesCheck};

use crate::policies::answer_policy;
use crate::sections::answer_section;
use acl_host::{Clock, Tree};
use acl_options::{CheckCommand, FileSection, Inputs, read_check_command};
use acl_packet::Packet;
use acl_run::{Decision, Which, day_for, decision_on};
use acl_text::Whole;
use std::alloc::Global;

// What is to be told of a policy.
fn decide_policy<T: Tree, C: Clock>(
    alloc: Global,
    inputs: &Inputs<'_>,
    packet: &Packet,
    tree: &mut T,
    clock: &mut C,
) -> Decision<Option<Whole>>
    requires { IsPacket packet.now }
    ensures decides { DecidesCheck (Some (AskPolicy (inputs_view inputs.now) packet.now))
        (disk T.Tree tree.old) (disk T.Tree tree.new)
        (watch C.Clock clock.old) (watch C.Clock clock.new) result }
    ensures alone { LooksAlone result (disk T.Tree tree.old) (disk T.Tree tree.new)
        (watch C.Clock clock.old) (watch C.Clock clock.new) }
{
    let Ok(today) = day_for(inputs.date, clock) else {
        return Decision::Outside(Which::Clock);
    };
    match answer_policy(alloc, inputs, packet, today, tree) {
        Ok(text) => Decision::Planned(Some(text)),
        Err(fault) => decision_on(alloc, fault),
    }
}

// What is to be told of a section of a file, whatever the clock is.
fn decide_section<T: Tree>(
    alloc: Global,
    at: &FileSection<'_>,
    packet: &Packet,
    tree: &mut T,
) -> Decision<Option<Whole>>
    requires packet { IsPacket packet.now }
    requires first { 1 ≤ at.now.number }
    ensures decides { (c : Watch) → DecidesCheck (Some (AskText (section_view at.now) packet.now))
        (disk T.Tree tree.old) (disk T.Tree tree.new) c c result }
    ensures alone { (c : Watch) → LooksAlone result (disk T.Tree tree.old) (disk T.Tree tree.new) c c }
{
    match answer_section(alloc, at, packet, tree) {
        Ok(text) => Decision::Planned(Some(text)),
        Err(fault) => decision_on(alloc, fault),
    }
}

/// Decides what the run is to tell. It looks at the tree, asks the clock where a policy is asked on no named day, and
/// changes nothing.
pub fn decide<T: Tree, C: Clock>(
    alloc: Global,
    words: &[String],
    tree: &mut T,
    clock: &mut C,
) -> Decision<Option<Whole>>
    ensures decides { DecidesCheck (check_request_of (map string_bytes words.now))
        (disk T.Tree tree.old) (disk T.Tree tree.new)
        (watch C.Clock clock.old) (watch C.Clock clock.new) result }
    ensures alone { LooksAlone result (disk T.Tree tree.old) (disk T.Tree tree.new)
        (watch C.Clock clock.old) (watch C.Clock clock.new) }
{
    match read_check_command(alloc, words) {
        Ok(Some(CheckCommand::Policy(inputs, packet))) => {
            decide_policy(alloc, &inputs, &packet, tree, clock)
        }
        Ok(Some(CheckCommand::Text(at, packet))) => { decide_section(alloc, &at, &packet, tree) }
        Ok(None) => Decision::Usage,
        Err(_) => Decision::Memory,
    }
}

ghost use Rattle.std.specs.Prelude.{◌≡◌, option_map};
ghost use Rattle.acl_packet.specs.Outcomes.{unlogged};
ghost use Rattle.acl_target.specs.FilterEndings.{ending_outcome, ending_verdict};
ghost use Rattle.acl_terms.specs.Outcomes.{decides, expressed_on, mode_of, outcome_of};
ghost use Rattle.aclcheck_core.specs.AnswerSteps.{deciding_term};

use acl_host::Day;
use acl_packet::{Family, Outcome, Packet, Verdict};
use acl_target::{Ending, Kind, Target};
use acl_terms::{Mode, Term, is_live, matches};

fn mode_of(target: &Target) -> Mode
    ensures { result ≡ mode_of target.now }
{
    if target.stateful {
        Mode::Stateful
    } else {
        Mode::Stateless
    }
}

// Whether the term is live on the target, and matches the packet there.
fn decides(target: &Target, today: Day, packet: &Packet, term: &Term) -> bool
    ensures { result ≡ decides target.now today packet.now term.now }
{
    is_live(term, target.kind, today) && matches(term, mode_of(target), packet)
}

/// The first of the terms that decides the packet on the target.
pub(crate) fn deciding_term<'a>(
    target: &Target,
    today: Day,
    packet: &Packet,
    terms: &'a [Term],
) -> Option<&'a Term>
    ensures { option_map (λ t. t.now) result ≡ deciding_term target.now today packet.now terms.now }
{
    terms
        .iter()
        .find(|term| decides(target, today, packet, term))
}

fn ending_verdict(ending: Ending, packet: &Packet) -> Verdict
    ensures { result ≡ ending_verdict ending packet.now }
{
    match ending {
        Ending::Accept => Verdict::Accept,
        Ending::Deny => Verdict::Deny,
        Ending::Left => Verdict::Left,
        Ending::Neighbours => {
            if packet.family == Family::V6 && packet.is_neighbour_discovery() {
                Verdict::Accept
            } else {
                Verdict::Deny
            }
        }
    }
}

/// What becomes of a packet that no term decides.
#[tactic(auto, unfolding(acl_target::specs::FilterEndings::ending_outcome))]
pub(crate) fn ending_outcome(ending: Ending, packet: &Packet) -> Outcome
    ensures { result ≡ ending_outcome ending packet.now }
{
    Outcome {
        verdict: ending_verdict(ending, packet),
        logged: false,
    }
}

/// What becomes of one that the term decides.
pub(crate) fn term_outcome(term: &Term) -> Outcome
    ensures { result ≡ outcome_of term.now }
{
    Outcome {
        verdict: term.verdict,
        logged: term.log,
    }
}

/// What the platform can show of the outcome: Cisco lists permit and deny alone.
pub(crate) fn expressed_on(kind: Kind, outcome: Outcome) -> Outcome
    ensures { result ≡ expressed_on kind outcome }
{
    match (kind, outcome.verdict) {
        (Kind::Cisco, Verdict::Reject | Verdict::Reset) => Outcome {
            verdict: Verdict::Deny,
            logged: outcome.logged,
        },
        _ => outcome,
    }
}

ghost use Rattle.std.specs.Prelude.{◌≡◌, ◌++◌, true, OnOk};
ghost use Rattle.aclcheck_core.specs.AnswerSteps.{decided_line, decided_of, named_line};
ghost use Rattle.aclcheck_core.specs.PolicyAnswers.{logged_text, outcome_text, verdict_text};

use crate::verdicts::{deciding_term, ending_outcome, expressed_on, term_outcome};
use acl_host::Day;
use acl_packet::{Outcome, Packet, Verdict};
use acl_target::{Target, put_target};
use acl_terms::Term;
use acl_text::{Out, PutFault, Whole};

fn verdict_text(verdict: Verdict) -> &'static [u8]
    ensures { result.now ≡ verdict_text verdict }
{
    match verdict {
        Verdict::Accept => b"accept",
        Verdict::Deny => b"deny",
        Verdict::Reject => b"reject",
        Verdict::Reset => b"reset",
        Verdict::Left => b"left",
    }
}

fn logged_text(logged: bool) -> &'static [u8]
    ensures { result.now ≡ logged_text logged }
{
    if logged { b" logged" } else { b"" }
}

/// Puts the verdict's word, and that the packet is logged where it is.
pub(crate) fn put_outcome(text: &mut Whole, outcome: Outcome) -> Result<(), PutFault>
    requires { text.old.is_open ≡ true }
    ensures text { OnOk result (text.new.bytes ≡ text.old.bytes ++ outcome_text outcome) }
    ensures opened { OnOk result (text.new.is_open ≡ true) }
{
    text.put(verdict_text(outcome.verdict))?;
    text.put(logged_text(outcome.logged))
}

// Puts the line on the target: what is shown of the outcome there, and who decided.
#[tactic(auto, unfolding(crate::specs::AnswerSteps::named_line))]
fn put_decided(
    text: &mut Whole,
    target: &Target,
    outcome: Outcome,
    by: &[u8],
) -> Result<(), PutFault>
    requires { text.old.is_open ≡ true }
    ensures text { OnOk result (text.new.bytes ≡ text.old.bytes
        ++ named_line target.now outcome by.now) }
    ensures opened { OnOk result (text.new.is_open ≡ true) }
{
    put_target(text, target)?;
    text.put(b": ")?;
    put_outcome(text, expressed_on(target.kind, outcome))?;
    text.put(b" by ")?;
    text.put(by)?;
    text.put(b"\n")
}

/// Puts the line on the target, whose block has these terms.
pub(crate) fn put_line(
    text: &mut Whole,
    today: Day,
    packet: &Packet,
    target: &Target,
    terms: &[Term],
) -> Result<(), PutFault>
    requires { text.old.is_open ≡ true }
    ensures text { OnOk result (text.new.bytes ≡ text.old.bytes
        ++ decided_line target.now (decided_of target.now today packet.now terms.now)) }
    ensures opened { OnOk result (text.new.is_open ≡ true) }
{
    match deciding_term(target, today, packet, terms) {
        Some(term) => put_decided(text, target, term_outcome(term), term.name.as_slice()),
        None => put_decided(
            text,
            target,
            ending_outcome(target.ending, packet),
            b"default",
        ),
    }
}

ghost use Rattle.std.specs.Prelude.{◌≡◌, ◌++◌, true, OnOk};
ghost use Rattle.acltool_core.specs.TermAnswers.{decided_line, decided_text};

use acl_dead::Decided;
use acl_options::put_packet;
use acl_report::put_term;
use acl_target::{Target, put_target};
use acl_terms::Term;
use acl_text::{Memory, Out, PutFault, Whole};
use acl_words::Sources;

fn put_decided(text: &mut Whole, decided: &Decided) -> Result<(), PutFault>
    requires { text.old.is_open ≡ true }
    ensures text { OnOk result (text.new.bytes ≡ text.old.bytes ++ decided_text decided.now) }
    ensures opened { OnOk result (text.new.is_open ≡ true) }
{
    match decided {
        Decided::Packet(packet) => {
            text.put(b"decides ")?;
            put_packet(text, packet)
        }
        Decided::Dead => text.put(b"dead"),
        Decided::Undecided => text.put(b"undecided"),
    }
}

#[tactic(auto, unfolding(crate::specs::TermAnswers::decided_line))]
fn put_line(
    text: &mut Whole,
    sources: &Sources,
    term: &Term,
    target: &Target,
    decided: &Decided,
) -> Result<(), PutFault>
    requires { text.old.is_open ≡ true }
    ensures text { OnOk result (text.new.bytes ≡ text.old.bytes
        ++ decided_line sources.now.labels term.now target.now decided.now) }
    ensures opened { OnOk result (text.new.is_open ≡ true) }
{
    put_term(text, sources, term)?;
    text.put(b" on ")?;
    put_target(text, target)?;
    text.put(b": ")?;
    put_decided(text, decided)?;
    text.put(b"\n")
}

/// Puts the line on what the term decides on the target. It fails only where memory is wanted.
pub(crate) fn put_decided_line(
    text: &mut Whole,
    sources: &Sources,
    term: &Term,
    target: &Target,
    decided: &Decided,
) -> Result<(), Memory>
    requires { text.old.is_open ≡ true }
    ensures text { OnOk result (text.new.bytes ≡ text.old.bytes
        ++ decided_line sources.now.labels term.now target.now decided.now) }
    ensures opened { OnOk result (text.new.is_open ≡ true) }
{
    match put_line(text, sources, term, target, decided) {
        Ok(()) => Ok(()),
        Err(_) => Err(Memory),
    }
}

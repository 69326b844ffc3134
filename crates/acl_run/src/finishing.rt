ghost use Rattle.acl_run.specs.Worlds.{stream};
ghost use Rattle.acl_run.specs.Finishing.{Finishes};

use crate::deciding::Decision;
use crate::endings::{Ended, Which};
use crate::programs::Program;
use crate::telling::{refuse, report_on, tell_outside};
use acl_host::Sink;
use acl_text::Whole;

/// Ends a run, once it is decided what to tell: the text goes to standard output in one write, or the line of a refusal
/// or a failure to standard error. Where there is nothing to tell, no call is made.
pub fn finish<P: Program, O: Sink, E: Sink>(
    decision: Decision<Option<Whole>>,
    out: &mut O,
    err: &mut E,
) -> Ended
    ensures { Finishes P.name P.usage decision
        (stream O.Sink out.old) (stream O.Sink out.new)
        (stream E.Sink err.old) (stream E.Sink err.new) result }
{
    match decision {
        Decision::Usage => refuse(err, P::usage_line().as_bytes(), Ended::Usage),
        Decision::Refused(fault, line) => refuse(err, line.as_slice(), Ended::Rejected(fault)),
        Decision::Planned(None) => Ended::Done,
        Decision::Planned(Some(text)) => {
            report_on(text.as_slice(), P::outside_line(Which::Out), out, err)
        }
        Decision::Outside(which) => tell_outside(err, P::outside_line(which), which),
        Decision::Memory => Ended::Memory,
    }
}

ghost use Rattle.std.specs.Prelude.{◌≡◌, ◌<◌, ◌++◌, [], true, codes, flat_map, length, slice_get, OnOk, Some};
ghost use Rattle.std.specs.List.{enumerate_from};
ghost use Rattle.acl_host.specs.DaySteps.{date_text};
ghost use Rattle.acl_shade.specs.ComputableShading.{shading_term};
ghost use Rattle.acl_shade.specs.ShadedPlaces.{AreShadedPlaces};
ghost use Rattle.acl_report.specs.Reports.{
  empty_line,
  empty_lines,
  expired_lines,
  expires_lines,
  shaded_lines,
  term_lines,
  term_text,
};

use crate::conditions::{expires_within, has_expired, is_empty_on};
use acl_host::{Day, put_day};
use acl_load::label_at;
use acl_shade::shading_term;
use acl_target::{Target, put_target};
use acl_terms::Term;
use acl_text::{Out, PutFault, Whole, put_number};
use acl_words::Sources;

/// Puts the place and the name of the term, with which a line on it begins. It fails only where memory is wanted.
#[tactic(auto, unfolding(crate::specs::Reports::term_text))]
pub fn put_term(report: &mut Whole, sources: &Sources, term: &Term) -> Result<(), PutFault>
    requires { report.old.is_open ≡ true }
    ensures text { OnOk result (report.new.bytes
        ≡ report.old.bytes ++ term_text sources.now.labels term.now) }
    ensures opened { OnOk result (report.new.is_open ≡ true) }
{
    report.put(label_at(sources, term.place.file))?;
    report.put(b":")?;
    put_number(report, u128::from(term.place.line))?;
    report.put(b": term ")?;
    report.put(term.name.as_slice())
}

// Puts a line on the term: these words, and the day.
fn put_on_day(
    report: &mut Whole,
    sources: &Sources,
    term: &Term,
    words: &[u8],
    day: Day,
) -> Result<(), PutFault>
    requires { report.old.is_open ≡ true }
    ensures text { OnOk result (report.new.bytes ≡ report.old.bytes
        ++ (term_text sources.now.labels term.now ++ words.now ++ date_text day.number ++ codes "\n")) }
    ensures opened { OnOk result (report.new.is_open ≡ true) }
{
    put_term(report, sources, term)?;
    report.put(words)?;
    put_day(report, day)?;
    report.put(b"\n")
}

/// A block, of whose terms the lines are put.
#[derive(Clone, Copy)]
pub(crate) struct BlockLines<'a> {
    /// The labels of the files that the terms stand in.
    pub(crate) sources: &'a Sources,
    pub(crate) today: Day,
    /// How many weeks before its day of expiry a term is told of.
    pub(crate) weeks: u16,
    pub(crate) targets: &'a [Target],
    pub(crate) terms: &'a [Term],
    /// For each term the place of the first one that shades it.
    pub(crate) shaded: &'a [Option<usize>],
}

impl<'a> BlockLines<'a> {
    // Puts that the term expired, where it did.
    fn put_expired(&self, report: &mut Whole, term: &Term) -> Result<(), PutFault>
        requires { report.old.is_open ≡ true }
        ensures text { OnOk result (report.new.bytes ≡ report.old.bytes
            ++ expired_lines self.now.sources.now.labels self.now.today term.now term.now.expires) }
        ensures opened { OnOk result (report.new.is_open ≡ true) }
    {
        match term.expires {
            Some(day) if has_expired(self.today, day) => {
                put_on_day(report, self.sources, term, b" expired on ", day)
            }
            _ => Ok(()),
        }
    }

    // Puts that the term expires, where it does within so many weeks.
    fn put_expires(&self, report: &mut Whole, term: &Term) -> Result<(), PutFault>
        requires { report.old.is_open ≡ true }
        ensures text { OnOk result (report.new.bytes ≡ report.old.bytes
            ++ expires_lines self.now.sources.now.labels self.now.today self.now.weeks term.now
            term.now.expires) }
        ensures opened { OnOk result (report.new.is_open ≡ true) }
    {
        match term.expires {
            Some(day) if expires_within(self.today, self.weeks, day) => {
                put_on_day(report, self.sources, term, b" expires on ", day)
            }
            _ => Ok(()),
        }
    }

    // Puts which term shades the one at the place, where one does.
    fn put_shaded(&self, report: &mut Whole, place: usize, term: &Term) -> Result<(), PutFault>
        requires open { report.old.is_open ≡ true }
        requires there { place < length self.now.terms.now }
        requires shaded { AreShadedPlaces self.now.targets.now self.now.today self.now.terms.now
            self.now.shaded.now }
        ensures text { OnOk result (report.new.bytes ≡ report.old.bytes
            ++ shaded_lines self.now.sources.now.labels term.now
            (shading_term self.now.targets.now self.now.today self.now.terms.now place)) }
        ensures opened { OnOk result (report.new.is_open ≡ true) }
    {
        let Some(other) = shading_term(self.terms, self.shaded, place) else {
            return Ok(());
        };
        put_term(report, self.sources, term)?;
        report.put(b" shaded by ")?;
        report.put(other.name.as_slice())?;
        report.put(b"\n")
    }

    // Puts that the term is empty on the target.
    fn put_empty(&self, report: &mut Whole, term: &Term, target: &Target) -> Result<(), PutFault>
        requires { report.old.is_open ≡ true }
        ensures text { OnOk result (report.new.bytes
            ≡ report.old.bytes ++ empty_line self.now.sources.now.labels term.now target.now) }
        ensures opened { OnOk result (report.new.is_open ≡ true) }
    {
        put_term(report, self.sources, term)?;
        report.put(b" empty on ")?;
        put_target(report, target)?;
        report.put(b"\n")
    }

    // Puts on which of the targets the term is empty.
    fn put_empties(&self, report: &mut Whole, term: &Term) -> Result<(), PutFault>
        requires { report.old.is_open ≡ true }
        ensures text { OnOk result (report.new.bytes ≡ report.old.bytes
            ++ flat_map (empty_lines self.now.sources.now.labels self.now.today term.now)
            self.now.targets.now) }
        ensures opened { OnOk result (report.new.is_open ≡ true) }
    {
        for target in self.targets {
            if is_empty_on(self.today, target, term) {
                self.put_empty(report, term, target)?;
            }
        }
        Ok(())
    }

    /// Puts the lines on the term at the place.
    #[tactic(auto, unfolding(crate::specs::Reports::term_lines))]
    fn put_term_lines(&self, report: &mut Whole, place: usize, term: &Term) -> Result<(), PutFault>
        requires open { report.old.is_open ≡ true }
        requires there { place < length self.now.terms.now }
        requires shaded { AreShadedPlaces self.now.targets.now self.now.today self.now.terms.now
            self.now.shaded.now }
        ensures text { OnOk result (report.new.bytes ≡ report.old.bytes
            ++ term_lines self.now.sources.now.labels self.now.today self.now.weeks
            self.now.targets.now self.now.terms.now (place, term.now)) }
        ensures opened { OnOk result (report.new.is_open ≡ true) }
    {
        self.put_expired(report, term)?;
        self.put_expires(report, term)?;
        self.put_shaded(report, place, term)?;
        self.put_empties(report, term)
    }

    /// Puts the lines on the terms of the block.
    pub(crate) fn put_into(&self, report: &mut Whole) -> Result<(), PutFault>
        requires open { report.old.is_open ≡ true }
        requires shaded { AreShadedPlaces self.now.targets.now self.now.today self.now.terms.now
            self.now.shaded.now }
        ensures text { OnOk result (report.new.bytes ≡ report.old.bytes
            ++ flat_map (term_lines self.now.sources.now.labels self.now.today self.now.weeks
            self.now.targets.now self.now.terms.now) (enumerate_from 0 self.now.terms.now)) }
        ensures opened { OnOk result (report.new.is_open ≡ true) }
    {
        for (place, term) in self.terms.iter().enumerate() {
            self.put_term_lines(report, place, term)?;
        }
        Ok(())
    }
}

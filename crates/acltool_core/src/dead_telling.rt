ghost use Rattle.std.specs.Prelude.{◌≡◌, ◌<◌, ◌≤◌, ◌∷◌, [], true, drop, flat_map, length, map, zip, IfOk, OnOk};
ghost use Rattle.std.specs.List.{enumerate_from};
ghost use Rattle.acl_load.specs.LoadFaults.{LoadsFiles};
ghost use Rattle.acl_options.specs.CodeViews.{inputs_view};
ghost use Rattle.acl_run.specs.PolicyAnswers.{Makes};
ghost use Rattle.acltool_core.specs.TellingSteps.{Tells};
ghost use Rattle.acltool_core.specs.TermAnswers.{
  AnswersDead,
  IsReady,
  block_questions,
  question_on,
  questions_of,
  term_questions,
};

use crate::dead_lines::put_decided_line;
use acl_dead::decide;
use acl_host::{Day, Tree};
use acl_load::{LoadFault, Loaded, Terms, load};
use acl_options::Inputs;
use acl_policy::Block;
use acl_target::Target;
use acl_terms::Term;
use acl_text::{Memory, Whole};
use acl_words::Sources;
use std::alloc::Global;

// A block, of whose terms the lines are put.
#[derive(Clone, Copy)]
struct BlockLines<'a> {
    alloc: Global,
    // The labels of the files that the terms stand in.
    sources: &'a Sources,
    today: Day,
    targets: &'a [Target],
    terms: &'a [Term],
}

impl<'a> BlockLines<'a> {
    // Puts the line on the term at the place, on the target.
    fn put_on_target(
        &self,
        text: &mut Whole,
        place: usize,
        term: &Term,
        target: &Target,
    ) -> Result<(), Memory>
        requires open { text.old.is_open ≡ true }
        requires there { place < length self.now.terms.now }
        ensures tells { OnOk result (Tells self.now.sources.now.labels self.now.today
            (question_on self.now.terms.now place term.now target.now ∷ []) text.old.bytes text.new.bytes) }
        ensures opened { OnOk result (text.new.is_open ≡ true) }
    {
        let decided = decide(self.alloc, self.terms, target, self.today, place)?;
        put_decided_line(text, self.sources, term, target, &decided)
    }

    // Puts the lines on the term at the place, on each of the targets.
    fn put_on_targets(
        &self,
        text: &mut Whole,
        place: usize,
        term: &Term,
        targets: &[Target],
    ) -> Result<(), Memory>
        requires open { text.old.is_open ≡ true }
        requires there { place < length self.now.terms.now }
        ensures tells { OnOk result (Tells self.now.sources.now.labels self.now.today
            (map (question_on self.now.terms.now place term.now) targets.now) text.old.bytes text.new.bytes) }
        ensures opened { OnOk result (text.new.is_open ≡ true) }
    {
        match targets {
            [] => Ok(()),
            [target, more @ ..] => {
                self.put_on_target(text, place, term, target)?;
                self.put_on_targets(text, place, term, more)
            }
        }
    }

    // Puts the lines on the terms from the place on.
    fn put_terms(&self, text: &mut Whole, place: usize) -> Result<(), Memory>
        requires open { text.old.is_open ≡ true }
        requires within { place ≤ length self.now.terms.now }
        ensures tells { OnOk result (Tells self.now.sources.now.labels self.now.today
            (flat_map (term_questions self.now.targets.now self.now.terms.now)
            (enumerate_from place (drop place self.now.terms.now))) text.old.bytes text.new.bytes) }
        ensures opened { OnOk result (text.new.is_open ≡ true) }
    {
        match self.terms.get(place) {
            Some(term) => {
                self.put_on_targets(text, place, term, self.targets)?;
                self.put_terms(text, place + 1)
            }
            None => Ok(()),
        }
    }
}

// Puts the lines on the terms of each block, which are those of the list at its place.
fn put_blocks(
    alloc: Global,
    text: &mut Whole,
    sources: &Sources,
    today: Day,
    blocks: &[Block],
    lists: &[Terms],
) -> Result<(), Memory>
    requires { text.old.is_open ≡ true }
    ensures tells { OnOk result (Tells sources.now.labels today
        (flat_map block_questions (zip blocks.now lists.now)) text.old.bytes text.new.bytes) }
    ensures opened { OnOk result (text.new.is_open ≡ true) }
{
    let [block, more @ ..] = blocks else {
        return Ok(());
    };
    let [terms, others @ ..] = lists else {
        return Ok(());
    };
    let lines = BlockLines {
        alloc,
        sources,
        today,
        targets: block.targets.as_slice(),
        terms: terms.as_slice(),
    };
    lines.put_terms(text, 0)?;
    put_blocks(alloc, text, sources, today, more, others)
}

// The lines on all terms of the policy.
fn policy_lines(alloc: Global, loaded: &Loaded, today: Day) -> Result<Whole, Memory>
    ensures { IfOk result (λ text. Tells loaded.now.sources.labels today (questions_of loaded.now) [] text.bytes) }
{
    let mut text = Whole::new(alloc);
    let blocks = loaded.policy.blocks.as_slice();
    let lists = loaded.terms.as_slice();
    put_blocks(alloc, &mut text, &loaded.sources, today, blocks, lists)?;
    Ok(text)
}

/// The lines that say of each term of the policy, and each target of its block, which packet the term decides there that
/// day, in order; or the first fault of the naming files and the policy.
///
/// A line is `LABEL:LINE: term NAME on TARGET: decides PACKET`, or has `dead` or `undecided` in place of the packet, as
/// `acl_dead::decide` answers. The limits of platforms are not judged.
pub fn tell_dead<T: Tree>(
    alloc: Global,
    inputs: &Inputs<'_>,
    today: Day,
    tree: &mut T,
) -> Result<Option<Whole>, LoadFault>
    ensures makes { Makes (AnswersDead (inputs_view inputs.now) today) IsReady (T.files tree.old) result }
    ensures looks { LoadsFiles T.Tree tree.old tree.new result }
{
    let loaded = load(alloc, tree, inputs.definitions, inputs.policy)?;
    Ok(Some(policy_lines(alloc, &loaded, today)?))
}

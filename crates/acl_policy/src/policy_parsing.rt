ghost use Rattle.std.specs.Prelude.{◌≡◌, List, [], IfErr, IfOk, IfSome, OnOk};
ghost use Rattle.acl_words.specs.Words.{words_of};
ghost use Rattle.acl_text.specs.declared.file_lines.Line.{Line};
ghost use Rattle.acl_words.specs.Labels.{HasLabel};
ghost use Rattle.acl_words.specs.Places.{HaveLinePlaces};
ghost use Rattle.acl_policy.specs.Conditions.{IsPolicy};
ghost use Rattle.acl_policy.specs.PolicyPlaces.{PolicyStands, IsSlipPlace};
ghost use Rattle.acl_text.specs.Answers.{Gives, Leaves, Stops, slip_told};
ghost use Rattle.acl_policy.specs.Terms.{no_draft};
ghost use Rattle.acl_policy.specs.Policies.{start, last_place, end_of, policy_of};
ghost use Rattle.acl_policy.specs.JudgingSteps.{rest_of};
ghost use Rattle.acl_policy.specs.Slips.{start_place};

use crate::blocks::Policy;
use crate::judging::end_block;
use crate::named_terms::NamedTerms;
use crate::open_terms::OpenTerm;
use crate::states::{Part, PolicyState};
use crate::word_judges::Judge;
use acl_text::{Code, Items, Place, Refusal};
use acl_words::{PolicyWords, Sources};
use std::alloc::Global;
use std::mem;

fn start(alloc: Global) -> PolicyState
    ensures { result ≡ start }
{
    PolicyState {
        blocks: Items::new(alloc),
        earlier: Items::new(alloc),
        targets: Items::new(alloc),
        terms: NamedTerms::new(alloc),
        term_count: 0,
        part: Part::Start,
        draft: OpenTerm::none(),
    }
}

/// Judges the words that are left, and gives the place of the last one.
fn judge_all<'a>(
    alloc: Global,
    judge: &mut Judge<'a>,
    words: &mut PolicyWords<'a>,
) -> Result<Place, Refusal>
    ensures goes_on { OnOk result (rest_of judge.old words.old ≡ rest_of judge.new []) }
    ensures slip { IfErr result (λ e. Stops slip_told e (rest_of judge.old words.old)) }
    ensures last { IfOk result (λ place. place ≡ last_place start_place words.old) }
{
    let mut last = Place { file: 0, line: 0 };
    while let Some(word) = words.next() {
        last = word.place();
        judge.take(alloc, word)?;
    }
    Ok(last)
}

#[tactic(auto, using(crate::proofs::JudgingLaws::nothing_comes))]
fn judge_rest<'a>(
    alloc: Global,
    judge: &mut Judge<'a>,
    words: &mut PolicyWords<'a>,
) -> Result<Place, Refusal>
    ensures gives { Leaves slip_told judge.new.state result (rest_of judge.old words.old) }
    ensures last { IfOk result (λ place. place ≡ last_place start_place words.old) }
{
    let last = judge_all(alloc, judge, words)?;
    judge.judge_held(alloc)?;
    Ok(last)
}

#[tactic(auto, unfolding(crate::specs::Policies::end_of))]
fn end(alloc: Global, state: &mut PolicyState, place: Place) -> Result<Policy, Refusal>
    ensures { Gives slip_told result (end_of state.old.part state.old place) }
{
    match state.part {
        Part::Start => { Err(Refusal::at(alloc, Code::Missing, place, b"header")) }
        Part::HeaderEnd => { Err(Refusal::at(alloc, Code::Missing, place, b"term")) }
        Part::TermEnd => {
            end_block(alloc, state)?;
            let blocks = mem::replace(&mut state.blocks, Items::new(alloc));
            Ok(Policy { blocks })
        }
        _ => { Err(Refusal::at(alloc, Code::Syntax, place, b"end")) }
    }
}

#[tactic(auto, unfolding(crate::specs::Policies::policy_of, crate::specs::JudgingSteps::rest_behind))]
fn judge_policy(alloc: Global, words: &mut PolicyWords<'_>) -> Result<Policy, Refusal>
    ensures { Gives slip_told result (policy_of words.old) }
{
    let mut judge = Judge::new(alloc, start(alloc));
    let place = judge_rest(alloc, &mut judge, words)?;
    end(alloc, &mut judge.state, place)
}

fn read_policy(alloc: Global, words: &mut PolicyWords<'_>) -> Result<Policy, Refusal>
    ensures gives { Gives slip_told result (policy_of words.old) }
    ensures fits { IfOk result IsPolicy }
    ensures places { (lines : List Line) → HaveLinePlaces lines words.old
        → IfOk result (PolicyStands lines) }
    ensures slip { (lines : List Line) → HaveLinePlaces lines words.old
        → IfErr result (λ e. IfSome (slip_told e) (λ s. IsSlipPlace lines s.place)) }
{
    judge_policy(alloc, words)
}

/// The policy of the lines, or the first slip in them.
///
/// The words are judged from left to right. A policy that is read fulfils `IsPolicy`: each word is one that
/// its keyword takes, each target is such as its line gives it, no two targets clash, the numbers of a
/// platform's targets and the names of a block's terms differ, and there are at most 64 targets and 1,024
/// terms. Each target and each word has the place of one of the lines; a slip has such a place too, or line 0
/// of the policy, so that its file has a label.
pub fn parse(alloc: Global, sources: &Sources) -> Result<Policy, Refusal>
    ensures gives { Gives slip_told result (policy_of (words_of sources.now.lines)) }
    ensures fits { IfOk result IsPolicy }
    ensures places { IfOk result (PolicyStands sources.now.lines) }
    ensures slip { IfErr result (λ e. IfSome (slip_told e)
        (λ s. IsSlipPlace sources.now.lines s.place)) }
    ensures labelled { IfErr result (λ e. IfSome (slip_told e)
        (λ s. HasLabel sources.now.labels s.place)) }
{
    let mut words = PolicyWords::new(sources.lines());
    read_policy(alloc, &mut words)
}

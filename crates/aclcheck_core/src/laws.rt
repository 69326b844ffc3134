ghost use Rattle.aclcheck_core.specs.CheckLaws.{PolicyAnswersAreOne, SectionAnswersAreOne, SectionsAnswerAsThePolicy};
ghost use Rattle.aclcheck_core.specs.Deciders.{OutcomesAreThePolicys};

use acl_filters::a_text_has_one_document;

/// A law: what is told to become of a packet is what the policy decides.
pub fn outcomes_are_the_policys()
    ensures { OutcomesAreThePolicys }
{}

/// A law: a question has one answer at most.
pub fn answers_are_one()
    ensures policies { PolicyAnswersAreOne }
    ensures sections { SectionAnswersAreOne }
{
    a_text_has_one_document();
}

/// A law: where a target has no slip, the section that is written for it does to the packet what is told of the policy.
pub fn sections_answer_as_the_policy()
    ensures { SectionsAnswerAsThePolicy }
{}

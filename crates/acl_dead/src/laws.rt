ghost use Rattle.acl_dead.specs.Deciding.{AnswersAreOne};

/// A law: a question has one answer.
pub fn answers_are_one()
    ensures { AnswersAreOne }
{}

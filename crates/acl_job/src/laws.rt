ghost use Rattle.std.specs.Prelude.{◌≡◌, ℕ, List, Option, Some, Result, Err};
ghost use Rattle.acl_text.specs.AnsweredCodes.{IsAnswered};
ghost use Rattle.acl_text.specs.declared.faults.Fault.{Fault};
ghost use Rattle.acl_host.specs.declared.days.Day.{Day};
ghost use Rattle.acl_host.specs.Files.{File};
ghost use Rattle.acl_job.specs.Job.{IsJob, Plan};
ghost use Rattle.acl_job.specs.PlannedTexts.{PlannedTextsAreOfSections};

/// A law: a job has one answer.
pub fn jobs_are_one()
    ensures { (words : List (List ℕ)) → (day : Day) → (files : List File)
        → (a : Option (Result Plan Fault)) → (b : Option (Result Plan Fault))
        → IsJob words day files a → IsJob words day files b → a ≡ b }
{}

/// A law: a job has an answer, for all words, days and files.
pub fn jobs_are_there()
    ensures { (words : List (List ℕ)) → (day : Day) → (files : List File)
        → (job : Option (Result Plan Fault)) × IsJob words day files job }
{}

/// A law: the text of each file of a job's plan spells the sections that the file's filters become, one for
/// each target, in order, which decide as the policy does.
pub fn planned_texts_are_of_sections()
    ensures { PlannedTextsAreOfSections }
{}

/// A law: the fault of a job has one of the codes that `aclgen` answers, which are all but five.
#[tactic(auto, using(crate::proofs::AnsweredFaults::job_answered))]
pub fn faults_are_answered()
    ensures { (words : List (List ℕ)) → (day : Day) → (files : List File) → (fault : Fault)
        → IsJob words day files (Some (Err fault)) → IsAnswered fault.code }
{}

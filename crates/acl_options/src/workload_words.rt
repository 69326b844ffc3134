ghost use Rattle.std.specs.Prelude.{◌≡◌, ℕ, IfNone, IfSome, map};
ghost use Rattle.std.specs.String.{string_bytes};
ghost use Rattle.acl_options.specs.ComputableCommands.{count_in};
ghost use Rattle.acl_options.specs.WorkloadWords.{IsWorkload, workload_of};

use acl_text::read_u16;

pub fn count_in(text: &str) -> Option<u32>
    ensures { result ≡ count_in 1024 text.now }
{
    let count = read_u16(text.as_bytes(), 1024)?;
    if count == 0 {
        None
    } else {
        Some(u32::from(count))
    }
}

fn workload_of(words: &[String]) -> Option<u32>
    ensures { result ≡ workload_of (map string_bytes words.now) }
{
    match words {
        [name, text] if name.as_str() == "--workload" => count_in(text.as_str()),
        _ => None,
    }
}

/// The number of the workload that the words behind the program's name ask for, or none where they are other words than
/// `--workload N`.
///
/// They are exactly these two words, and `N` is a number from 1 to 1024 in decimal digits.
#[tactic(auto, using(crate::proofs::WorkloadLaws::workload_some, crate::proofs::WorkloadLaws::workload_none))]
pub fn read_workload(words: &[String]) -> Option<u32>
    ensures some { IfSome result (IsWorkload (map string_bytes words.now)) }
    ensures none { IfNone result ((n : ℕ) → IsWorkload (map string_bytes words.now) n → ⊥) }
    ensures exact { result ≡ workload_of (map string_bytes words.now) }
{
    workload_of(words)
}

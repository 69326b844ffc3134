ghost use Rattle.std.specs.Prelude.{◌≡◌, ◌+◌, ◌≤◌, ◌↔◌, ◌++◌, ℕ, List, refl, IfNone, IfSome, IsTrue, length, is_none, Some, ◌==◌};
ghost use Rattle.std.specs.List.{common_prefix_len};
ghost use Rattle.std.proofs.Common.{◌∙◌};
ghost use Rattle.acl_rows.specs.Rows.{text_of_rows};
ghost use Rattle.acl_rows.specs.ComparingSteps.{IsCompared, taken, faults_of};

use crate::rows::Rows;
use acl_text::{Out, PutFault};

/// Whether the bytes are the text of the rows.
pub fn is_text_of<R: Rows>(bytes: &[u8], rows: &R) -> bool
    ensures { IsTrue result ↔ (bytes.now ≡ text_of_rows (R.rows rows.now)) }
{
    match rows_behind(bytes, rows) {
        Some(rest) => rest.is_empty(),
        None => false,
    }
}

/// What the bytes have behind the text of the rows, where they begin with it.
pub fn rows_behind<'a, R: Rows>(bytes: &'a [u8], rows: &R) -> Option<&'a [u8]>
    ensures some { IfSome result (λ rest.
        bytes.now ≡ text_of_rows (R.rows rows.now) ++ rest.now) }
    ensures none { IfNone result ((rest : List ℕ)
        → bytes.now ≡ text_of_rows (R.rows rows.now) ++ rest → ⊥) }
{
    let mut out = Comparing {
        text: bytes,
        place: 0,
        other: None,
    };
    match rows.put_rows(&mut out) {
        Ok(()) => Some(&bytes[out.place..]),
        Err(_) => None,
    }
}

// An output that compares what it takes with a text, and fails at the first byte that differs.
#[derive(Drop)]
struct Comparing<'a> {
    text: &'a [u8],
    place: usize,
    other: Option<u8>,
    ghost is_compared: { IsCompared text.now place other },
}

impl<'a> Out for Comparing<'a> {
    ghost told = { λ c. Some (taken c.text.now c.place c.other) };

    ghost faults = { λ c. faults_of c.other };

    ghost refusals = { λ c. 0 };

    ghost is_open = { λ c. is_none c.other };

    ghost keeps_rest = { λ x y. y.text.now ≡ x.text.now };

    ghost rest_same = { λ x. refl };

    ghost rest_goes_on = { λ x y z h k. k ∙ h };

    fn put(&mut self, bytes: &[u8]) -> Result<(), PutFault> {
        let (_, rest) = self.text.split_at(self.place);
        let same = same_front(rest, bytes);
        self.place += same;
        if same == bytes.len() {
            Ok(())
        } else {
            self.other = Some(bytes[same]);
            Err(PutFault::Failed)
        }
    }
}

// How many bytes at the front are the same.
fn same_front(bytes: &[u8], others: &[u8]) -> usize
    ensures exact { result ≡ common_prefix_len (λ a b. a == b) bytes.now others.now }
    ensures fits { result ≤ length bytes.now }
    ensures within { result ≤ length others.now }
{
    for (i, other) in others.iter().enumerate() {
        if i == bytes.len() || bytes[i] != *other {
            return i;
        }
    }
    others.len()
}

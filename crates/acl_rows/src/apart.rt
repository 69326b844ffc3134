ghost use Rattle.std.specs.Prelude.{◌≡◌, ◌↔◌, IsTrue};
ghost use Rattle.std.specs.List.{IsDistinct};
ghost use Rattle.std.specs.Ordering.{eq_by_cmp, is_lt};
ghost use Rattle.std.specs.Str.{bytes_eq};
ghost use Rattle.acl_text.specs.Cuts.{views};
ghost use Rattle.acl_rows.specs.ApartSteps.{are_apart, are_rising, is_below_first};

/// Whether no two of the names are the same.
pub fn are_distinct_names(names: Vec<&[u8]>) -> bool
    ensures is { IsTrue result ↔ IsDistinct bytes_eq (views names.entry.items) }
    ensures exact { result ≡ are_apart bytes_eq (views names.entry.items) }
{
    are_distinct(names)
}

/// Whether no two of the keys are the same. Sorted, each is below the next one.
pub fn are_distinct<K: Ord + Drop>(keys: Vec<K>) -> bool
    ensures is { IsTrue result ↔ IsDistinct (eq_by_cmp K.cmp) keys.items }
    ensures exact { result ≡ are_apart (eq_by_cmp K.cmp) keys.items }
{
    let mut sorted = keys;
    sorted.sort_unstable();
    are_rising(sorted.as_slice())
}

#[tactic(auto, unfolding(crate::specs::ApartSteps::are_rising))]
fn are_rising<K: Ord>(keys: &[K]) -> bool
    ensures { result ≡ are_rising (λ key next. is_lt (K.cmp key next)) keys.now }
{
    for (i, key) in keys.iter().enumerate() {
        if !is_below_first(key, &keys[i + 1..]) {
            return false;
        }
    }
    true
}

fn is_below_first<K: Ord>(key: &K, others: &[K]) -> bool
    ensures { result ≡ is_below_first (λ key next. is_lt (K.cmp key next)) key.now others.now }
{
    match others {
        [] => true,
        [next, ..] => key.cmp(next).is_lt(),
    }
}

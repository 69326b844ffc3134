ghost use Rattle.std.specs.Prelude.{◌≡◌, ℕ, ◌+◌, ◌*◌, ◌/◌, ◌<◌, ◌≤◌, length};
ghost use Rattle.acl_shade.specs.Sifting.{Has, RowHas};
ghost use Rattle.acl_shade.specs.Marking.{KeepsBeside};

/// Sets the bit of the row, where rows have so many words.
pub(crate) fn insert(words: &mut [u64], width: usize, row: usize, bit: usize)
    requires row { row * width + width ≤ length words.old }
    requires bit { bit < 64 * width }
    ensures size { length words.new ≡ length words.old }
    ensures keeps { (e : ℕ) → Has words.old e → Has words.new e }
    ensures sets { RowHas width words.new row bit }
{
    words[row * width + bit / 64] |= 1 << (bit % 64);
}

/// Keeps of the first words of the row, so many as `count`, the bits that a row of others has too, and says whether one
/// is left there.
pub(crate) fn keep(
    words: &mut [u64],
    width: usize,
    row: usize,
    count: usize,
    others: &[u64],
    other: usize,
) -> bool
    requires words { row * width + width ≤ length words.old }
    requires others { other * width + width ≤ length others.now }
    requires count { count ≤ width }
    ensures beside { KeepsBeside row width words.old words.new }
    ensures keeps { (e : ℕ) → e < 64 * width → RowHas width words.old row e
        → RowHas width others.now other e → RowHas width words.new row e }
{
    let start = row * width;
    let other_start = other * width;
    let mut left = 0;
    for k in 0..count {
        let both = words[start + k] & others[other_start + k];
        words[start + k] = both;
        left |= both;
    }
    left != 0
}

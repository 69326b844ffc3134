//! Names as keys: two are one where their bytes are the same.
ghost use Rattle.std.specs.Prelude.{[], ◌∷◌};
ghost use Rattle.std.specs.Cmp.{partial_equiv_from_equiv};
ghost use Rattle.std.specs.Cmp.Lexicographic.{nat_list_eq_equiv};
ghost use Rattle.std.specs.Cmp.Rules.{hashing};
ghost use Rattle.std.specs.Str.{bytes_eq};
ghost use Rattle.std.proofs.Common.{rules};

use crate::name_texts::NameText;
use acl_text::TextKey;
use indexmap::Equivalent;
use std::hash::{Hash, Hasher};

impl PartialEq for NameText {
    ghost eq = { bytes_eq };

    ghost laws = { partial_equiv_from_equiv nat_list_eq_equiv };

    fn eq(&self, other: &NameText) -> bool {
        self.as_slice() == other.as_slice()
    }
}

impl Eq for NameText {
    ghost laws = { nat_list_eq_equiv };
}

impl Hash for NameText {
    ghost hash_input = { λ n. n ∷ [] };

    ghost respects_eq = { Prim.search (hashing, rules) };

    // A name is a key by itself, so that its end needs no mark.
    fn hash<H: Hasher>(&self, state: &mut H) {
        state.write(self.as_slice());
    }
}

impl Equivalent<NameText> for TextKey<'_> {
    ghost equivalent = { λ k. bytes_eq k.text.now };

    ghost respects_hash = { Prim.search (hashing, rules) };

    ghost respects_eq = { λ k. nat_list_eq_equiv.congr k.text.now };

    fn equivalent(&self, key: &NameText) -> bool {
        self.text == key.as_slice()
    }
}

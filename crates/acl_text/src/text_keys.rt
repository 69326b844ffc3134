//! Texts as keys: two are one where their bytes are the same.
ghost use Rattle.std.specs.Prelude.{[], ◌∷◌};
ghost use Rattle.std.specs.Cmp.Rules.{comparing, hashing};
ghost use Rattle.std.specs.Ordering.{on};
ghost use Rattle.std.specs.Str.{bytes_eq};
ghost use Rattle.std.proofs.Common.{rules};

use std::hash::{Hash, Hasher};

/// A text by which something is found. It is hashed at once, and not byte by byte.
#[derive(Clone, Copy)]
pub struct TextKey<'a> {
    pub text: &'a [u8],
}

impl PartialEq for TextKey<'_> {
    ghost eq = { on (λ k. k.text.now) bytes_eq };

    ghost laws = { Prim.search (comparing, rules) };

    fn eq(&self, other: &TextKey<'_>) -> bool {
        self.text == other.text
    }
}

impl Eq for TextKey<'_> {
    ghost laws = { Prim.search (comparing, rules) };
}

impl Hash for TextKey<'_> {
    ghost hash_input = { λ k. k.text.now ∷ [] };

    ghost respects_eq = { Prim.search (hashing, rules) };

    // A text is a key by itself, so that its end needs no mark.
    fn hash<H: Hasher>(&self, state: &mut H) {
        state.write(self.text);
    }
}

ghost use Rattle.std.specs.Prelude.{◌≡◌, true, false, IfNone, IfOk, IfSome};
ghost use Rattle.acl_text.specs.Names.{is_name};
ghost use Rattle.acl_naming.specs.Fronts.{shown};

use crate::byte_runs::name_run;
use crate::fronts::Front;
use acl_text::{Bytes, Memory, is_name, is_name_byte};
use std::alloc::Global;
use std::marker::Model;

/// A name of at most 30 bytes. A contract sees the list of its bytes.
#[derive(Drop)]
pub struct ShortName {
    end: u8,
    bytes: [u8; 30],
}

impl Model for ShortName {
    ghost use Rattle.std.specs.Prelude.{ℕ, List, take, ◌≤◌};

    ghost Value = { List ℕ };

    ghost view = { λ t. take t.end t.bytes };

    ghost invariant = { λ t. t.end ≤ 30 };
}

impl ShortName {
    // Reads the word, where it is a name of at most 30 bytes. `None` says nothing.
    fn read(word: &[u8]) -> Option<ShortName>
        ensures { IfSome result (λ n. (n ≡ word.now) × (is_name word.now ≡ true)) }
    {
        if word.is_empty() || word.len() > 30 {
            return None;
        }
        let mut bytes = [0; 30];
        for (i, byte) in word.iter().enumerate() {
            if !is_name_byte(*byte) {
                return None;
            }
            bytes[i] = *byte;
        }
        Some(ShortName {
            end: word.len() as u8,
            bytes,
        })
    }

    // The same, where one look tells it: it is short, and the text goes on behind it.
    #[inline(always)]
    fn read_front(word: Front<'_>) -> Option<ShortName>
        ensures { IfSome result (λ n. (n ≡ shown word.entry) × (is_name (shown word.entry) ≡ true)) }
    {
        let text = word.text();
        let bytes = text.first_chunk::<30>()?;
        let size = word.len();
        if size == 0 || size > name_run(text) {
            return None;
        }
        Some(ShortName {
            end: size as u8,
            bytes: *bytes,
        })
    }

    fn as_slice(&self) -> &[u8]
        ensures { result.now ≡ self.now }
    {
        &self.bytes[..usize::from(self.end)]
    }
}

/// Where a name stands.
#[derive(Drop)]
pub enum KeptName {
    Short(ShortName),
    Long(Bytes),
}

/// The bytes of a name. A contract sees their list.
///
/// Most names are short. They stand in their place, and take no memory of their own.
#[derive(Drop)]
pub struct NameText {
    kept: KeptName,
}

impl Model for NameText {
    ghost use Rattle.std.specs.Prelude.{ℕ, List};

    ghost Value = { List ℕ };

    ghost use Rattle.acl_naming.specs.NameTexts.{bytes_of};

    ghost view = { λ n. bytes_of n.kept };
}

impl NameText {
    // The name that the word is, if it is one, in memory of its own.
    #[inline(never)]
    fn read_long(alloc: Global, word: &[u8]) -> Result<Option<NameText>, Memory>
        ensures some { IfOk result (λ o. IfSome o (λ n. (n ≡ word.now) × (is_name word.now ≡ true))) }
        ensures none { IfOk result (λ o. IfNone o (is_name word.now ≡ false)) }
    {
        if !is_name(word) {
            return Ok(None);
        }
        let name = Bytes::from_slice(alloc, word)?;
        Ok(Some(NameText {
            kept: KeptName::Long(name),
        }))
    }

    /// The name that the word is, if it is one.
    #[inline(never)]
    pub fn read(alloc: Global, word: &[u8]) -> Result<Option<NameText>, Memory>
        ensures some { IfOk result (λ o. IfSome o (λ n. (n ≡ word.now) × (is_name word.now ≡ true))) }
        ensures none { IfOk result (λ o. IfNone o (is_name word.now ≡ false)) }
    {
        if let Some(name) = ShortName::read(word) {
            return Ok(Some(NameText {
                kept: KeptName::Short(name),
            }));
        }
        NameText::read_long(alloc, word)
    }

    /// The name that the word is, where one look tells it. `None` says nothing.
    #[inline(always)]
    pub fn short(word: Front<'_>) -> Option<NameText>
        ensures { IfSome result (λ n. (n ≡ shown word.entry) × (is_name (shown word.entry) ≡ true)) }
    {
        match ShortName::read_front(word) {
            Some(name) => Some(NameText {
                kept: KeptName::Short(name),
            }),
            None => None,
        }
    }

    /// The name that the word is, if it is one. Names are many and small, so this stands where it is asked for.
    #[inline(always)]
    pub fn read_front(alloc: Global, word: Front<'_>) -> Result<Option<NameText>, Memory>
        ensures some { IfOk result (λ o. IfSome o
            (λ n. (n ≡ shown word.entry) × (is_name (shown word.entry) ≡ true))) }
        ensures none { IfOk result (λ o. IfNone o (is_name (shown word.entry) ≡ false)) }
    {
        match NameText::short(word) {
            Some(name) => Ok(Some(name)),
            None => NameText::read(alloc, word.as_slice()),
        }
    }

    pub fn as_slice(&self) -> &[u8]
        ensures { result.now ≡ self.now }
    {
        match &self.kept {
            KeptName::Short(name) => name.as_slice(),
            KeptName::Long(name) => name.as_slice(),
        }
    }
}

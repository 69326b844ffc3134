ghost use Rattle.std.specs.Prelude.{◌≡◌, ◌∷◌, [], ◌++◌, List, ℕ, IsTrue, Some, None, Option, decimal};
ghost use Rattle.acl_text.specs.Puts.{Puts};
ghost use Rattle.acl_text.specs.AddressTexts.{address_text, prefix_text, wildcard_text};
ghost use Rattle.acl_text.specs.Cuts.{views};
ghost use Rattle.acl_rows.specs.Rows.{spaced, or_nothing, words_in};

use acl_packet::{Family, Prefix};
use acl_text::{Out, PutFault, put_address, put_number, put_prefix, put_wildcard};

/// A value with a stated text, as `Display` is for `fmt`.
pub trait Piece {
    ghost text: { Self → List ℕ };

    /// Puts the text.
    fn put_into<O: Out>(&self, out: &mut O) -> Result<(), PutFault>
        requires { IsTrue (O.is_open out.old) }
        ensures { Puts O.Out out.old out.new (text self.now) result };
}

/// The bytes themselves.
impl Piece for &[u8] {
    ghost text = { λ s. s.now };

    #[inline(always)]
    fn put_into<O: Out>(&self, out: &mut O) -> Result<(), PutFault> {
        out.put(self)
    }
}

/// One behind the other.
impl<A: Piece, B: Piece> Piece for (A, B) {
    ghost text = { λ p. A.text p.0 ++ B.text p.1 };

    #[inline(always)]
    fn put_into<O: Out>(&self, out: &mut O) -> Result<(), PutFault> {
        self.0.put_into(out)?;
        self.1.put_into(out)
    }
}

/// A number in decimal.
#[derive(Clone, Copy)]
pub struct Number {
    pub number: u128,
}

impl Piece for Number {
    ghost text = { λ n. decimal n.number };

    #[inline]
    fn put_into<O: Out>(&self, out: &mut O) -> Result<(), PutFault> {
        put_number(out, self.number)
    }
}

/// The text of an address.
#[derive(Clone, Copy)]
pub struct Address {
    pub family: Family,
    pub address: u128,
}

impl Piece for Address {
    ghost text = { λ a. address_text a.family a.address };

    #[inline]
    fn put_into<O: Out>(&self, out: &mut O) -> Result<(), PutFault> {
        put_address(out, self.family, self.address)
    }
}

/// The bits behind a length of an IPv4 prefix, as an address.
#[derive(Clone, Copy)]
pub struct Wildcard {
    pub len: u8,
}

impl Piece for Wildcard {
    ghost text = { λ w. wildcard_text w.len };

    #[inline]
    fn put_into<O: Out>(&self, out: &mut O) -> Result<(), PutFault> {
        put_wildcard(out, self.len)
    }
}

/// A prefix with its length behind a `/`.
impl Piece for Prefix {
    ghost text = { prefix_text };

    #[inline]
    fn put_into<O: Out>(&self, out: &mut O) -> Result<(), PutFault> {
        put_prefix(out, self)
    }
}

/// A value that is written as words of a line.
pub trait Words {
    ghost words: { Self → List (List ℕ) };

    /// Puts the words, each behind a space.
    fn put_spaced<O: Out>(&self, out: &mut O) -> Result<(), PutFault>
        requires { IsTrue (O.is_open out.old) }
        ensures { Puts O.Out out.old out.new (spaced (words self.now)) result };
}

/// A piece that is one word.
#[derive(Clone, Copy)]
pub struct OneWord<P> {
    pub piece: P,
}

impl<P: Piece> Words for OneWord<P> {
    ghost words = { λ w. P.text w.piece ∷ [] };

    #[inline(always)]
    fn put_spaced<O: Out>(&self, out: &mut O) -> Result<(), PutFault> {
        out.put(b" ")?;
        self.piece.put_into(out)
    }
}

/// Words as they are.
impl<'a> Words for &'a [&'a [u8]] {
    ghost words = { λ w. views w.now };

    #[inline]
    fn put_spaced<O: Out>(&self, out: &mut O) -> Result<(), PutFault> {
        put_words(self, out)
    }
}

/// Puts the words, each behind a space.
pub fn put_words<O: Out>(words: &[&[u8]], out: &mut O) -> Result<(), PutFault>
    requires { IsTrue (O.is_open out.old) }
    ensures { Puts O.Out out.old out.new (spaced (views words.now)) result }
{
    for word in words {
        OneWord { piece: *word }.put_spaced(out)?;
    }
    Ok(())
}

/// The words of the one, then those of the other.
impl<A: Words, B: Words> Words for (A, B) {
    ghost words = { λ p. A.words p.0 ++ B.words p.1 };

    #[inline(always)]
    fn put_spaced<O: Out>(&self, out: &mut O) -> Result<(), PutFault> {
        self.0.put_spaced(out)?;
        self.1.put_spaced(out)
    }
}

/// Perhaps no words.
impl<W: Words> Words for Option<W> {
    ghost words = { λ o. or_nothing W.words o };

    #[inline(always)]
    fn put_spaced<O: Out>(&self, out: &mut O) -> Result<(), PutFault> {
        match self {
            Some(part) => part.put_spaced(out),
            None => Ok(()),
        }
    }
}

/// The words of a free text.
#[derive(Clone, Copy)]
pub struct FreeText<'a> {
    pub text: &'a [u8],
}

impl<'a> Words for FreeText<'a> {
    ghost words = { λ t. words_in t.text.now };

    #[inline]
    fn put_spaced<O: Out>(&self, out: &mut O) -> Result<(), PutFault> {
        out.put(b" ")?;
        out.put(self.text)
    }
}

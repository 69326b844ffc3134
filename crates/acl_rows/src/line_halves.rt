ghost use Rattle.std.specs.Prelude.{◌≡◌, ◌≤◌, ℕ, List, [], ◌++◌, IsTrue, OnOk, flat_map, length, take, true};
ghost use Rattle.acl_text.specs.Puts.{Puts};
ghost use Rattle.acl_rows.specs.LineHalfSteps.{AreHalves, IsHalf, text_of};

use crate::line_texts::LineText;
use crate::listed::Listed;
use crate::pieces::Piece;
use acl_text::{Out, PutFault};

/// How pairs are written, each as one line: the half of the first, and behind it the half of the
/// second.
pub trait LineHalves<A, B> {
    ghost front: { Self → A → List ℕ };

    ghost back: { Self → B → List ℕ };

    /// Puts what the line of a pair begins with.
    fn put_front<O: Out>(&self, first: &A, out: &mut O) -> Result<(), PutFault>
        requires { IsTrue (O.is_open out.old) }
        ensures { Puts O.Out out.old out.new (front self.now first.now) result };

    /// Puts what the line of a pair ends with, the line feed included.
    fn put_back<O: Out>(&self, second: &B, out: &mut O) -> Result<(), PutFault>
        requires { IsTrue (O.is_open out.old) }
        ensures { Puts O.Out out.old out.new (back self.now second.now) result };
}

// So many backs are kept: their texts fit in a processor's nearer memory.
const KEPT: usize = 512;

/// Puts the line of each pair, the firsts outermost. The half of a first is put together once for
/// all of its lines. Where backs are to be kept, which pays from some hundred lines on, the halves of
/// the seconds are put together once for all firsts.
///
/// No put has bytes of two lines.
pub fn put_pairs<A: Listed, B: Listed, F: LineHalves<A::Item, B::Item>, O: Out>(
    firsts: &A,
    seconds: &B,
    keeps_backs: bool,
    form: &F,
    out: &mut O,
) -> Result<(), PutFault>
    requires { IsTrue (O.is_open out.old) }
    ensures { Puts O.Out out.old out.new
        (flat_map (λ a. flat_map (λ b. F.front form.now a ++ F.back form.now b)
        (B.items seconds.now)) (A.items firsts.now)) result }
{
    if keeps_backs {
        put_with_backs(firsts, seconds, form, out)
    } else {
        put_each(firsts, seconds, &[], seconds, form, out)
    }
}

// Puts the line of each pair, with backs that are kept. A call for itself, since room for so many texts has its price.
#[inline(never)]
fn put_with_backs<A: Listed, B: Listed, F: LineHalves<A::Item, B::Item>, O: Out>(
    firsts: &A,
    seconds: &B,
    form: &F,
    out: &mut O,
) -> Result<(), PutFault>
    requires { IsTrue (O.is_open out.old) }
    ensures { Puts O.Out out.old out.new
        (flat_map (λ a. flat_map (λ b. F.front form.now a ++ F.back form.now b)
        (B.items seconds.now)) (A.items firsts.now)) result }
{
    let mut texts = [LineText::closed(); KEPT];
    let (count, left) = keep_backs(seconds, form, &mut texts);
    put_each(firsts, seconds, &texts[..count], &left, form, out)
}

// Puts the backs of the first seconds together, as many as have room. Gives how many these are, and the seconds behind
// them.
fn keep_backs<A: Copy, B: Listed, F: LineHalves<A, B::Item>>(
    seconds: &B,
    form: &F,
    texts: &mut [LineText],
) -> (usize, B)
    ensures fits { result.0 ≤ length texts.new }
    ensures halves { AreHalves (F.back form.now) (B.items seconds.now) (take result.0 texts.new)
        (B.items result.1) }
{
    let mut left = seconds.copy();
    for i in 0..texts.len() {
        let mut behind = left.copy();
        let Some(second) = behind.next() else {
            return (i, left);
        };
        let text = back_text(&second, form);
        if !text.is_open() {
            return (i, left);
        }
        texts[i] = text;
        left = behind;
    }
    (texts.len(), left)
}

// Puts the line of each pair. The backs of the first seconds are kept, and the others are left.
fn put_each<A: Listed, B: Listed, F: LineHalves<A::Item, B::Item>, O: Out>(
    firsts: &A,
    seconds: &B,
    kept: &[LineText],
    left: &B,
    form: &F,
    out: &mut O,
) -> Result<(), PutFault>
    requires open { IsTrue (O.is_open out.old) }
    requires halves { AreHalves (F.back form.now) (B.items seconds.now) kept.now (B.items left.now) }
    ensures { Puts O.Out out.old out.new
        (flat_map (λ a. flat_map (λ b. F.front form.now a ++ F.back form.now b)
        (B.items seconds.now)) (A.items firsts.now)) result }
{
    let mut rest = firsts.copy();
    while let Some(first) = rest.next() {
        put_lines_of(&first, seconds, kept, left, form, out)?;
    }
    Ok(())
}

// Puts the lines of one first.
#[inline]
fn put_lines_of<A: Copy, B: Listed, F: LineHalves<A, B::Item>, O: Out>(
    first: &A,
    seconds: &B,
    kept: &[LineText],
    left: &B,
    form: &F,
    out: &mut O,
) -> Result<(), PutFault>
    requires open { IsTrue (O.is_open out.old) }
    requires halves { AreHalves (F.back form.now) (B.items seconds.now) kept.now (B.items left.now) }
    ensures { Puts O.Out out.old out.new
        (flat_map (λ b. F.front form.now first.now ++ F.back form.now b) (B.items seconds.now)) result }
{
    let mut line = LineText::new();
    begin_line(first, form, &mut line);
    if !line.is_open() {
        return put_behind(first, &mut line, seconds, form, out);
    }
    put_kept(&line, kept, out)?;
    put_behind(first, &mut line, left, form, out)
}

// Begins a line, which is empty, with the front of a first, where it has room.
#[inline]
fn begin_line<A, B, F: LineHalves<A, B>>(first: &A, form: &F, line: &mut LineText)
    requires open { line.old.is_open ≡ true }
    requires empty { text_of line.old ≡ [] }
    ensures { IsHalf (F.front form.now first.now) line.new }
{
    if form.put_front(first, line).is_err() {
        line.close();
    }
}

// The text of the back of a second, where it has room.
#[inline]
fn back_text<A, B, F: LineHalves<A, B>>(second: &B, form: &F) -> LineText
    ensures { IsHalf (F.back form.now second.now) result }
{
    let mut text = LineText::new();
    match form.put_back(second, &mut text) {
        Ok(()) => text,
        Err(_) => LineText::closed(),
    }
}

// Puts a line for each kept back, behind the front.
fn put_kept<O: Out>(front: &LineText, kept: &[LineText], out: &mut O) -> Result<(), PutFault>
    requires { IsTrue (O.is_open out.old) }
    ensures { Puts O.Out out.old out.new
        (flat_map (λ back. text_of front.now ++ text_of back) kept.now) result }
{
    for back in kept {
        put_halves(front, back, out)?;
    }
    Ok(())
}

// Puts the line of two halves, one by one: to read a line that was just put together takes longer than a second put.
#[inline]
fn put_halves<O: Out>(front: &LineText, back: &LineText, out: &mut O) -> Result<(), PutFault>
    requires { IsTrue (O.is_open out.old) }
    ensures { Puts O.Out out.old out.new (text_of front.now ++ text_of back.now) result }
{
    out.put(front.as_slice())?;
    out.put(back.as_slice())
}

// Puts a line for each second, behind the front of the first, which stands in it where it has room.
fn put_behind<A: Copy, B: Listed, F: LineHalves<A, B::Item>, O: Out>(
    first: &A,
    line: &mut LineText,
    seconds: &B,
    form: &F,
    out: &mut O,
) -> Result<(), PutFault>
    requires open { IsTrue (O.is_open out.old) }
    requires front { IsHalf (F.front form.now first.now) line.old }
    ensures { Puts O.Out out.old out.new
        (flat_map (λ b. F.front form.now first.now ++ F.back form.now b) (B.items seconds.now)) result }
{
    let mut rest = seconds.copy();
    while let Some(second) = rest.next() {
        let pair = Pair {
            first,
            second: &second,
            form,
        };
        pair.put_line(line, out)?;
    }
    Ok(())
}

// A pair, and the form in which its line is written.
#[derive(Drop)]
struct Pair<'a, A, B, F> {
    first: &'a A,
    second: &'a B,
    form: &'a F,
}

impl<'a, A, B, F: LineHalves<A, B>> Pair<'a, A, B, F> {
    // Puts its line, whose front stands there already where it has room.
    #[inline]
    fn put_line<O: Out>(&self, line: &mut LineText, out: &mut O) -> Result<(), PutFault>
        requires open { IsTrue (O.is_open out.old) }
        requires front { IsHalf (F.front self.now.form.now self.now.first.now) line.old }
        ensures put { Puts O.Out out.old out.new (F.front self.now.form.now self.now.first.now
            ++ F.back self.now.form.now self.now.second.now) result }
        ensures front { OnOk result (IsHalf (F.front self.now.form.now self.now.first.now) line.new) }
    {
        if line.is_open() {
            put_line(line, self, out)
        } else {
            self.put_apart(out)
        }
    }

    // The halves of a line that has no room are put one by one.
    #[cold]
    fn put_apart<O: Out>(&self, out: &mut O) -> Result<(), PutFault>
        requires { IsTrue (O.is_open out.old) }
        ensures { Puts O.Out out.old out.new (F.front self.now.form.now self.now.first.now
            ++ F.back self.now.form.now self.now.second.now) result }
    {
        self.form.put_front(self.first, out)?;
        self.form.put_back(self.second, out)
    }
}

// What its line ends with.
impl<'a, A, B, F: LineHalves<A, B>> Piece for Pair<'a, A, B, F> {
    ghost text = { λ p. F.back p.form.now p.second.now };

    #[inline]
    fn put_into<O: Out>(&self, out: &mut O) -> Result<(), PutFault> {
        self.form.put_back(self.second, out)
    }
}

// Puts the line that has the back behind the front that stands in it, by one put where it has room. The front stays.
#[inline]
fn put_line<P: Piece, O: Out>(line: &mut LineText, back: &P, out: &mut O) -> Result<(), PutFault>
    requires open { IsTrue (O.is_open out.old) }
    requires front { line.old.is_open ≡ true }
    ensures put { Puts O.Out out.old out.new (text_of line.old ++ P.text back.now) result }
    ensures same { OnOk result (text_of line.new ≡ text_of line.old) }
    ensures front { OnOk result (line.new.is_open ≡ true) }
{
    let end = line.end();
    match back.put_into(line) {
        Ok(()) => {
            out.put(line.as_slice())?;
            line.cut_back(end);
            Ok(())
        }
        Err(_) => {
            line.cut_back(end);
            out.put(line.as_slice())?;
            back.put_into(out)
        }
    }
}

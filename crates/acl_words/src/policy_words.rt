ghost use Rattle.std.specs.Prelude.{◌≡◌, ◌∷◌, [], IfSome, IfNone};
ghost use Rattle.acl_words.specs.Places.{HaveLinePlaces};
ghost use Rattle.acl_words.specs.Words.{words_of};

use crate::line_texts::Lines;
use crate::scanning::Scan;
use crate::tokens::Token;
use std::marker::Model;

/// The words of a policy that are not yet read, in order.
///
/// Outside strings and comments `{` and `}` are words, and so is each run of other bytes between white
/// space, which is split behind each `::`. A string, from `"` to the next `"`, is a word. Nothing is
/// refused here: a run with a byte that no word may have, and a string without an end, are words of forms
/// of their own. Each word has the place of the line where it begins.
#[derive(Drop)]
pub struct PolicyWords<'a> {
    scan: Scan<'a>,
}

impl<'a> Model for PolicyWords<'a> {
    ghost use Rattle.std.specs.Prelude.{List};
    ghost use Rattle.acl_words.specs.Tokens as spec;
    ghost use Rattle.acl_words.specs.ScanSteps.{words_left};

    ghost Value = { List spec.Token };

    ghost view = { λ w. words_left w.scan };
}

impl<'a> PolicyWords<'a> {
    /// The words of the lines.
    #[tactic(auto, using(crate::proofs::ReadingLaws::lines_read, crate::proofs::PlaceLaws::words_have_line_places))]
    pub fn new(lines: &'a Lines) -> PolicyWords<'a>
        ensures words { result ≡ words_of lines.now }
        ensures places { HaveLinePlaces lines.now result }
    {
        PolicyWords {
            scan: Scan::new(lines.text(), lines.stretches()),
        }
    }

    /// The next word. `None` exactly where none is left.
    #[inline(always)]
    pub fn next(&mut self) -> Option<Token<'a>>
        ensures some { IfSome result (λ t. self.old ≡ t ∷ self.new) }
        ensures none { IfNone result ((self.old ≡ []) × (self.new ≡ [])) }
    {
        self.scan.next()
    }
}

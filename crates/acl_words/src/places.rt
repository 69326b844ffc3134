ghost use Rattle.std.specs.Prelude.{◌≡◌, ◌∷◌};
ghost use Rattle.acl_words.specs.Stretches.{places_of};
ghost use Rattle.acl_words.specs.ReadingSteps.{next_reached, reached, reached_behind, reached_past};

use crate::stretches::Stretch;
use acl_text::Place;
use std::marker::Model;

/// Where a reader of lines is: the place of its line, how many lines of the stretch follow it, and the stretches
/// behind.
#[derive(Drop)]
pub(crate) struct Places<'a> {
    here: Place,
    more: u32,
    behind: &'a [Stretch],
}

impl<'a> Model for Places<'a> {
    ghost use Rattle.std.specs.Prelude.{◌+◌, ◌++◌, ◌≤◌};
    ghost use Rattle.acl_words.specs.Stretches.{places_from, places_of};
    ghost use Rattle.acl_words.specs.ReadingSteps.{Reached};

    ghost Value = { Reached };

    ghost view = { λ p. record {
      place = p.here;
      later = places_from p.here.file (p.here.line + 1) p.more ++ places_of p.behind.now;
    } };

    ghost invariant = { λ p. p.here.line + 1 + p.more ≤ 4294967296 };
}

impl<'a> Places<'a> {
    /// The first of the lines.
    pub(crate) fn new(stretches: &'a [Stretch]) -> Places<'a>
        ensures { result ≡ reached (places_of stretches.now) }
    {
        match stretches.split_first() {
            Some((first, behind)) => begun(*first, behind),
            None => Places {
                here: Place { file: 0, line: 0 },
                more: 0,
                behind: stretches,
            },
        }
    }

    /// The place of the line.
    pub(crate) fn here(&self) -> Place
        ensures { result ≡ self.now.place }
    {
        self.here
    }

    /// Goes to the next line.
    fn pass_line(&mut self)
        ensures { self.new ≡ next_reached self.old.place self.old.later }
    {
        if self.more > 0 {
            self.more -= 1;
            self.here.line += 1;
        } else if let Some((first, behind)) = self.behind.split_first() {
            *self = begun(*first, behind);
        }
    }

    /// Goes to the next line behind a line feed.
    pub(crate) fn pass(&mut self, byte: u8)
        ensures { self.new ≡ reached_behind byte self.old }
    {
        if byte == b'\n' {
            self.pass_line();
        }
    }

    /// Goes past the lines that end in the text.
    pub(crate) fn pass_all(&mut self, text: &[u8])
        ensures { self.new ≡ reached_past text.now self.old }
    {
        for byte in text {
            self.pass(*byte);
        }
    }
}

fn begun<'a>(first: Stretch, behind: &'a [Stretch]) -> Places<'a>
    ensures { result ≡ reached (places_of (first ∷ behind.now)) }
{
    Places {
        here: Place {
            file: first.file,
            line: first.first,
        },
        more: first.count - 1,
        behind,
    }
}

ghost use Rattle.std.specs.Prelude.{◌≡◌, option_map, slice_get};
ghost use Rattle.acl_words.specs.Labels.{IsLabelled};

use crate::line_texts::Lines;
use crate::partial_splices::PartialSplice;
use std::marker::Model;

/// A policy with its included files spliced in.
///
/// A contract sees the record of what was spliced: the labels of the files in the order in which they were
/// met, the lines with their places, and how many bytes and include lines were read. File number n is the
/// n-th label, counted from 0: the policy itself is file 0. It has a label, and so has the file of each line.
#[derive(Drop)]
pub struct Sources {
    splice: PartialSplice,
}

impl Model for Sources {
    ghost use Rattle.acl_words.specs.Splices.{Splice};

    ghost Value = { Splice };

    ghost use Rattle.acl_words.specs.Labels.{IsLabelled};

    ghost view = { λ s. s.splice };

    ghost invariant = { λ s. IsLabelled s.splice };
}

impl Sources {
    /// What was read, where it is the whole policy.
    pub(crate) fn from_splice(splice: PartialSplice) -> Sources
        requires { IsLabelled splice }
        ensures { result ≡ splice }
    {
        Sources { splice }
    }

    /// The lines of the splice.
    pub fn lines(&self) -> &Lines
        ensures lines { result.now ≡ self.now.lines }
        ensures labelled { IsLabelled self.now }
    {
        self.splice.lines()
    }
}

/// The label of the file, where there is a file of the number: there is for 0, and for that of each line.
pub fn label(sources: &Sources, file: u32) -> Option<&[u8]>
    ensures label { option_map (λ b. b.now) result ≡ slice_get sources.now.labels file }
    ensures labelled { IsLabelled sources.now }
{
    sources.splice.label(file)
}

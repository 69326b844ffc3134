ghost use Rattle.std.specs.Prelude.{◌≡◌, ◌<◌, ◌≤◌, ◌+◌, ◌^◌, false, option_map, slice_get, length, OnOk, IfOk};
ghost use Rattle.acl_text.specs.Cursors.{lines_of};
ghost use Rattle.acl_words.specs.FileLines.{with_lines};
ghost use Rattle.acl_words.specs.LineTexts.{HasNoFeed};
ghost use Rattle.acl_words.specs.Labels.{AreOfFiles};
ghost use Rattle.acl_words.specs.Splices.{nothing_read, with_line, with_file, with_include, is_long};

use crate::line_texts::Lines;
use acl_text::{Bytes, Memory, Place};
use std::alloc::Global;
use std::marker::Model;

/// The most bytes that one file may have: 4 MiB.
pub(crate) const MOST_OF_FILE: usize = 4_194_304;

/// The most bytes that all files of a splice may have: 16 MiB.
const MOST_OF_ALL: usize = 16_777_216;

/// What has been read so far. The file of each line has a label.
#[derive(Drop)]
pub(crate) struct PartialSplice {
    labels: Vec<Bytes>,
    lines: Lines,
    size: usize,
    includes: u32,
}

impl Model for PartialSplice {
    ghost use Rattle.std.specs.Prelude.{◌+◌, ◌<◌, ◌≤◌, length};
    ghost use Rattle.acl_text.specs.declared.file_lines.Line.{Line};
    ghost use Rattle.std.specs.List.{All};
    ghost use Rattle.acl_words.specs.Splices.{Splice};

    ghost Value = { Splice };

    ghost view = { λ s. record {
      labels = s.labels.items;
      lines = s.lines;
      size = s.size;
      includes = s.includes;
    } };

    ghost invariant = { λ s. (length s.labels.items ≤ s.includes + 1)
        × All (λ (l : Line). l.place.file < length s.labels.items) s.lines };
}

impl PartialSplice {
    pub(crate) fn new(alloc: Global) -> PartialSplice
        ensures { result ≡ nothing_read }
    {
        PartialSplice {
            labels: Vec::new(alloc),
            lines: Lines::new(alloc),
            size: 0,
            includes: 0,
        }
    }

    /// The lines of the splice.
    pub(crate) fn lines(&self) -> &Lines
        ensures { result.now ≡ self.now.lines }
    {
        &self.lines
    }

    /// The label of the file, where there is a file of the number.
    pub(crate) fn label(&self, file: u32) -> Option<&[u8]>
        ensures { option_map (λ b. b.now) result ≡ slice_get self.now.labels file }
    {
        let bytes = self.labels.get(file as usize)?;
        Some(bytes.as_slice())
    }

    /// The number of the include lines that were met.
    pub(crate) fn includes(&self) -> u32
        ensures { result ≡ self.now.includes }
    {
        self.includes
    }

    /// Whether a file of so many bytes is too long, or the splice is with it.
    pub(crate) fn is_too_long(&self, more: usize) -> bool
        ensures { result ≡ is_long self.now.size more }
    {
        more > MOST_OF_FILE || self.size > MOST_OF_ALL - more
    }

    /// One more include line.
    pub(crate) fn count_include(&mut self)
        requires { self.old.includes < 1024 }
        ensures counted { self.new ≡ with_include self.old }
        ensures room { length self.new.labels ≤ self.new.includes }
    {
        self.includes += 1;
    }

    /// One more file of so many bytes. Its number is given.
    pub(crate) fn add_file(
        &mut self,
        alloc: Global,
        label: &[u8],
        more: usize,
    ) -> Result<u32, Memory>
        requires room { length self.old.labels ≤ self.old.includes }
        requires short { is_long self.old.size more ≡ false }
        ensures number { IfOk result (λ file. file ≡ length self.old.labels) }
        ensures file { OnOk result (self.new ≡ with_file label.now more self.old) }
        ensures files { OnOk result (AreOfFiles self.new) }
    {
        let file = self.labels.len() as u32;
        let label = Bytes::from_slice(alloc, label)?;
        self.lines.make_room(more.saturating_add(1))?;
        self.labels.push(label)?;
        self.size += more;
        Ok(file)
    }

    /// One more line, of a file that has a label.
    pub(crate) fn add_line(&mut self, place: Place, text: &[u8]) -> Result<(), Memory>
        requires file { place.file < length self.old.labels }
        requires text { HasNoFeed text.now }
        ensures line { OnOk result (self.new ≡ with_line place.file place.line text.now self.old) }
        ensures files { OnOk result (AreOfFiles self.new) }
    {
        self.lines.push(place, text)
    }

    /// All lines of a file that has a label.
    #[tactic(auto, using(crate::proofs::WholeFileLaws::of_files))]
    pub(crate) fn add_lines(&mut self, file: u32, bytes: &[u8]) -> Result<(), Memory>
        requires file { file < length self.old.labels }
        requires short { length bytes.now + 2 < 2 ^ 32 }
        ensures lines { OnOk result (self.new ≡ with_lines file 1 (lines_of bytes.now) self.old) }
        ensures files { OnOk result (AreOfFiles self.new) }
    {
        self.lines.push_file(file, bytes)
    }
}

ghost use Rattle.std.specs.Prelude.{◌≡◌, ◌≤◌, ◌<◌, ◌++◌, true, false, length, IfSome, IfOk, OnOk};
ghost use Rattle.std.specs.String.{string_bytes};
ghost use Rattle.acl_words.specs.LineTexts.{HasNoFeed};
ghost use Rattle.acl_words.specs.IncludeLines.{is_path, asked_in};
ghost use Rattle.acl_words.specs.Labels.{GoesOn};
ghost use Rattle.acl_words.specs.IncludeSteps.{front_at};
ghost use Rattle.acl_words.specs.Splicing.{behind_line, behind_file, behind_include};
ghost use Rattle.acl_text.specs.Answers.{Gives, Leaves};
ghost use Rattle.acl_text.specs.Refusals.{fault};
ghost use Rattle.acl_text.specs.declared.faults.Code.TheVariants.{NoFile};
ghost use Rattle.acl_host.specs.WholeFiles.{ReadsFiles, is_no_reading, read_told};

use crate::file_texts::may_include;
use crate::include_lines::{Asked, asked_in};
use crate::partial_splices::{MOST_OF_FILE, PartialSplice};
use acl_host::{ReadFault, Tree, TreeFault};
use acl_text::{Bytes, Code, Cursor, Fault, Memory, Place};
use std::alloc::{AllocError, Global};
use std::str;

/// The most include lines that a policy may have.
const MOST_INCLUDES: u32 = 1024;

/// A path of an include line, as text.
fn path_text(path: &[u8]) -> &str
    requires { is_path path.now ≡ true }
    ensures { result.now ≡ path.now }
{
    match str::from_utf8(path) {
        Ok(text) => text,
        Err(_) => unreachable!(),
    }
}

/// The path of an included file.
fn inner_path(alloc: Global, folder: &str, path: &[u8]) -> Result<String, AllocError>
    requires { is_path path.now ≡ true }
    ensures { IfOk result (λ s. string_bytes s ≡ folder.now ++ path.now) }
{
    let mut inner = String::from_str(alloc, folder)?;
    inner.push_str(path_text(path))?;
    Ok(inner)
}

/// A file whose lines are spliced in.
#[derive(Clone, Copy)]
pub(crate) struct SplicedFile<'a> {
    /// The folder of the policy, with its slash.
    pub(crate) folder: &'a str,
    /// How many levels of files may still stand below.
    pub(crate) levels: u32,
    /// How faults name the file.
    pub(crate) label: &'a [u8],
}

impl<'a> SplicedFile<'a> {
    /// Why the file is not taken: the fault of the code at a line of it, or memory where there is none for its word.
    fn refusal(&self, alloc: Global, code: Code, line: u32, word: &[u8]) -> ReadFault
        ensures fault { IfSome (read_told result) (λ f.
            f ≡ fault code self.now.label.now line word.now) }
        ensures inside { is_no_reading result ≡ false }
    {
        match Fault::new(alloc, code, self.label, line, word) {
            Ok(fault) => ReadFault::Fault(fault),
            Err(Memory) => ReadFault::Memory,
        }
    }

    /// The bytes of the file at the path, or one more of them than a file may have. The word at the line of this file
    /// names it.
    pub(crate) fn read<T: Tree>(
        &self,
        alloc: Global,
        tree: &mut T,
        line: u32,
        word: &[u8],
        path: &str,
    ) -> Result<Bytes, ReadFault>
        ensures gives { IfSome (T.files tree.old) (λ fs. Gives read_told result
            (front_at (fault NoFile self.now.label.now line word.now) fs path.now)) }
        ensures reads { ReadsFiles T.Tree tree.old tree.new result }
    {
        match tree.read(alloc, path, MOST_OF_FILE + 1) {
            Ok(bytes) => Ok(bytes),
            Err(TreeFault::Absent) => Err(self.refusal(alloc, Code::NoFile, line, word)),
            Err(TreeFault::Failed) => Err(ReadFault::Outside),
            Err(TreeFault::Memory) => Err(ReadFault::Memory),
        }
    }

    /// The include line is met.
    #[cycle(includes)]
    #[tactic(auto, unfolding(crate::specs::Splicing::behind_include))]
    fn include<T: Tree>(
        &self,
        alloc: Global,
        tree: &mut T,
        sources: &mut PartialSplice,
        line: u32,
        path: &[u8],
    ) -> Result<(), ReadFault>
        requires { is_path path.now ≡ true }
        ensures gives { IfSome (T.files tree.old) (λ fs. Leaves read_told sources.new result
            (behind_include self.now.levels fs self.now.folder.now self.now.label.now line path.now
            sources.old)) }
        ensures reads { ReadsFiles T.Tree tree.old tree.new result }
        ensures goes_on { OnOk result (GoesOn sources.old sources.new) }
    {
        if self.levels == 0 {
            return Err(self.refusal(alloc, Code::IncludeDepth, line, path));
        }
        if sources.includes() >= MOST_INCLUDES {
            return Err(self.refusal(alloc, Code::IncludeCount, line, path));
        }
        sources.count_include();
        let inner = inner_path(alloc, self.folder, path)?;
        let bytes = self.read(alloc, tree, line, path, inner.as_str())?;
        let included = SplicedFile {
            folder: self.folder,
            levels: self.levels - 1,
            label: inner.as_bytes(),
        };
        included.add(alloc, tree, sources, bytes.as_slice())
    }

    /// A line of the file: it stands in the splice, or it is an include line.
    #[cycle(includes)]
    fn meet_line<T: Tree>(
        &self,
        alloc: Global,
        tree: &mut T,
        sources: &mut PartialSplice,
        place: Place,
        text: &[u8],
    ) -> Result<(), ReadFault>
        requires file { place.file < length sources.old.labels }
        requires text { HasNoFeed text.now }
        ensures gives { IfSome (T.files tree.old) (λ fs. Leaves read_told sources.new result
            (behind_line (behind_include self.now.levels fs self.now.folder.now) self.now.label.now
            place.file place.line text.now (asked_in text.now) sources.old)) }
        ensures reads { ReadsFiles T.Tree tree.old tree.new result }
        ensures goes_on { OnOk result (GoesOn sources.old sources.new) }
    {
        match asked_in(text) {
            Asked::Nothing => {
                sources.add_line(place, text)?;
                Ok(())
            }
            Asked::Wrong(path) => Err(self.refusal(alloc, Code::IncludePath, place.line, path)),
            Asked::Wanted(path) => self.include(alloc, tree, sources, place.line, path),
        }
    }

    /// The lines of the file, of which all bytes were read, or more of them than it may have.
    #[cycle(includes)]
    #[tactic(auto, using(crate::proofs::FeedLaws::lines_have_none, crate::proofs::FeedLaws::first_has_none, crate::proofs::FeedLaws::others_have_none))]
    pub(crate) fn add<T: Tree>(
        &self,
        alloc: Global,
        tree: &mut T,
        sources: &mut PartialSplice,
        bytes: &[u8],
    ) -> Result<(), ReadFault>
        requires room { length sources.old.labels ≤ sources.old.includes }
        ensures gives { IfSome (T.files tree.old) (λ fs. Leaves read_told sources.new result
            (behind_file (behind_include self.now.levels fs self.now.folder.now) self.now.label.now
            bytes.now sources.old)) }
        ensures reads { ReadsFiles T.Tree tree.old tree.new result }
        ensures goes_on { OnOk result (GoesOn sources.old sources.new) }
        ensures labels { OnOk result (0 < length sources.new.labels) }
    {
        if sources.is_too_long(bytes.len()) {
            return Err(self.refusal(alloc, Code::TooLong, 0, b""));
        }
        let file = sources.add_file(alloc, self.label, bytes.len())?;
        if !may_include(bytes) {
            sources.add_lines(file, bytes)?;
            return Ok(());
        }
        let mut cursor = Cursor::new(file, bytes);
        while let Some(text) = cursor.line() {
            let place = cursor.place();
            self.meet_line(alloc, tree, sources, place, text)?;
        }
        Ok(())
    }
}

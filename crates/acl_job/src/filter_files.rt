ghost use Rattle.std.specs.Prelude.{◌≡◌, None, map};
ghost use Rattle.std.specs.List.{All};
ghost use Rattle.std.specs.String.{string_bytes};
ghost use Rattle.acl_host.specs.Writing.{WritesFile};
ghost use Rattle.acl_filters.specs.PlatformFiles.{text_on};
ghost use Rattle.acl_job.specs.FileLists.{PathsDiffer, WritesFiles};
ghost use Rattle.acl_job.specs.Works.{IsWritable, file_view};

use acl_filters::render;
use acl_host::{Tree, WriteFault};
use acl_platform::Filter;
use acl_policy::Kind;
use acl_text::{Items, PutFault};
use std::alloc::Global;

/// A file that is to be written: its platform, its path, and its filters in order.
pub struct FilterFile {
    pub kind: Kind,
    pub path: String,
    pub filters: Items<Filter>,
}

impl Drop for FilterFile {
    fn drop(self) {
        let FilterFile {
            kind: _,
            path,
            filters,
        } = self;
        drop(path);
        drop(filters);
    }
}

// Writes the file. Its text goes into the tree as it is made: none is held but a part that filters in a row share.
fn write_filters<T: Tree>(alloc: Global, tree: &mut T, file: &FilterFile) -> Result<(), WriteFault>
    requires begun { T.begun tree.old ≡ None }
    requires fits { IsWritable file.now }
    ensures { WritesFile T.Tree tree.old tree.new (string_bytes file.now.path)
        (text_on file.now.kind file.now.filters) result }
{
    tree.begin(file.path.as_str())?;
    match render(alloc, file.kind, file.filters.as_slice(), tree) {
        Ok(()) => tree.finish(),
        Err(PutFault::Failed) => Err(WriteFault::Failed),
        Err(PutFault::Memory) => Err(WriteFault::Memory),
    }
}

/// Writes each file whole, in order.
///
/// The first failure ends the writing: the files before that one are written, and those behind it are as they were.
pub fn write_files<T: Tree>(
    alloc: Global,
    tree: &mut T,
    files: &[FilterFile],
) -> Result<(), WriteFault>
    requires begun { T.begun tree.old ≡ None }
    requires differ { PathsDiffer (map file_view files.now) }
    requires fit { All IsWritable files.now }
    ensures { WritesFiles T.Tree tree.old tree.new (map file_view files.now) result }
{
    match files {
        [] => Ok(()),
        [first, rest @ ..] => {
            write_filters(alloc, tree, first)?;
            write_files(alloc, tree, rest)
        }
    }
}

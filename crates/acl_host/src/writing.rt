ghost use Rattle.std.specs.Prelude.{◌≡◌, None, map};
ghost use Rattle.acl_text.specs.Output.{joined};
ghost use Rattle.acl_host.specs.Writing.{WritesFile};

use crate::sinks::WriteFault;
use crate::trees::Tree;
use acl_text::{PutFault, put_pieces};

/// Writes the file at the path: it is begun, the pieces are put one behind the other, and it is finished.
///
/// No other file is touched, and no path is begun when it returns.
pub fn write_file<T: Tree>(tree: &mut T, path: &str, pieces: &[&[u8]]) -> Result<(), WriteFault>
    requires { T.begun tree.old ≡ None }
    ensures { WritesFile T.Tree
        tree.old tree.new path.now (joined (map (λ p. p.now) pieces.now)) result }
{
    tree.begin(path)?;
    match put_pieces(tree, pieces) {
        Ok(()) => tree.finish(),
        Err(PutFault::Failed) => Err(WriteFault::Failed),
        Err(PutFault::Memory) => Err(WriteFault::Memory),
    }
}

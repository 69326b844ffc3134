ghost use Rattle.std.specs.Prelude.{map, IsTrue};
ghost use Rattle.acl_text.specs.Output.{joined};
ghost use Rattle.acl_text.specs.Puts.{Puts};

use crate::output::{Out, PutFault};

/// Puts the pieces, one behind the other.
pub fn put_pieces<O: Out>(out: &mut O, pieces: &[&[u8]]) -> Result<(), PutFault>
    requires { IsTrue (O.is_open out.old) }
    ensures { Puts O.Out out.old out.new (joined (map (λ p. p.now) pieces.now)) result }
{
    for piece in pieces {
        out.put(piece)?;
    }
    Ok(())
}

ghost use Rattle.std.specs.Prelude.{IsTrue, decimal};
ghost use Rattle.acl_text.specs.Puts.{Puts};

use crate::octets::octet_text;
use crate::output::{Out, PutFault};
use itoa::Buffer;

/// Puts the number's decimal text.
pub fn put_number<O: Out>(out: &mut O, n: u128) -> Result<(), PutFault>
    requires { IsTrue (O.is_open out.old) }
    ensures { Puts O.Out out.old out.new (decimal n) result }
{
    if n < 256 {
        out.put(octet_text(n as u8))
    } else if n < 4_294_967_296 {
        put_u32(out, n as u32)
    } else {
        put_u128(out, n)
    }
}

fn put_u32<O: Out>(out: &mut O, n: u32) -> Result<(), PutFault>
    requires { IsTrue (O.is_open out.old) }
    ensures { Puts O.Out out.old out.new (decimal n) result }
{
    let mut buffer = Buffer::new();
    out.put(buffer.format(n).as_bytes())
}

// Numbers of 128 bits are divided slowly.
#[cold]
fn put_u128<O: Out>(out: &mut O, n: u128) -> Result<(), PutFault>
    requires { IsTrue (O.is_open out.old) }
    ensures { Puts O.Out out.old out.new (decimal n) result }
{
    let mut buffer = Buffer::new();
    out.put(buffer.format(n).as_bytes())
}

ghost use Rattle.std.specs.Prelude.{◌≡◌};
ghost use Rattle.acl_words.specs.Folders.{folder_of};

/// The part of a path up to and with its last slash.
pub(crate) fn folder_of(path: &[u8]) -> &[u8]
    ensures { result.now ≡ folder_of path.now }
{
    let mut front = path;
    while let [before @ .., last] = front {
        if *last == b'/' {
            return front;
        }
        front = before;
    }
    front
}

ghost use Rattle.std.specs.Prelude.{◌≡◌};
ghost use Rattle.acl_run.specs.Statuses.{status};

use acl_text::Fault;

/// What failed outside the program.
#[derive(Clone, Copy, PartialEq, Eq)]
pub enum Which {
    List,
    Read,
    Write,
    Out,
    Err,
    Clock,
}

/// How a run ended.
#[derive(Drop)]
pub enum Ended {
    /// Every filter and the report were written.
    Done,
    /// The words are no command line.
    Usage,
    /// The input has this fault, the first one.
    Rejected(Fault),
    /// A file, a folder, a stream or the clock failed.
    Outside(Which),
    /// Memory was wanted and not found.
    Memory,
}

/// The exit status of the program.
pub fn status_of(ended: &Ended) -> u8
    ensures { result ≡ status ended.now }
{
    match ended {
        Ended::Done => 0,
        Ended::Rejected(_) => 1,
        Ended::Usage => 2,
        Ended::Outside(_) => 3,
        Ended::Memory => 4,
    }
}

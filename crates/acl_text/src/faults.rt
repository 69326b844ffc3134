ghost use Rattle.std.specs.Prelude.{◌≡◌, IfOk};
ghost use Rattle.acl_text.specs.declared.faults.Refusal.TheVariants as refusals;
ghost use Rattle.acl_text.specs.declared.faults.Rejection.TheVariants as rejections;

use crate::texts::{Bytes, Memory};
use std::alloc::{AllocError, AllocFailed, Global};
use std::marker::Model;

/// A line of a file of the run: the file by its number, the line from 1. Line 0 is no line.
#[derive(Clone, Copy, PartialEq, Eq)]
pub struct Place {
    pub file: u32,
    pub line: u32,
}

/// What is wrong with the input. docs/FAULTS.md has each that `aclgen` answers, with an example.
#[derive(Clone, Copy, Debug, PartialEq, Eq)]
pub enum Code {
    /// A file, or the policy with its includes, is too long.
    TooLong,
    /// A byte that no word may have.
    BadByte,
    /// No name stands where a naming file defines one.
    BadName,
    /// An item stands before the first definition of its file.
    NoDefinition,
    /// An item is neither a value nor a name.
    BadValue,
    /// A name is defined twice.
    Twice,
    /// More names, items, targets or terms than the limit.
    TooMany,
    /// A definition refers to a name that is defined nowhere.
    Undefined,
    /// A name reaches itself.
    Cycle,
    /// More naming files than the limit.
    TooManyFiles,
    /// A file or folder is not there.
    NoFile,
    /// Includes stand too deep in one another.
    IncludeDepth,
    /// An include line has no path of the form that is taken.
    IncludePath,
    /// A word stands where the structure does not take it.
    Syntax,
    /// A keyword that does not belong there.
    Keyword,
    /// A value that its keyword does not take.
    Value,
    /// A keyword that may stand once stands again.
    Repeated,
    /// Something that has to stand there is missing.
    Missing,
    /// A term's name is taken in its block.
    TermTwice,
    /// A word that a target line does not take, or a target line that lacks words.
    TargetLine,
    /// A target clashes with an earlier one.
    FilterTwice,
    /// A name is used that the naming files do not define.
    UnknownName,
    /// A service has no port of a protocol that its term names.
    NoPortForProtocol,
    /// Ports stand in a term whose protocols are not all TCP, UDP or SCTP.
    PortProtocol,
    /// An ICMP type stands in a term whose protocol is not the one that has it.
    IcmpProtocol,
    /// An option stands in a term whose protocols it does not speak of.
    OptionProtocol,
    /// A TCP reset is the action of a term whose protocol is not TCP alone.
    ResetProtocol,
    /// A term has two different options.
    OptionClash,
    /// More include lines than the limit.
    IncludeCount,
    /// A term for IPv6 names a protocol that is an extension header.
    ExtensionHeader,
    /// The name of a rule is longer than its platform takes.
    NameLength,
    /// Two rules of a filter have one name, where the platform tells them apart by name.
    NameClash,
    /// The platform has no form for what a rule asks.
    Unsupported,
    /// A filter would have more entries than the limit.
    TooManyEntries,
    /// The address lists of a filter would have more prefixes than the limit.
    TooManyPrefixes,
    /// An ICMP code stands in a term that does not name exactly one ICMP type.
    IcmpCode,
    /// The filter of a target has no policy for the packets that none of its terms decides.
    NoPolicy,
    /// A text is no document of its language.
    NoDocument,
    /// A document has no section of this number, or none for the packet.
    NoSection,
    /// An earlier term of its block decides all that a term decides.
    Shaded,
    /// The number of a list is above those that its kind may have.
    NumberRange,
}

/// A fault of the input by the number of its file: what is wrong, where, and the word in error.
#[derive(Drop)]
pub struct Slip {
    pub code: Code,
    pub place: Place,
    pub word: Bytes,
}

/// A slip in memory of its own. A contract sees the slip.
///
/// What a reader answers goes through many calls, mostly without a slip, so that it has to be small.
#[derive(Drop)]
pub struct BoxedSlip {
    kept: Box<Slip>,
}

impl Model for BoxedSlip {
    ghost use Rattle.acl_text.specs.declared.faults.Slip.{Slip};

    ghost Value = { Slip };

    ghost view = { λ b. b.kept.value };
}

impl BoxedSlip {
    /// The slip, put into memory of its own.
    pub fn new(alloc: Global, slip: Slip) -> Result<BoxedSlip, Memory>
        ensures { IfOk result (λ b. b ≡ slip) }
    {
        Ok(BoxedSlip {
            kept: Box::new(alloc, slip)?,
        })
    }

    pub fn as_slip(&self) -> &Slip
        ensures { result.now ≡ self.now }
    {
        self.kept.as_ref()
    }

    /// The slip out of its memory.
    pub fn into_inner(self) -> Slip
        ensures { result ≡ self }
    {
        let BoxedSlip { kept } = self;
        Box::into_inner(kept)
    }
}

/// Why a reader gave no value: the input has a slip, or memory was wanted.
#[derive(Drop)]
pub enum Refusal {
    Slip(BoxedSlip),
    Memory,
}

impl From<Memory> for Refusal {
    ghost from_gives = { λ _ refusal. refusal ≡ refusals.Memory };

    fn from(_memory: Memory) -> Refusal {
        Refusal::Memory
    }
}

impl From<AllocError> for Refusal {
    ghost from_gives = { λ _ refusal. refusal ≡ refusals.Memory };

    fn from(_error: AllocError) -> Refusal {
        Refusal::Memory
    }
}

impl<T: Drop> From<AllocFailed<T>> for Refusal {
    ghost from_gives = { λ _ refusal. refusal ≡ refusals.Memory };

    fn from(_error: AllocFailed<T>) -> Refusal {
        Refusal::Memory
    }
}

/// A fault of the input: what is wrong, the label of the file, its line (0 where there is none), and the
/// word in error (empty where there is none).
#[derive(Drop)]
pub struct Fault {
    pub code: Code,
    pub label: Bytes,
    pub line: u32,
    pub word: Bytes,
}

/// Why a step that touches nothing outside gave no value: the input has a fault, or memory was wanted.
#[derive(Drop)]
pub enum Rejection {
    Fault(Fault),
    Memory,
}

impl From<Memory> for Rejection {
    ghost from_gives = { λ _ rejection. rejection ≡ rejections.Memory };

    fn from(_memory: Memory) -> Rejection {
        Rejection::Memory
    }
}

impl From<AllocError> for Rejection {
    ghost from_gives = { λ _ rejection. rejection ≡ rejections.Memory };

    fn from(_error: AllocError) -> Rejection {
        Rejection::Memory
    }
}

impl<T: Drop> From<AllocFailed<T>> for Rejection {
    ghost from_gives = { λ _ rejection. rejection ≡ rejections.Memory };

    fn from(_error: AllocFailed<T>) -> Rejection {
        Rejection::Memory
    }
}

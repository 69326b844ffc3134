ghost use Rattle.std.specs.Prelude.{◌≡◌, IfOk};
ghost use Rattle.acl_text.specs.Refusals.{IsRefusalBy, fault, file_fault, slip};

use crate::faults::{BoxedSlip, Code, Fault, Place, Refusal, Slip};
use crate::texts::{Bytes, Memory};
use std::alloc::Global;

impl Slip {
    /// The slip of the code at the place, with a copy of the word.
    pub fn new(alloc: Global, code: Code, place: Place, word: &[u8]) -> Result<Slip, Memory>
        ensures { IfOk result (λ s. s ≡ slip code place word.now) }
    {
        Ok(Slip {
            code,
            place,
            word: Bytes::from_slice(alloc, word)?,
        })
    }
}

impl Refusal {
    // The refusal by this slip.
    fn by(alloc: Global, code: Code, place: Place, word: &[u8]) -> Result<Refusal, Memory>
        ensures { IfOk result (IsRefusalBy (slip code place word.now)) }
    {
        let slip = Slip::new(alloc, code, place, word)?;
        Ok(Refusal::Slip(BoxedSlip::new(alloc, slip)?))
    }

    /// The refusal by the slip of the code at the place, or for memory where there is none for the slip.
    pub fn at(alloc: Global, code: Code, place: Place, word: &[u8]) -> Refusal
        ensures { IsRefusalBy (slip code place word.now) result }
    {
        match Refusal::by(alloc, code, place, word) {
            Ok(refusal) => refusal,
            Err(Memory) => Refusal::Memory,
        }
    }
}

impl Fault {
    /// The fault of the code at a line of the file with the label, with a copy of the word.
    pub fn new(
        alloc: Global,
        code: Code,
        label: &[u8],
        line: u32,
        word: &[u8],
    ) -> Result<Fault, Memory>
        ensures { IfOk result (λ f. f ≡ fault code label.now line word.now) }
    {
        Ok(Fault {
            code,
            label: Bytes::from_slice(alloc, label)?,
            line,
            word: Bytes::from_slice(alloc, word)?,
        })
    }

    /// The fault of a whole file or folder, which has no line and no word.
    pub fn of_file(alloc: Global, code: Code, label: &str) -> Result<Fault, Memory>
        ensures { IfOk result (λ f. f ≡ file_fault code label.now) }
    {
        Fault::new(alloc, code, label.as_bytes(), 0, b"")
    }

    /// The fault of a slip in the file with the label.
    pub fn of_slip(alloc: Global, label: &[u8], slip: Slip) -> Result<Fault, Memory>
        ensures { IfOk result (λ f. f ≡ fault slip.code label.now slip.place.line slip.word) }
    {
        let Slip { code, place, word } = slip;
        Ok(Fault {
            code,
            label: Bytes::from_slice(alloc, label)?,
            line: place.line,
            word,
        })
    }
}

// Reads the stored form of the cases, one part at a time. The form is described in
// reference/src/cases/stored.rs.
ghost use Rattle.std.specs.Prelude.{IfOk};
ghost use Rattle.std.specs.Io.KnownBytes.{Consumes};
ghost use Rattle.cases_plan.specs.Stored.{filled_bytes, asked_bytes, second_bytes, second_filled_bytes, reported_bytes, IsQuestionOf};

use crate::answers::Question;
use crate::call::Call;
use crate::outcome::Outcome;
use cases_files::reading::{Malformed, read_array, read_text, read_u32, read_u64};
use std::fmt;
use std::fmt::Display;
use std::io::Read;

// A ledger or a buffer before the call: its length, and what it holds where nothing is given.
#[derive(Clone, Copy)]
pub struct Filled {
    pub length: usize,
    pub fill: u32,
}

// What a case asks: the buffer that the call is given, the call, and the boundary and the link of
// it.
#[derive(Clone, Copy)]
pub struct Asked {
    pub buffer: Filled,
    pub call: Call,
    pub boundary: u64,
    pub link: u64,
}

// An outcome, and the checksum of the ledgers and the buffer that are left.
#[derive(Clone, Copy, PartialEq)]
pub struct Reported {
    pub outcome: Outcome,
    pub checksum: u64,
}

impl Display for Reported {
    fn fmt<W: fmt::Write>(&self, f: &mut fmt::Formatter<W>) -> fmt::Result {
        write!(f, "{}\t{}", self.outcome, self.checksum)
    }
}

impl Asked {
    // The question; none if the boundary or the link is greater than a call can take.
    pub fn question(self) -> Option<Question>
        ensures { IsQuestionOf self result }
    {
        Some(Question {
            call: self.call,
            boundary: u32::try_from(self.boundary).ok()?,
            link: u32::try_from(self.link).ok()?,
        })
    }
}

// Fills a text from the file.
pub fn read_bytes<R: Read>(file: &mut R, text: &mut [u8]) -> Result<(), Malformed>
    ensures { IfOk result (λ _. Consumes (R.remaining file.old) (R.remaining file.new) text.new) }
{
    Ok(file.read_exact(text)?)
}

// Reads a length and what fills it.
pub fn read_filled<R: Read>(file: &mut R) -> Result<Filled, Malformed>
    ensures { IfOk result (λ filled. Consumes (R.remaining file.old) (R.remaining file.new) (filled_bytes filled)) }
{
    let bytes = read_array::<_, 8>(file)?;
    let mut numbers = bytes.as_slice();
    Ok(Filled {
        length: read_u32(&mut numbers)? as usize,
        fill: read_u32(&mut numbers)?,
    })
}

pub fn read_asked<R: Read>(file: &mut R) -> Result<Asked, Malformed>
    ensures { IfOk result (λ asked. Consumes (R.remaining file.old) (R.remaining file.new) (asked_bytes asked)) }
{
    let bytes = read_array::<_, 28>(file)?;
    let mut numbers = bytes.as_slice();
    Ok(Asked {
        buffer: read_filled(&mut numbers)?,
        call: Call::try_from(read_u32(&mut numbers)?)?,
        boundary: read_u64(&mut numbers)?,
        link: read_u64(&mut numbers)?,
    })
}

// Reads the sheet that a plan is checked by, or a second plan; an empty text for a call that has
// none.
pub fn read_second<'a, R: Read>(
    file: &mut R,
    room: &'a mut [u8],
    call: Call,
) -> Result<&'a [u8], Malformed>
    ensures { IfOk result (λ text. Consumes (R.remaining file.old) (R.remaining file.new) (second_bytes call text.now)) }
{
    match call {
        Call::CheckSheet | Call::ComparePlans => read_text(file, room),
        _ => Ok(&room[..0]),
    }
}

// Reads the form of the second plan's ledger; an empty one for a call that has none.
pub fn read_second_filled<R: Read>(file: &mut R, call: Call) -> Result<Filled, Malformed>
    ensures { IfOk result (λ filled. Consumes (R.remaining file.old) (R.remaining file.new) (second_filled_bytes call filled)) }
{
    match call {
        Call::ComparePlans => read_filled(file),
        _ => Ok(Filled { length: 0, fill: 0 }),
    }
}

// Reads what the other implementation answers.
pub fn read_reported<R: Read>(file: &mut R) -> Result<Reported, Malformed>
    ensures { IfOk result (λ reported. Consumes (R.remaining file.old) (R.remaining file.new) (reported_bytes reported)) }
{
    let bytes = read_array::<_, 44>(file)?;
    let mut numbers = bytes.as_slice();
    Ok(Reported {
        outcome: Outcome {
            kind: read_u32(&mut numbers)?,
            first: read_u64(&mut numbers)?,
            second: read_u64(&mut numbers)?,
            third: read_u64(&mut numbers)?,
            fourth: read_u64(&mut numbers)?,
        },
        checksum: read_u64(&mut numbers)?,
    })
}

// Refusals: as they are stored, compared and printed.
ghost use Rattle.std.specs.Prelude.{◌≡◌, IfOk};
ghost use Rattle.std.specs.Io.KnownBytes.{Consumes};
ghost use Rattle.cases_files.specs.Refusals.{stored_bytes};

use crate::reading::{Malformed, read_array, read_u32};
use base_search::Refusal;
use std::fmt;
use std::fmt::Display;
use std::io::Read;

// What is stored and printed if nothing is refused.
const NOTHING: Refusal = Refusal {
    number: 0,
    line: 0,
    item: 0,
};

// Reads a refusal; none if nothing is refused.
pub fn read_refusal<R: Read>(file: &mut R) -> Result<Option<Refusal>, Malformed>
    ensures { IfOk result (λ stored. Consumes (R.remaining file.old) (R.remaining file.new) (stored_bytes stored)) }
{
    let bytes = read_array::<_, 12>(file)?;
    let mut numbers = bytes.as_slice();
    let stored = Refusal {
        number: read_u32(&mut numbers)?,
        line: read_u32(&mut numbers)?,
        item: read_u32(&mut numbers)?,
    };
    if stored == NOTHING {
        Ok(None)
    } else {
        Ok(Some(stored))
    }
}

// A call's refusal as it is compared and printed: each number after a tab.
#[derive(Clone, Copy, PartialEq)]
pub struct Columns(pub Option<Refusal>);

impl Display for Columns {
    fn fmt<W: fmt::Write>(&self, f: &mut fmt::Formatter<W>) -> fmt::Result {
        let Refusal { number, line, item } = self.0.unwrap_or(NOTHING);
        write!(f, "\t{number}\t{line}\t{item}")
    }
}

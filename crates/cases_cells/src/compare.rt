// Reads the cases, runs each corridor by the proved call and compares.
ghost use Rattle.std.specs.Prelude.{◌≡◌};
ghost use Rattle.text_reader.specs.Lines.{lines};
ghost use Rattle.cells_call.specs.Call.{run_cells, final_volumes};
ghost use Rattle.cases_cells.specs.Compare.{as_stored};

use crate::reported;
use crate::reported::Reported;
use base_search::Reason;
use cases_files::agreement::agrees;
use cases_files::reading::{Malformed, read_each, read_text, read_u32};
use cases_files::tally;
use cells_steps::MAX_CELLS;
use std::io::Read;

// Room for the longest text of the stored cases.
const ROOM: usize = 8192;

// Runs a corridor by the library: whether the answer and every volume are as stored. If not, both
// answers are printed.
fn judge(
    rt: &impl Print,
    number: u32,
    corridor: &[u8],
    stored: Reported,
    volumes: &[u32; MAX_CELLS],
) -> bool
    ensures { result ≡ as_stored (run_cells (lines corridor.now)) (final_volumes (lines corridor.now)) stored volumes.now }
{
    let answer = cells_call::run_cells(corridor);
    let given = Reported::from(answer);
    let left = reported::volumes_in(answer);
    agrees(rt, number, &given, &stored, left == *volumes)
}

// Reads and judges one case; returns where it is counted.
pub fn run_case(rt: &impl Print, file: &mut impl Read, number: u32) -> Result<usize, Malformed> {
    let mut text = [0; ROOM];
    let mut volumes = [0; MAX_CELLS];
    let corridor = read_text(file, &mut text)?;
    let stored = reported::read_reported(file)?;
    read_each(file, &mut volumes, read_u32)?;
    let same = judge(rt, number, corridor, stored, &volumes);
    let numbers = [Reason::CorridorLine.number(), Reason::CellStart.number()];
    Ok(tally::place_of(&numbers, stored.refusal, same))
}

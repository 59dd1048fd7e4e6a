// Reads the cases, takes each step by the proved call and compares. The stored form is described in
// reference/src/cases/street_file.rs.
ghost use Rattle.std.specs.Prelude.{◌≡◌};
ghost use Rattle.traces.specs.Call.{step_vehicles, places_after};
ghost use Rattle.cases_traces.specs.Compare.{as_stored};

use crate::values;
use base_search::{Reason, Refusal};
use cases_files::agreement::agrees;
use cases_files::reading::{Malformed, read_array, read_u32};
use cases_files::refusals::Columns;
use cases_files::{refusals, tally};
use std::io::Read;

// Room for some vehicles and lines too many.
const ROOM: usize = 80;

// What a case gives: the step that is asked, and the answer and the places that are stored.
#[derive(Drop)]
struct Case<'a> {
    places: &'a mut [f64],
    advances: &'a [f64],
    red_lines: &'a [f64],
    spacing: f64,
    stored: Option<Refusal>,
    told: &'a [f64],
}

// Takes a step by the library: whether the answer and every place are as stored. If not, both
// answers are printed.
fn judge(rt: &impl Print, number: u32, case: Case<'_>) -> bool
    ensures { let places = case.entry.places.now in let advances = case.entry.advances.now in let lines = case.entry.red_lines.now in let spacing = case.entry.spacing in
        result ≡ as_stored (step_vehicles places advances lines spacing) (places_after places advances lines spacing) case.entry.stored case.entry.told.now }
{
    let Case {
        places,
        advances,
        red_lines,
        spacing,
        stored,
        told,
    } = case;
    let answer = traces::step_vehicles(places, advances, red_lines, spacing);
    let given = Columns(answer.err());
    let stored = Columns(stored);
    agrees(rt, number, &given, &stored, values::are_same(places, told))
}

// Reads and judges one case; returns where it is counted.
pub fn run_case(rt: &impl Print, file: &mut impl Read, number: u32) -> Result<usize, Malformed> {
    let mut places = [0.0; ROOM];
    let mut advances = [0.0; ROOM];
    let mut red_lines = [0.0; ROOM];
    let mut told = [0.0; ROOM];
    // The form has all counts before the values.
    let bytes = read_array::<_, 20>(file)?;
    let mut head = bytes.as_slice();
    let vehicles = read_u32(&mut head)?;
    let advances_count = read_u32(&mut head)?;
    let lines_count = read_u32(&mut head)?;
    let spacing = values::read_value(&mut head)?;
    let places = values::read_values(file, &mut places, vehicles)?;
    let advances = values::read_values(file, &mut advances, advances_count)?;
    let red_lines = values::read_values(file, &mut red_lines, lines_count)?;
    let stored = refusals::read_refusal(file)?;
    let told = values::read_values(file, &mut told, vehicles)?;
    let case = Case {
        places,
        advances,
        red_lines,
        spacing,
        stored,
        told,
    };
    let same = judge(rt, number, case);
    let numbers = [
        Reason::VehicleValue.number(),
        Reason::VehicleCounts.number(),
    ];
    Ok(tally::place_of(&numbers, stored, same))
}

// The lines of a fixed-time sheet (T-10), read into a table: refusal 33.
#![tactic(auto)]

ghost use Rattle.std.specs.Prelude.{◌≡◌};
ghost use Rattle.std.specs.Int.{from_bool};
ghost use Rattle.base_laws.specs.Test.{within};
ghost use Rattle.sheet_lines.specs.Sheet.{valid_numbers};
ghost use Rattle.sheet_lines.specs.Reading.{number_in, NumbersAsked, LineAsked, LineRead, SheetAsked, SheetRead};

use base_search::{Reason, Refusal, checked};
use model::{MAX_PHASES, Signal};

// How many numbers a line has at most: a duration for each phase, and an offset.
pub const SHEET_FIELDS: usize = MAX_PHASES + 1;

// The numbers of a line: a duration for each phase, and the offset after them.
pub type SheetLine = [u32; SHEET_FIELDS];

// Whether a duration is within the limits of its phase.
fn is_within(duration: u32, least: u32, greatest: u32) -> bool
    ensures { result ≡ within least duration greatest }
{
    (least..=greatest).contains(&duration)
}

// Refusal 33, the numbers of a line. A duration is added only once it is within its limits, so the
// sum fits.
fn valid_numbers(line: &[u32], signal: &Signal, offset: bool) -> bool
    requires { NumbersAsked line.now signal.now (from_bool offset) }
    ensures { result ≡ valid_numbers (from_bool offset) signal.now (number_in line.now) }
{
    // At most eight phases: the cast loses nothing.
    let phases = signal.phases as usize;
    let mut sum: u32 = 0;
    for (k, &duration) in line[..phases].iter().enumerate() {
        if !is_within(duration, signal.least[k], signal.greatest[k]) {
            return false;
        }
        sum += duration;
    }
    !offset || line[phases] < sum
}

// Reads the line of a signal into a lent line; returns the place of the next line if it is well
// formed and its numbers are valid.
fn read_line(
    text: &[u8],
    at: usize,
    signal: &Signal,
    offset: bool,
    line: &mut [u32],
) -> Option<usize>
    requires { LineAsked signal.now line.old }
    ensures { LineRead signal.now (from_bool offset) text.now at result line.new }
{
    // At most eight phases: the cast loses nothing.
    let width = signal.phases as usize + usize::from(offset);
    let next = network_tables::read_row(text, at, b'F', &mut line[..width])?;
    valid_numbers(line, signal, offset).then_some(next)
}

// Reads the lines of a sheet, one for each signal; they have an offset to write a plan, and none to
// check one.
pub fn read_sheet(
    text: &[u8],
    signals: &[Signal],
    offset: bool,
    table: &mut [SheetLine],
) -> Result<(), Refusal>
    requires { SheetAsked signals.now table.old }
    ensures { SheetRead signals.now (from_bool offset) text.now result table.new }
{
    let mut place = 0;
    for (r, signal) in signals.iter().enumerate() {
        let Some(next) = read_line(text, place, signal, offset, &mut table[r]) else {
            return Err(Reason::SheetLine.refusal(r + 1, 0));
        };
        place = next;
    }
    checked(
        text_reader::is_end(text, place),
        Reason::SheetLine,
        signals.len() + 1,
        0,
    )
}

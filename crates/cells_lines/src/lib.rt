// The text of a corridor in cells (T-12): its `C`, `X` and `D` lines, read into tables; refusals 36
// and 37.
#![tactic(auto)]

ghost use Rattle.std.specs.Prelude.{◌≡◌, ◌<◌, ◌==◌, false, length, IfOk, IfErr};
ghost use Rattle.base_search.specs.Checks.{refusal, each, verdict};
ghost use Rattle.text_reader.specs.Lines.{lines};
ghost use Rattle.text_reader.specs.Reading.{line_at};
ghost use Rattle.cells_lines.specs.Corridor.{letter_c, valid_cell, cell_line_checks, volume_form, cell_count, cell_checks, demand_checks, corridor_checks};
ghost use Rattle.cells_lines.specs.Reading.{CellRead, VolumeRead, CellsRead, DemandsAsked, DemandsRead, CorridorRead};

use base_search::{Reason, Refusal, checked};
use cells_steps::{Cell, MAX_CELLS, MAX_DEMANDS};

// The greatest volume, and the greatest wave ratio in thousandths.
const MAX_VOLUME: u32 = 2_000_000_000;

const MAX_WAVE_RATIO: u32 = 1000;

// What was read of a corridor: how many cells and demands are in the tables, and the exit limit.
// Counts, not slices of the tables: the call then changes the volumes, and returns their whole
// table.
#[derive(Clone, Copy)]
pub struct Corridor {
    pub cells: usize,
    pub exit: u32,
    pub steps: usize,
}

// Whether the line at a place has the letter C, whatever follows it.
fn is_cell(text: &[u8], at: usize) -> bool
    ensures { result ≡ ((line_at text.now at).letter == letter_c) }
{
    text_reader::head_at(text, at, b'C', &mut [])
}

// Refusal 36: whether flow limit, holding limit, wave ratio and start are within their limits.
#[tactic(auto, unfolding(crate::specs::Corridor::valid_cell))]
fn valid_cell(cell: Cell, start: u32) -> bool
    ensures { result ≡ valid_cell cell start }
{
    cell.flow_limit <= MAX_VOLUME
        && cell.holding_limit <= MAX_VOLUME
        && (1..=MAX_WAVE_RATIO).contains(&cell.wave_ratio)
        && start <= MAX_VOLUME
}

// Reads `C` line n, which is at this place: its cell, the cell's start, and the place of the next
// line; or refusal 36 or 37.
fn cell_at(text: &[u8], at: usize, n: usize) -> Result<(Cell, u32, usize), Refusal>
    requires { n < MAX_CELLS }
    ensures ok { IfOk result (λ (cell, start, next). CellRead n text.now at cell start next) }
    ensures err { IfErr result (λ refusal. verdict (cell_line_checks n (line_at text.now at)) ≡ Err refusal) }
{
    let malformed = Reason::CorridorLine.refusal(n + 1, 0);
    let mut row = [0u32; 4];
    let next = text_reader::line_at(text, at, b'C', &mut row).ok_or(malformed)?;
    let [flow_limit, holding_limit, wave_ratio, start] = row;
    let cell = Cell {
        flow_limit,
        holding_limit,
        wave_ratio,
    };
    checked(valid_cell(cell, start), Reason::CorridorLine, n + 1, 0)?;
    checked(start <= holding_limit, Reason::CellStart, n + 1, 0)?;
    Ok((cell, start, next))
}

// Reads all `C` lines: how many there are, and the place of the next line; or refusal 36 or 37.
// Cell n and its start go to place n of the tables.
fn read_cells(
    text: &[u8],
    cells: &mut [Cell],
    volumes: &mut [u32],
) -> Result<(usize, usize), Refusal>
    requires cells_len { length cells.old ≡ MAX_CELLS }
    requires volumes_len { length volumes.old ≡ MAX_CELLS }
    ensures ok { IfOk result (λ (count, next). CellsRead text.now count next cells.old volumes.old cells.new volumes.new) }
    ensures err { IfErr result (λ refusal. verdict (each (cell_count (lines text.now)) (cell_checks (lines text.now))) ≡ Err refusal) }
{
    let mut place = 0;
    // Not a `zip` with the volumes: a proof knows nothing of an element that is written through it.
    for (n, cell) in cells.iter_mut().enumerate() {
        if !is_cell(text, place) {
            return Ok((n, place));
        }
        (*cell, volumes[n], place) = cell_at(text, place, n)?;
    }
    let all_read = !is_cell(text, place);
    checked(all_read, Reason::CorridorLine, MAX_CELLS + 1, 0)?;
    Ok((MAX_CELLS, place))
}

// Reads a line of this letter and one volume: the volume, and the place of the next line; or
// refusal 36 at this line of the text.
fn volume_at(text: &[u8], at: usize, letter: u8, line: usize) -> Result<(u32, usize), Refusal>
    requires { line < 4294967296 }
    ensures ok { IfOk result (λ (volume, next). VolumeRead letter text.now at volume next) }
    ensures err { IfErr result (λ r. (volume_form letter (line_at text.now at) ≡ false) × (r ≡ refusal 36 line 0)) }
{
    let malformed = Reason::CorridorLine.refusal(line, 0);
    let mut row = [0u32; 1];
    let next = text_reader::line_at(text, at, letter, &mut row).ok_or(malformed)?;
    let [volume] = row;
    checked(volume <= MAX_VOLUME, Reason::CorridorLine, line, 0)?;
    Ok((volume, next))
}

// Reads the `D` lines, which are all lines from `at` on, after those of the cells and the exit: how
// many there are; or refusal 36.
fn read_demands(text: &[u8], at: usize, cells: usize, demands: &mut [u32]) -> Result<usize, Refusal>
    requires { DemandsAsked text.now at cells demands.old }
    ensures ok { IfOk result (λ count. DemandsRead text.now count demands.old demands.new) }
    ensures err { IfErr result (λ refusal. verdict (demand_checks (lines text.now)) ≡ Err refusal) }
{
    let mut place = at;
    for (k, demand) in demands.iter_mut().enumerate() {
        if 0 < k && text_reader::is_end(text, place) {
            return Ok(k);
        }
        (*demand, place) = volume_at(text, place, b'D', cells + 2 + k)?;
    }
    let all_read = text_reader::is_end(text, place);
    checked(all_read, Reason::CorridorLine, cells + 2 + MAX_DEMANDS, 0)?;
    Ok(MAX_DEMANDS)
}

// Reads a whole text; refusals 36 and 37. The cells, their starts and the demands go to the
// beginning of the tables.
pub fn load_corridor(
    text: &[u8],
    cells: &mut [Cell],
    volumes: &mut [u32],
    demands: &mut [u32],
) -> Result<Corridor, Refusal>
    requires cells_len { length cells.old ≡ MAX_CELLS }
    requires volumes_len { length volumes.old ≡ MAX_CELLS }
    requires demands_len { length demands.old ≡ MAX_DEMANDS }
    ensures ok { IfOk result (λ corridor. CorridorRead text.now corridor volumes.old cells.new volumes.new demands.new) }
    ensures err { IfErr result (λ refusal. verdict (corridor_checks (lines text.now)) ≡ Err refusal) }
{
    let (count, place) = read_cells(text, cells, volumes)?;
    checked(0 < count, Reason::CorridorLine, 1, 0)?;
    let (exit, next) = volume_at(text, place, b'X', count + 1)?;
    let steps = read_demands(text, next, count, demands)?;
    Ok(Corridor {
        cells: count,
        exit,
        steps,
    })
}

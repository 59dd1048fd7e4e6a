// Writes a plan for a fixed-time sheet with offsets (T-10): the call `plan_from_sheet`. The phase
// that a signal's cycle shows goes from step to step, without a remainder.
#![tactic(auto)]

ghost use Rattle.std.specs.Prelude.{◌≡◌, ◌≤◌, length};
ghost use Rattle.text_reader.specs.Lines.{lines};
ghost use Rattle.text_reader.specs.Padding.{PaddingIgnored};
ghost use Rattle.network.specs.Loading.{TablesLoaded};
ghost use Rattle.sheet_lines.specs.Reading.{number_in};
ghost use Rattle.model_sheet.specs.Promises.{WritePromises};
ghost use Rattle.sheet_writer.specs.Tables.{CycleFits, RunAt, NextAsked, NextRun, ColumnAsked, ColumnGot, has_no_tram_in};
ghost use Rattle.sheet_writer.specs.Stages.{MasksAsked, MasksGot, SheetWritten};

use base_search::{Reason, Refusal};
use model::Signal;
use network::Room;
use network_tables::{MAX_SIGNALS, MAX_STEPS, MAX_TRAMS, NetworkTables, Tram};
use sheet_lines::{SHEET_FIELDS, SheetLine};

// The run of a cycle that shows: its phase, and the seconds for which it still shows.
#[derive(Clone, Copy)]
pub struct Run {
    pub phase: u32,
    pub remaining: u32,
}

// The cycle of a signal of so many phases, by its line of a sheet that has passed. The offset stays
// in the line, after the durations, as in the definitions (`CycleLine`, `phase_at`): two fields
// would be joined again in every contract.
#[derive(Clone, Copy)]
struct Cycle<'a> {
    line: &'a [u32],
    phases: u32,
    ghost fits: { CycleFits line.now phases },
}

impl Cycle<'_> {
    // The run that shows at time 0, once the offset has run.
    fn first_run(&self) -> Run
        ensures { RunAt (number_in self.now.line.now) self.now.phases 0 result }
    {
        // At most eight phases: the cast loses nothing.
        let mut rest = self.line[self.phases as usize];
        // A `for` over the phases would need an end past the last, which no offset reaches.
        let mut k = 0;
        while self.line[k] <= rest {
            rest -= self.line[k];
            k += 1;
        }
        // At most eight phases: the cast loses nothing.
        Run {
            phase: (k + 1) as u32,
            remaining: self.line[k] - rest,
        }
    }

    // The run after a step that fits it: either it goes on, or it ends with the step and the next
    // phase begins.
    fn next_run(&self, run: Run, seconds: u32) -> Run
        requires { NextAsked self.now.phases run seconds }
        ensures { NextRun (number_in self.now.line.now) self.now.phases run seconds result }
    {
        if seconds < run.remaining {
            return Run {
                remaining: run.remaining - seconds,
                ..run
            };
        }
        let phase = step_signals::phase_after(run.phase, self.phases);
        let place = step_signals::place_of(phase);
        Run {
            phase,
            remaining: self.line[place],
        }
    }

    // Fills the column of masks of signal `r`, whose cycle it is; none if a run ends inside a step
    // (refusal 35).
    fn fill_column(&self, times: &[u32], r: usize, masks: &mut [[u32; MAX_SIGNALS]]) -> Option<()>
        requires { ColumnAsked times.now r masks.old }
        ensures { ColumnGot (number_in self.now.line.now) self.now.phases times.now r masks.old result masks.new }
    {
        let mut run = self.first_run();
        for (n, shown) in masks.iter_mut().enumerate() {
            let seconds = step_arrivals::seconds(times, n);
            if run.remaining < seconds {
                return None;
            }
            shown[r] = step_signals::mask_of(run.phase);
            run = self.next_run(run, seconds);
        }
        Some(())
    }
}

// Whether no tram asks a phase of signal `r`.
fn has_no_tram(trams: &[Tram], r: usize) -> bool
    requires { r ≤ 8 }
    ensures { result ≡ has_no_tram_in trams.now r }
{
    // Each `u32` fits a `usize`: the cast loses nothing.
    trams.iter().all(|tram| tram.signal as usize != r + 1)
}

// Fills the masks of all steps. Refusal 35, by rising signal: a signal with tram lines, or with a
// run that ends before the horizon but on no boundary.
fn fill_masks(
    trams: &[Tram],
    signals: &[Signal],
    table: &[SheetLine],
    times: &[u32],
    masks: &mut [[u32; MAX_SIGNALS]],
) -> Result<(), Refusal>
    requires { MasksAsked signals.now table.now times.now masks.old }
    ensures { MasksGot trams.now signals.now table.now times.now (length masks.old) result masks.new }
{
    for (r, signal) in signals.iter().enumerate() {
        let refusal = Reason::SheetCycle.refusal(0, r + 1);
        if !has_no_tram(trams, r) {
            return Err(refusal);
        }
        let cycle = Cycle {
            line: &table[r],
            phases: signal.phases,
        };
        cycle.fill_column(times, r, masks).ok_or(refusal)?;
    }
    Ok(())
}

// Writes the plan of a sheet on a network that has passed, whose `T` lines are read again: refusals
// 33, 35 and 24.
fn write_on_network(
    tables: &NetworkTables,
    signals: &[Signal],
    sheet: &[u8],
    out: &mut [u8],
) -> Result<usize, Refusal>
    requires { TablesLoaded tables.now signals.now }
    ensures { SheetWritten (lines tables.now.text.now) (lines sheet.now) out.old result out.new }
{
    let counts = tables.reading.counts;
    let signals = &signals[..counts.signals];
    let mut table = [[0u32; SHEET_FIELDS]; MAX_SIGNALS];
    sheet_lines::read_sheet(sheet, signals, true, &mut table)?;
    let mut room = [Tram::default(); MAX_TRAMS];
    let trams = network_trams::load_trams(tables, &mut room);
    let mut rows = [[0u32; MAX_SIGNALS]; MAX_STEPS];
    let masks = &mut rows[..counts.steps];
    let times = &tables.times[counts.past..];
    fill_masks(trams, signals, &table, times, masks)?;
    network_writer::write_plan(masks, counts, out)
}

// The plan text of a sheet with offsets: refusals 1 to 6, 28 and 30, then 33, 35 and 24.
pub fn plan_from_sheet(network: &[u8], sheet: &[u8], out: &mut [u8]) -> Result<usize, Refusal>
    ensures write_promises { WritePromises (lines network.now) (lines sheet.now) out.old result out.new }
    ensures padding_ignored { PaddingIgnored network.now (λ padded_network. PaddingIgnored sheet.now (λ padded_sheet. WritePromises (lines padded_network) (lines padded_sheet) out.old result out.new)) }
{
    let mut signals = [Signal::default(); MAX_SIGNALS];
    let mut room = Room::default();
    let tables = network::read_network(network, &mut signals, &mut room)?;
    write_on_network(&tables, &signals, sheet, out)
}

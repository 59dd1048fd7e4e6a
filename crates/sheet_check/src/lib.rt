// Checks whether an accepted plan keeps a fixed-time sheet (T-10): the call `check_sheet`. The
// plan's own check comes first; then one pass over its steps watches a few numbers of each signal.
// No table of runs is kept.
#![tactic(auto)]

ghost use Rattle.std.specs.Prelude.{◌≡◌, ◌<◌, length};
ghost use Rattle.text_reader.specs.Lines.{lines};
ghost use Rattle.text_reader.specs.Padding.{PaddingIgnored};
ghost use Rattle.model.specs.Hold.{plan_of};
ghost use Rattle.network.specs.Loading.{StartLoaded};
ghost use Rattle.model_sheet.specs.Runs.{earlier, pass_verdict};
ghost use Rattle.model_sheet.specs.Promises.{SheetPromises};
ghost use Rattle.sheet_check.specs.Watch.{watch_in, first_broken, watch_after, duration_in, DurationAsked, WatchAsked, Watched};
ghost use Rattle.sheet_check.specs.Stages.{PassAsked, StepAsked, StepGot, PassGot};

use base_search::{Reason, Refusal};
use model::{Signal, Totals};
use network::{Room, Start};
use network_tables::{MAX_SIGNALS, MAX_TRAMS, NetworkTables, Tram};
use plan_steps::{Lines, Place, Run};
use sheet_lines::{SHEET_FIELDS, SheetLine};

// What is watched of a signal: whether the run that it shows is to be tested, the line of its last
// ordinary step, and the line of its first broken run, 0 for none. Not an `Option`: in the
// definitions of 34 and in a refusal 0 is none, and each contract would have to exclude `Some(0)`.
#[derive(Clone, Copy, Default)]
pub struct Watch {
    pub tested: bool,
    pub line: u32,
    pub broken: u32,
}

// How far the pass over the steps is: the place of the next step's lines, its time, and what is
// watched of the signals.
#[derive(Clone, Copy)]
pub struct Pass {
    pub place: Place,
    pub time: u32,
    pub watches: [Watch; MAX_SIGNALS],
}

// The line of the first broken run after a run of `seconds` has ended; that run is broken if it is
// tested and `duration` is another.
fn first_broken(watch: Watch, seconds: u32, duration: u32) -> u32
    ensures { result ≡ first_broken watch seconds duration }
{
    if watch.broken != 0 {
        return watch.broken;
    }
    if watch.tested & (seconds != duration) {
        return watch.line;
    }
    0
}

// The watch of a signal after an ordinary step that shows `phase`, has `line` and starts at `time`;
// `duration` is that of the phase that the signal showed before.
fn watch_after(
    watch: Watch,
    signal: &Signal,
    phase: u32,
    line: u32,
    time: u32,
    duration: u32,
) -> Watch
    ensures { result ≡ watch_after watch signal.now phase line time duration }
{
    if phase == signal.shown {
        return Watch { line, ..watch };
    }
    Watch {
        tested: signal.greatest_cycle <= time,
        line,
        broken: first_broken(watch, signal.shown_for, duration),
    }
}

// The duration of the phase that a signal shows, by its line of the sheet.
fn duration_of(line: &[u32], signal: &Signal) -> u32
    requires { DurationAsked line.now signal.now }
    ensures { result ≡ duration_in line.now signal.now }
{
    line[step_signals::place_of(signal.shown)]
}

// Moves the watches on by a step whose lines say which phases the signals show and trams ask.
// `signals` are those before it. If a tram asks a phase of a signal, its watch stays.
fn watch_signals(pass: &mut Pass, signals: &[Signal], said: &Lines, table: &[SheetLine])
    requires { WatchAsked pass.old signals.now said.now table.now }
    ensures { Watched pass.old signals.now (length signals.now) said.now table.now pass.new }
{
    // A step's line is its boundary counted from 1: the cast loses nothing.
    let line = (pass.place.boundary + 1) as u32;
    let time = pass.time;
    for (i, signal) in signals.iter().enumerate() {
        if said.asked[i] == 0 {
            let duration = duration_of(&table[i], signal);
            let watch = pass.watches[i];
            pass.watches[i] = watch_after(watch, signal, said.phases[i], line, time, duration);
        }
    }
}

// Whether a line that was found comes before another; 0 is none.
fn is_earlier(x: u32, y: u32) -> bool
    ensures { result ≡ earlier x y }
{
    (x != 0) & ((y == 0) | (x < y))
}

// Refusal 34: the least of the lines that were found, then the lowest signal. Line and item are 0
// for none, as in a watch. A loop: of `min_by_key` only its turns (`ran`) say that the first of
// equal keys wins, and after a `filter` that did not prove this.
fn check_runs(watches: &[Watch]) -> Result<(), Refusal>
    requires { length watches.now < 4294967296 }
    ensures { result ≡ pass_verdict (λ i. (watch_in watches.now i).broken) (length watches.now) }
{
    let mut line: u32 = 0;
    let mut item = 0;
    for (i, watch) in watches.iter().enumerate() {
        if is_earlier(watch.broken, line) {
            line = watch.broken;
            item = i + 1;
        }
    }
    if line == 0 {
        return Ok(());
    }
    Err(Reason::SheetRun.refusal(line as usize, item))
}

// Passes over the next step of an accepted plan. Its lines are read again; none of them is
// malformed.
fn pass_step(run: &Run, table: &[SheetLine], signals: &mut [Signal], mut pass: Pass) -> Pass
    requires { StepAsked run.now table.now signals.old pass }
    ensures { StepGot run.now.tables.now.text.now run.now.plan.now table.now pass result signals.new }
{
    let count = run.tables.reading.counts.signals;
    let mut said = Lines::default();
    let Some(place) = run.read_lines(pass.place, signals, &mut said) else {
        return pass;
    };
    watch_signals(&mut pass, &signals[..count], &said, table);
    let seconds = said.step[0];
    step_signals::advance(signals, count, &said.phases, &said.asked, seconds);
    Pass {
        place,
        time: pass.time + seconds,
        ..pass
    }
}

// Refusal 34, by a pass over all steps of an accepted plan. Not inlined, so that its tables are not
// on the stack while the plan is judged.
#[inline(never)]
fn pass_plan(
    plan: &[u8],
    tables: &NetworkTables,
    table: &[SheetLine],
    signals: &mut [Signal],
) -> Result<(), Refusal>
    requires { PassAsked plan.now tables.now table.now signals.old }
    ensures { PassGot tables.now.text.now plan.now table.now result }
{
    let reading = tables.reading;
    let mut room = [Tram::default(); MAX_TRAMS];
    let trams = network_trams::load_trams(tables, &mut room);
    let run = Run {
        plan,
        tables,
        trams,
    };
    let mut pass = Pass {
        place: Place::first(reading.steps_at),
        time: 0,
        watches: [Watch::default(); MAX_SIGNALS],
    };
    for _ in 0..reading.counts.steps {
        pass = pass_step(&run, table, signals, pass);
    }
    let watches = pass.watches;
    check_runs(&watches[..reading.counts.signals])
}

// Judges a plan on a network that has passed, and whether it keeps a sheet: refusals 33, 8, the
// plan's own, and last 34.
fn check_on_network(
    tables: &NetworkTables,
    plan: &[u8],
    sheet: &[u8],
    start: &mut Start,
    ledger: &mut [u32],
) -> Result<Totals, Refusal>
    requires { StartLoaded tables.now start.old }
    ensures { SheetPromises (lines tables.now.text.now) (lines sheet.now) (plan_of tables.now.text.now plan.now) ledger.old ledger.new result }
{
    let count = tables.reading.counts.signals;
    let mut table = [[0u32; SHEET_FIELDS]; MAX_SIGNALS];
    sheet_lines::read_sheet(sheet, &start.signals[..count], false, &mut table)?;
    let mut signals = start.signals;
    let totals = plan_check::judge_loaded(plan, tables, start, ledger)?;
    pass_plan(plan, tables, &table, &mut signals)?;
    Ok(totals)
}

// Whether an accepted plan keeps a sheet: refusals 1 to 6, 28 and 30, then 33, 8, the plan's own,
// and last 34. A refusal by 34 leaves all rows written.
pub fn check_sheet(
    network: &[u8],
    plan: &[u8],
    sheet: &[u8],
    ledger: &mut [u32],
) -> Result<Totals, Refusal>
    ensures sheet_promises { SheetPromises (lines network.now) (lines sheet.now) (plan_of network.now plan.now) ledger.old ledger.new result }
    ensures padding_ignored { PaddingIgnored network.now (λ padded_network. PaddingIgnored plan.now (λ padded_plan. PaddingIgnored sheet.now (λ padded_sheet. SheetPromises (lines padded_network) (lines padded_sheet) (plan_of padded_network padded_plan) ledger.old ledger.new result))) }
{
    let mut start = Start::default();
    let mut room = Room::default();
    let tables = network::read_start(network, &mut start, &mut room)?;
    check_on_network(&tables, plan, sheet, &mut start, ledger)
}

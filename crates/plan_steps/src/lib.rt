// The steps of a plan, taken one after another: each is read, judged and, where every rule is kept,
// written into the ledger.
#![tactic(auto)]

ghost use Rattle.std.specs.Prelude.{◌≡◌, ◌+◌, ◌*◌, ◌≤◌};
ghost use Rattle.model.specs.Network.{max_steps};
ghost use Rattle.plan_steps.specs.PlanLine.{LineAsked, LineGot};
ghost use Rattle.plan_steps.specs.Totals.{totals_after, TotalsAsked};
ghost use Rattle.plan_steps.specs.Reading.{ReadAsked, ReadGot};
ghost use Rattle.plan_steps.specs.State.{first_place, FirstAsked, first_state, NextAsked, NextGot, StepAsked, StepGot, finished};
ghost use Rattle.plan_steps.specs.Steps.{StepsAsked, StepsGot, RunAsked, RunGot};

use base_search::{Reason, Refusal, checked};
use model::{Signal, Totals};
use network::Start;
use network_tables::{
    Counts, LINE_SIZE, MAX_LINKS, MAX_SIGNALS, MAX_TRAMS, NetworkTables, ROW_SIZE, STEP_SIZE, Tram,
    row_start,
};
use step_past::Arrival;
use step_rows::Step;

// How far both texts are read: up to a boundary, where the `S` and the `P` line of the next step
// start.
#[derive(Clone, Copy)]
pub struct Place {
    pub boundary: usize,
    pub step_at: usize,
    pub plan_at: usize,
}

impl Place {
    // Before the first step, whose `S` line starts there.
    pub fn first(step_at: usize) -> Self
        ensures { result ≡ first_place step_at }
    {
        Place {
            boundary: 0,
            step_at,
            plan_at: 0,
        }
    }
}

// The state at a boundary: the place of the next step's lines, the totals so far, and how many wait
// outside. The signals stand beside it, in a lent table, from which each is judged and stepped on
// by value: in the state, each step would copy eight of 88 bytes.
#[derive(Clone, Copy)]
pub struct State {
    pub place: Place,
    pub totals: Totals,
    pub outside: u64,
}

// What the lines of a step say: the numbers of its `S` line and of its `P` line, the phases that
// are shown, and those that trams ask. While a plan is judged, those who wait are added to each
// demand. `take_steps` lends one from step to step, so that it is not cleared each time; a sheet's
// check makes one for each step.
#[derive(Drop, Default)]
pub struct Lines {
    pub step: [u32; STEP_SIZE],
    pub plan: [u32; LINE_SIZE],
    pub phases: [u32; MAX_SIGNALS],
    pub asked: [u32; MAX_SIGNALS],
}

// What all steps are taken by: the plan's text, the network's tables, and its trams.
#[derive(Clone, Copy)]
pub struct Run<'a> {
    pub plan: &'a [u8],
    pub tables: &'a NetworkTables<'a>,
    pub trams: &'a [Tram],
}

// Length × (vehicles under way at the step's start + at its end). It requires at most 60 seconds,
// as step_signals does.
fn travel_time(seconds: u32, start: u64, end: u64) -> u64
    requires { (seconds ≤ 60) × (start ≤ 192220015080) × (end ≤ 192220015080) }
    ensures { (result ≡ seconds * (start + end)) × (result ≤ 23066401809600) }
{
    u64::from(seconds) * (start + end)
}

// The totals with one step more. What is inside changes by what the step admits and lets out; those
// who wait outside, so many before the step and after it, are in its travel time alone.
fn add_step(
    totals: Totals,
    before: u64,
    after: u64,
    line: &[u32],
    step: &[u32],
    counts: Counts,
) -> Totals
    requires { TotalsAsked totals before after counts line.now step.now }
    ensures { result ≡ totals_after totals before after counts line.now step.now }
{
    let admitted = step_rows::all_admitted(line, counts);
    let let_out = step_rows::all_let_out(line, counts);
    let inside = totals.inside + admitted - let_out;
    let time = travel_time(step[0], totals.inside + before, inside + after);
    Totals {
        admitted: totals.admitted + admitted,
        let_out: totals.let_out + let_out,
        inside,
        doubled_time: totals.doubled_time + time,
    }
}

// The state before the first step, by row 0 and those who wait at the start.
fn first_state(tables: &NetworkTables, waiting: &[u32], row: &[u32]) -> State
    requires { FirstAsked tables.now waiting.now row.now }
    ensures { result ≡ first_state tables.now waiting.now row.now }
{
    let counts = tables.reading.counts;
    let totals = Totals {
        admitted: 0,
        let_out: 0,
        inside: step_rows::held_in(&row[..2 * counts.links]),
        doubled_time: 0,
    };
    State {
        place: Place::first(tables.reading.steps_at),
        totals,
        outside: step_rows::sum_of(&waiting[..counts.links]),
    }
}

// The state after a step that keeps every rule; moves on the signals and those who wait. `state`
// already has the place of the next lines.
fn next_state(
    state: State,
    lines: &Lines,
    counts: Counts,
    signals: &mut [Signal],
    waiting: &mut [u32],
) -> State
    requires { NextAsked state lines.now counts signals.old waiting.old }
    ensures { NextGot state lines.now counts signals.old signals.new waiting.new result }
{
    let step = &lines.step;
    step_rows::next_waiting(step, &lines.plan, counts, waiting);
    step_signals::advance(
        signals,
        counts.signals,
        &lines.phases,
        &lines.asked,
        step[0],
    );
    let outside = step_rows::sum_of(&waiting[..counts.links]);
    let totals = add_step(
        state.totals,
        state.outside,
        outside,
        &lines.plan,
        step,
        counts,
    );
    State {
        totals,
        outside,
        ..state
    }
}

// Reads the numbers of a step's `P` line. An empty text means hold: each signal keeps its phase,
// and every volume is 0, as it already is in `line`. Signals and counts are two parameters here and
// in `next_state`: the table has room for eight signals, and the counts say how many there are and
// how wide the line is.
pub fn read_line(
    plan: &[u8],
    at: usize,
    signals: &[Signal],
    counts: Counts,
    line: &mut [u32],
) -> Option<usize>
    requires { LineAsked signals.now counts line.old }
    ensures { LineGot plan.now at signals.now counts line.old result line.new }
{
    if plan.is_empty() {
        step_signals::hold_masks(&signals[..counts.signals], line);
        return Some(at);
    }
    network_tables::read_row(plan, at, b'P', &mut line[..counts.plan_width()])
}

impl Run<'_> {
    // Reads the lines of the next step, and finds the phases that signals show and trams ask.
    // Returns the place after the lines; none if the `P` line is malformed. Inlined, for
    // check_plan's speed (docs/MEASUREMENTS.md).
    #[inline(always)]
    pub fn read_lines(&self, place: Place, signals: &[Signal], lines: &mut Lines) -> Option<Place>
        requires { ReadAsked self.now place signals.now lines.old }
        ensures { ReadGot self.now.tables.now.text.now self.now.plan.now place result lines.new }
    {
        let counts = self.tables.reading.counts;
        let step_at = network_tables::read_again(
            self.tables.text,
            place.step_at,
            b'S',
            &mut lines.step[..counts.step_width()],
        );
        let plan_at = read_line(self.plan, place.plan_at, signals, counts, &mut lines.plan)?;
        step_signals::shown_phases(signals, counts.signals, &lines.plan, &mut lines.phases);
        // Cleared, since only what trams ask is written.
        lines.asked = [0; MAX_SIGNALS];
        network_trams::tram_phases(self.trams, place.boundary, &mut lines.asked);
        Some(Place {
            boundary: place.boundary + 1,
            step_at,
            plan_at,
        })
    }

    // Takes the next step: reads its lines, judges it and, if every rule is kept, writes the row
    // after it into the ledger and returns the state there. The five tables that a step changes are
    // lent one by one: a struct of them would be taken apart again in each call of the step.
    fn take_step(
        &self,
        state: State,
        signals: &mut [Signal],
        arrivals: &mut [Arrival],
        waiting: &mut [u32],
        ledger: &mut [u32],
        lines: &mut Lines,
    ) -> Result<State, Refusal>
        requires { StepAsked self.now state signals.old arrivals.old waiting.old ledger.old lines.old }
        ensures { StepGot self.now.tables.now.text.now self.now.plan.now ledger.old state result signals.new arrivals.new waiting.new ledger.new lines.new }
    {
        let counts = self.tables.reading.counts;
        let n = state.place.boundary;
        let mut row = [0u32; ROW_SIZE];
        let Some(place) = self.read_lines(state.place, signals, lines) else {
            return Err(Reason::PlanForm.refusal(n + 1, 0));
        };
        step_rows::add_waiting(&waiting[..counts.links], &mut lines.step);
        step_past::next_arrivals(self.tables, counts.past + n + 1, arrivals);
        let step = Step {
            counts,
            links: self.tables.links,
            movements: self.tables.movements,
            times: self.tables.times,
            signals,
            plan_line: &lines.plan,
            step_line: &lines.step,
            phases: &lines.phases,
            asked: &lines.asked,
            ledger,
            arrivals,
            boundary: n,
        };
        step_check::judge_step(&step, &mut row)?;
        step_rows::write_row(
            ledger,
            row_start(n + 1, counts.links),
            &row[..2 * counts.links],
        );
        Ok(next_state(State { place, ..state }, lines, counts, signals, waiting))
    }
}

// The answer once all steps have passed.
fn finish(plan: &[u8], at: usize, steps: usize, totals: Totals) -> Result<Totals, Refusal>
    requires { steps ≤ max_steps }
    ensures { result ≡ finished plan.now at steps totals }
{
    checked(
        text_reader::is_end(plan, at),
        Reason::PlanForm,
        steps + 1,
        0,
    )?;
    Ok(totals)
}

// Writes row 0 and takes the first `steps` steps, up to the first that is refused. Moves on the
// signals and the arrivals of `start`. Returns the state after the last step; `start` then has the
// signals there, and `waiting` those who wait there.
pub fn take_steps(
    plan: &[u8],
    tables: &NetworkTables,
    steps: usize,
    start: &mut Start,
    waiting: &mut [u32],
    ledger: &mut [u32],
) -> Result<State, Refusal>
    requires { StepsAsked tables.now steps start.old waiting.old ledger.old }
    ensures { StepsGot tables.now.text.now plan.now ledger.old steps result start.new.signals waiting.new ledger.new }
{
    let mut room = [Tram::default(); MAX_TRAMS];
    let trams = network_trams::load_trams(tables, &mut room);
    // A copy of row 0, which the compiler knows not to lie in the ledger: else the library would
    // need memmove.
    let row = start.row;
    let Start {
        signals,
        arrivals,
        ..
    } = start;
    step_rows::write_row(ledger, 0, &row[..2 * tables.reading.counts.links]);
    step_rows::first_waiting(tables.links, waiting);
    let mut state = first_state(tables, waiting, &row);
    let run = Run {
        plan,
        tables,
        trams,
    };
    let mut lines = Lines::default();
    for _ in 0..steps {
        state = run.take_step(state, signals, arrivals, waiting, ledger, &mut lines)?;
    }
    Ok(state)
}

// Takes all steps, from the start on. A plan with more lines than steps is refused after the last.
pub fn run_steps(
    plan: &[u8],
    tables: &NetworkTables,
    start: &mut Start,
    ledger: &mut [u32],
) -> Result<Totals, Refusal>
    requires { RunAsked tables.now start.old ledger.old }
    ensures { RunGot tables.now.text.now plan.now ledger.old result ledger.new }
{
    let mut waiting = [0u32; MAX_LINKS];
    let steps = tables.reading.counts.steps;
    let state = take_steps(plan, tables, steps, start, &mut waiting, ledger)?;
    finish(plan, state.place.plan_at, steps, state.totals)
}

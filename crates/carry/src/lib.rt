// Carrying on from a boundary (T-09): the call `carry_on`. The text is written twice: first where
// there is no room, which measures it, then into the buffer if it fits.
#![tactic(auto)]

ghost use Rattle.std.specs.Prelude.{◌≡◌, ◌∷◌, ◌<◌, ◌≤◌, length, get_or, map, option_to_list};
ghost use Rattle.text_reader.specs.Lines.{lines};
ghost use Rattle.text_reader.specs.Padding.{PaddingIgnored};
ghost use Rattle.text_reader.specs.Reading.{over};
ghost use Rattle.text_writer.specs.Records.{record_texts};
ghost use Rattle.base_laws.specs.Sum.{joined};
ghost use Rattle.model.specs.Network.{max_trams};
ghost use Rattle.model.specs.Table.{letter_g};
ghost use Rattle.network_tables.specs.Places.{Few};
ghost use Rattle.network_tables.specs.Fields.{signal_at, past_size, tram_row};
ghost use Rattle.network_tables.specs.Tables.{TramTable};
ghost use Rattle.network.specs.Loading.{StartLoaded};
ghost use Rattle.model_carry.specs.Call.{planned_on};
ghost use Rattle.model_carry.specs.CarriesOn.{CarriedOn};
ghost use Rattle.model_carry.specs.Part.{signal_numbers};
ghost use Rattle.network_writer.specs.Put.{Put, Early};
ghost use Rattle.carry.specs.Carrying.{StepsAsked, CarryGot};
ghost use Rattle.carry.specs.Rows.{count_row, volumes_in, Copied, SignalsAsked, VolumesAsked, StepsPutAsked, StepsPut};
ghost use Rattle.carry.specs.Carried.{CarryAsked, TextPut, TextWritten};
ghost use Rattle.carry.specs.Trams.{left_of};

use base_search::{Reason, Refusal, checked};
use model::{SIGNAL_FIELDS, Signal};
use network::{Room, Start};
use network_tables::{
    COUNT_FIELDS, Counts, Link, MAX_LINKS, MAX_TRAMS, NetworkTables, PAST_SIZE, Tram, entered_at,
    left_at, read_again, row_start,
};
use network_writer::{Output, count_rows};

// How a network stands at a boundary of a plan: its signals, the vehicles that wait, and the
// ledger's rows up to there. All are lent.
#[derive(Clone, Copy)]
struct Standing<'a> {
    pub boundary: usize,
    pub signals: &'a [Signal],
    pub waiting: &'a [u32],
    pub ledger: &'a [u32],
}

// Lines of a network that have passed: where the first starts, their letter, how many numbers each
// has, and how many lines there are.
#[derive(Clone, Copy)]
struct PassedLines {
    at: usize,
    letter: u8,
    width: usize,
    count: usize,
}

impl PassedLines {
    // Puts these lines, unchanged.
    fn put(self, text: &[u8], output: &mut Output)
        requires { (self.width ≤ past_size) × Early self.count output.old }
        ensures { Copied text.now self output.old output.new }
    {
        let mut numbers = [0u32; PAST_SIZE];
        let row = &mut numbers[..self.width];
        let mut line = self.at;
        for _ in 0..self.count {
            line = read_again(text, line, self.letter, row);
            output.put_line(self.letter, row);
        }
    }
}

// The numbers of the `N` line. Not a `From`: that can have no precondition, and the casts need one
// on the counts. Each count fits 32 bits, so no cast loses anything.
#[tactic(auto, unfolding(crate::specs::Rows::count_row))]
fn count_row(counts: Counts, boundary: usize, trams: usize) -> [u32; COUNT_FIELDS]
    requires { Few counts × (boundary ≤ counts.steps) × (trams ≤ max_trams) }
    ensures { result ≡ count_row counts boundary trams }
{
    [
        counts.links as u32,
        counts.signals as u32,
        counts.movements as u32,
        (counts.steps - boundary) as u32,
        trams as u32,
        (counts.past + boundary) as u32,
    ]
}

// What is left of a tram after a boundary, with its steps counted from there; none if all its steps
// are over.
fn rest_of(tram: Tram, boundary: u32) -> Option<Tram>
    ensures { map tram_row (option_to_list result) ≡ left_of boundary tram }
{
    if tram.last_step <= boundary {
        return None;
    }
    Some(Tram {
        first_step: tram.first_step.saturating_sub(boundary).max(1),
        last_step: tram.last_step - boundary,
        ..tram
    })
}

// Puts the `G` lines of signals; how long a line is depends on the signal's phases. split_text has
// the same loop: a method of `Output` would need a contract longer than the loop.
fn put_signals(signals: &[Signal], output: &mut Output)
    requires { SignalsAsked signals.now output.old }
    ensures { Put (length signals.now) (record_texts letter_g (length signals.now) (λ k. signal_numbers (signal_at signals.now k))) output.old output.new }
{
    for signal in signals {
        let row = <[u32; SIGNAL_FIELDS]>::from(signal);
        output.put_line(b'G', &row[..signal.width()]);
    }
}

// Fills a row, after the step's length, with what entered and what left each link in step n: the
// ledger's row after the step minus the row before it. By index: each turn reads two rows and
// writes two places.
fn fill_volumes(ledger: &[u32], links: usize, n: usize, row: &mut [u32])
    requires { VolumesAsked ledger.now links n row.old }
    ensures { row.new ≡ over (get_or row.old 0 0 ∷ joined links (volumes_in ledger.now links n)) row.old }
{
    for i in 0..links {
        let entered = entered_at(ledger, links, n, i);
        let left = left_at(ledger, links, n, i);
        row[1 + 2 * i] = entered_at(ledger, links, n + 1, i) - entered;
        row[2 + 2 * i] = left_at(ledger, links, n + 1, i) - left;
    }
}

// Puts the steps before the boundary as `H` lines: their lengths are in their `S` lines, their
// volumes in the ledger. Returns where the next `S` line starts.
fn put_steps(tables: &NetworkTables, standing: &Standing, output: &mut Output) -> usize
    requires { StepsPutAsked tables.now standing.now output.old }
    ensures { StepsPut tables.now standing.now output.old result output.new }
{
    let counts = tables.reading.counts;
    let mut row = [0u32; PAST_SIZE];
    let mut line = tables.reading.steps_at;
    for n in 0..standing.boundary {
        line = read_again(tables.text, line, b'S', &mut row[..counts.step_width()]);
        fill_volumes(standing.ledger, counts.links, n, &mut row);
        output.put_line(b'H', &row[..counts.past_width()]);
    }
    line
}

// Writes the whole text at the beginning of a buffer, line by line as far as it fits, and returns
// its length.
fn put_network(tables: &NetworkTables, trams: &[Tram], standing: &Standing, out: &mut [u8]) -> usize
    requires carry_asked { CarryAsked tables.now standing.now }
    requires tram_table { TramTable (lines tables.now.text.now) trams.now }
    ensures { TextPut tables.now.text.now standing.now out.old out.new result }
{
    let counts = tables.reading.counts;
    let boundary = standing.boundary;
    // The boundary is at most the number of steps, so that the cast loses nothing.
    let before = boundary as u32;
    let left = count_rows(trams, |_, tram| rest_of(tram, before));
    let mut output = Output { out, at: 0 };
    output.put_line(b'N', &count_row(counts, boundary, left));
    output.put_rows(b'T', trams, |_, tram| rest_of(tram, before));
    put_signals(&standing.signals[..counts.signals], &mut output);
    output.put_rows(b'Q', tables.links, |i, link| {
        Some(Link {
            waiting: standing.waiting[i],
            ..link
        })
    });
    output.put_rows(b'M', tables.movements, |_, movement| Some(movement));
    let past = PassedLines {
        at: tables.reading.past_at,
        letter: b'H',
        width: counts.past_width(),
        count: counts.past,
    };
    past.put(tables.text, &mut output);
    let rest = PassedLines {
        at: put_steps(tables, standing, &mut output),
        letter: b'S',
        width: counts.step_width(),
        count: counts.steps - boundary,
    };
    rest.put(tables.text, &mut output);
    output.at
}

// Writes the network text from a boundary on, when the steps before it have passed. Refusal 32 if
// the buffer is too short, which is then unchanged.
fn write_carried(
    tables: &NetworkTables,
    standing: &Standing,
    carried: &mut [u8],
) -> Result<usize, Refusal>
    requires { CarryAsked tables.now standing.now }
    ensures { TextWritten tables.now.text.now standing.now carried.old result carried.new }
{
    let mut room = [Tram::default(); MAX_TRAMS];
    let trams = network_trams::load_trams(tables, &mut room);
    let put = |out: &mut [u8]| put_network(tables, trams, standing, out);
    network_writer::write_measured(Reason::CarriedRoom, carried, put)
}

// Takes the plan's steps up to the boundary, and writes the text from there on. Refusals: 9 if
// another line follows, and 32 last. A function of its own: inside `carry_from`, each of the four
// facts after `take_steps` would prove again what `StepsAsked` says once.
fn carry_steps(
    tables: &NetworkTables,
    boundary: usize,
    plan: &[u8],
    start: &mut Start,
    ledger: &mut [u32],
    carried: &mut [u8],
) -> Result<usize, Refusal>
    requires { StepsAsked tables.now boundary start.old ledger.old }
    ensures { CarryGot tables.now.text.now plan.now boundary ledger.old ledger.new carried.old carried.new result }
{
    let mut waiting = [0u32; MAX_LINKS];
    let state = plan_steps::take_steps(plan, tables, boundary, start, &mut waiting, ledger)?;
    let ended = text_reader::is_end(plan, state.place.plan_at);
    checked(ended, Reason::PlanForm, boundary + 1, 0)?;
    let standing = Standing {
        boundary,
        signals: &start.signals,
        waiting: &waiting,
        ledger,
    };
    write_carried(tables, &standing, carried)
}

// Carries on a network that has passed: refusal 31, then 8 for a ledger of that many steps, then
// the steps.
fn carry_from(
    tables: &NetworkTables,
    boundary: usize,
    plan: &[u8],
    start: &mut Start,
    ledger: &mut [u32],
    carried: &mut [u8],
) -> Result<usize, Refusal>
    requires { StartLoaded tables.now start.old }
    ensures { CarryGot tables.now.text.now plan.now boundary ledger.old ledger.new carried.old carried.new result }
{
    let counts = tables.reading.counts;
    if !(1..counts.steps).contains(&boundary) {
        return Err(Reason::CarryBoundary.refusal(0, 0));
    }
    if ledger.len() < row_start(boundary + 1, counts.links) {
        return Err(Reason::Ledger.refusal(0, 0));
    }
    carry_steps(tables, boundary, plan, start, ledger, carried)
}

// Carry on from a boundary: judges a plan of as many lines on the network cut to as many steps, and
// writes the network text from the boundary on. Refusals: those of the whole network (1 to 6, 28,
// 30), 31, 8, the plan's, 32.
pub fn carry_on(
    network: &[u8],
    boundary: u32,
    plan: &[u8],
    ledger: &mut [u32],
    carried: &mut [u8],
) -> Result<usize, Refusal>
    ensures carried_on { CarriedOn (lines network.now) (planned_on (lines network.now) boundary plan.now) boundary ledger.old ledger.new carried.old carried.new result }
    ensures padding_ignored { PaddingIgnored network.now (λ padded_network. PaddingIgnored plan.now (λ padded_plan. CarryGot padded_network padded_plan boundary ledger.old ledger.new carried.old carried.new result)) }
{
    let mut start = Start::default();
    let mut room = Room::default();
    let tables = network::read_start(network, &mut start, &mut room)?;
    // Each `u32` fits a `usize`: the cast loses nothing.
    carry_from(
        &tables,
        boundary as usize,
        plan,
        &mut start,
        ledger,
        carried,
    )
}

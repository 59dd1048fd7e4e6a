// Reads a whole network text into tables and judges it: refusals 1 to 6, 28 and 30.
// Also the call that returns what a valid network has, by its `N` line.
#![tactic(auto)]

ghost use Rattle.std.specs.Prelude.{◌≡◌};
ghost use Rattle.text_reader.specs.Lines.{lines};
ghost use Rattle.text_reader.specs.Padding.{PaddingIgnored};
ghost use Rattle.base_search.specs.Checks.{verdict};
ghost use Rattle.model.specs.Table.{network_checks};
ghost use Rattle.model.specs.Calls.{check_network};
ghost use Rattle.model.specs.Guarantees.{NetworkPromises};
ghost use Rattle.network_tables.specs.Tables.{Judged};
ghost use Rattle.network_signals.specs.Stages.{SignalsHeld};
ghost use Rattle.network.specs.Loading.{first_checks, FirstAsked, end_checks, EndAsked, TablesJudged, timeline_checks, TimelineAsked, TimelineHeld, Rooms, start_of, LoadedFrom, StartedFrom};
ghost use Rattle.network.specs.Counting.{count_network, CountPromises};

use base_search::{Reason, Refusal, checked};
use model::Signal;
use network_tables::{
    Counts, Link, MAX_LINKS, MAX_MOVEMENTS, MAX_SIGNALS, MAX_TRAMS, Movement, NetworkTables,
    ROW_SIZE, Reading, TIME_TABLE_SIZE, Tram,
};
use step_past::Arrival;

// How a network stands at boundary 0, before a plan: its signals, row 0 of the ledger, and what
// each link waits for. Steps move the signals and the arrivals on.
#[derive(Clone, Copy, Default)]
pub struct Start {
    pub signals: [Signal; MAX_SIGNALS],
    pub row: [u32; ROW_SIZE],
    pub arrivals: [Arrival; MAX_LINKS],
}

// The room for what else a network's reading gives: for that of the largest network, since there is
// no heap.
#[derive(Clone, Copy, Default)]
pub struct Room {
    links: [Link; MAX_LINKS],
    movements: [Movement; MAX_MOVEMENTS],
    times: [u32; TIME_TABLE_SIZE],
}

// After the `S` lines: refusal 1 for a surplus line, reported at the line after the last.
fn check_end(text: &[u8], reading: Reading) -> Result<(), Refusal>
    requires { EndAsked text.now reading }
    ensures { result ≡ verdict (end_checks (lines text.now)) }
{
    let counts = reading.counts;
    let line = counts.step_line(counts.steps) + 1;
    let ended = text_reader::is_end(text, reading.next);
    checked(ended, Reason::NetworkForm, line, 0)
}

// The `T` and the `G` lines, then the trams' phases, which are reported at their `T` lines. After
// that no table of the trams is needed.
fn read_trams_and_signals(
    text: &[u8],
    reading: Reading,
    signals: &mut [Signal],
) -> Result<Reading, Refusal>
    requires { FirstAsked text.now reading signals.old }
    ensures { Judged (first_checks (lines text.now)) (SignalsHeld text.now signals.new) result }
{
    let mut trams = [Tram::default(); MAX_TRAMS];
    let reading = network_trams::read_trams(text, reading, &mut trams)?;
    let reading = network_signals::read_signals(text, reading, signals)?;
    let counts = reading.counts;
    network_trams::check_tram_phases(&trams[..counts.trams], signals, counts)?;
    Ok(reading)
}

// The `H` and the `S` lines, the end of the text and, last of all, what the past must keep (30),
// with what it gives at boundary 0.
fn read_timeline<'a>(
    text: &'a [u8],
    reading: Reading,
    links: &'a [Link],
    movements: &'a [Movement],
    times: &'a mut [u32],
    row: &mut [u32],
    arrivals: &mut [Arrival],
) -> Result<NetworkTables<'a>, Refusal>
    requires { TimelineAsked text.now reading links.now times.old row.old arrivals.old }
    ensures { TablesJudged (timeline_checks (lines text.now)) (TimelineHeld text.now links.now movements.now row.new arrivals.new) result }
{
    let mut demands = [0u32; MAX_LINKS];
    let reading = network_past::read_past(text, reading, times)?;
    let reading = network_steps::read_steps(text, reading, times, &mut demands)?;
    check_end(text, reading)?;
    let tables = NetworkTables {
        text,
        reading,
        links,
        movements,
        times,
    };
    network_past::check_past(&tables, &demands, row, arrivals)?;
    Ok(tables)
}

// Reads a network into four tables, row 0 and what each link waits for, and judges it, in the order
// of its lines.
fn read_tables<'a>(
    text: &'a [u8],
    signals: &mut [Signal],
    links: &'a mut [Link],
    movements: &'a mut [Movement],
    times: &'a mut [u32],
    row: &mut [u32],
    arrivals: &mut [Arrival],
) -> Result<NetworkTables<'a>, Refusal>
    requires { Rooms signals.old links.old movements.old times.old row.old arrivals.old }
    ensures { TablesJudged (network_checks (lines text.now)) (StartedFrom text.now (start_of signals.new row.new arrivals.new)) result }
{
    let reading = network_signals::read_counts(text)?;
    let reading = read_trams_and_signals(text, reading, signals)?;
    let reading = network_links::read_links(text, reading, signals, links)?;
    let reading = network_links::read_movements(text, reading, movements)?;
    let counts = reading.counts;
    // From here on each table is as long as the network has links or movements.
    let links = &links[..counts.links];
    let movements = &movements[..counts.movements];
    network_links::check_shares(movements, counts)?;
    read_timeline(text, reading, links, movements, times, row, arrivals)
}

// Reads a network into tables of its signals, its links, its movements and the time of each
// boundary of the timeline, and judges it: refusals 1 to 6, 28 and 30. For calls that judge no
// plan: what the past gives at the start takes no stack of theirs, by measurement
// (docs/MEASUREMENTS.md).
pub fn read_network<'a>(
    text: &'a [u8],
    signals: &mut [Signal; MAX_SIGNALS],
    room: &'a mut Room,
) -> Result<NetworkTables<'a>, Refusal>
    ensures { TablesJudged (network_checks (lines text.now)) (LoadedFrom text.now signals.new) result }
{
    let mut row = [0u32; ROW_SIZE];
    let mut arrivals = [Arrival::default(); MAX_LINKS];
    let Room {
        links,
        movements,
        times,
    } = room;
    read_tables(
        text,
        signals,
        links,
        movements,
        times,
        &mut row,
        &mut arrivals,
    )
}

// The same, with how the network stands at the start: for calls that judge plans.
pub fn read_start<'a>(
    text: &'a [u8],
    start: &mut Start,
    room: &'a mut Room,
) -> Result<NetworkTables<'a>, Refusal>
    ensures { TablesJudged (network_checks (lines text.now)) (StartedFrom text.now start.new) result }
{
    let Start {
        signals,
        row,
        arrivals,
    } = start;
    let Room {
        links,
        movements,
        times,
    } = room;
    read_tables(text, signals, links, movements, times, row, arrivals)
}

// Counts what a valid network has: refusals 1 to 6, 28 and 30.
pub fn count_network(text: &[u8]) -> Result<Counts, Refusal>
    ensures value { result ≡ count_network (lines text.now) }
    ensures count_promises { CountPromises result }
    ensures padding_ignored { PaddingIgnored text.now (λ padded. result ≡ count_network (lines padded)) }
{
    let mut signals = [Signal::default(); MAX_SIGNALS];
    let mut room = Room::default();
    let tables = read_network(text, &mut signals, &mut room)?;
    Ok(tables.reading.counts)
}

// Check a network: refusals 1 to 6, 28 and 30.
pub fn check_network(text: &[u8]) -> Result<(), Refusal>
    ensures value { result ≡ check_network (lines text.now) }
    ensures network_promises { NetworkPromises result }
    ensures padding_ignored { PaddingIgnored text.now (λ padded. result ≡ check_network (lines padded)) }
{
    count_network(text)?;
    Ok(())
}

// The `N` line and the `G` lines of a network text: refusals 1, 2 and 3.
#![tactic(auto)]

ghost use Rattle.std.specs.Prelude.{◌≡◌, ◌≤◌, length};
ghost use Rattle.text_reader.specs.Lines.{lines};
ghost use Rattle.base_laws.specs.Test.{within};
ghost use Rattle.model.specs.Rules.{valid_signal};
ghost use Rattle.model.specs.Table.{count_checks, signal_checks};
ghost use Rattle.network_tables.specs.Tables.{Judged};
ghost use Rattle.network_tables.specs.Blocks.{block_checks, signal_block};
ghost use Rattle.network_signals.specs.Counts.{valid_counts_in, CountsHeld};
ghost use Rattle.network_signals.specs.Signals.{valid_time, valid_times, shortest_time};
ghost use Rattle.network_signals.specs.Stages.{SignalAsked, SignalHeld, SignalsAsked, SignalsHeld};

use base_search::{Reason, Refusal};
use model::{SIGNAL_FIELDS, Signal};
use network_tables::{
    COUNT_FIELDS, Counts, MAX_LINKS, MAX_MOVEMENTS, MAX_PAST, MAX_SECONDS, MAX_SIGNALS, MAX_STEPS,
    MAX_TRAMS, Reading,
};

// How many numbers a `G` line has before those of its phases.
const HEAD_FIELDS: usize = 6;

// How many seconds a phase, and a cycle, may take at most.
const LONGEST_TIME: u32 = 3600;

// Refusal 2.
fn valid_counts(counts: Counts) -> bool
    ensures { result ≡ valid_counts_in counts }
{
    (1..=MAX_LINKS).contains(&counts.links)
        & (counts.signals <= MAX_SIGNALS)
        & (counts.movements <= MAX_MOVEMENTS)
        & (1..=MAX_STEPS).contains(&counts.steps)
        & (counts.trams <= MAX_TRAMS)
        & (counts.past <= MAX_PAST)
}

// The `N` line: refusals 1 and 2.
pub fn read_counts(text: &[u8]) -> Result<Reading, Refusal>
    ensures { Judged (count_checks (lines text.now)) (CountsHeld text.now) result }
{
    let mut fields = [0u32; COUNT_FIELDS];
    let Some(next) = network_tables::read_row(text, 0, b'N', &mut fields) else {
        return Err(Reason::NetworkForm.refusal(1, 0));
    };
    let counts = Counts::from(fields);
    if !valid_counts(counts) {
        return Err(Reason::Counts.refusal(1, 0));
    }
    Ok(Reading {
        counts,
        next,
        trams_at: next,
        past_at: next,
        steps_at: next,
        shortest: 0,
        timed: false,
    })
}

// Refusal 3, the times of one phase.
fn valid_time(least: u32, greatest: u32) -> bool
    ensures { result ≡ valid_time least greatest }
{
    (1 <= least) & (least..=LONGEST_TIME).contains(&greatest)
}

// Refusal 3, the times of every phase.
fn valid_times(signal: Signal) -> bool
    requires { signal.phases ≤ 8 }
    ensures { result ≡ valid_times signal signal.phases }
{
    let phases = signal.phases as usize;
    signal.least[..phases]
        .iter()
        .zip(&signal.greatest[..phases])
        .all(|(&least, &greatest)| valid_time(least, greatest))
}

// Refusal 3, the rest of a `G` line whose number of phases is valid.
fn valid_signal(signal: Signal) -> bool
    requires { signal.phases ≤ 8 }
    ensures { result ≡ valid_signal signal }
{
    if !(1..=signal.phases).contains(&signal.shown) {
        return false;
    }
    let at = signal.shown as usize - 1;
    valid_times(signal)
        & (1 <= signal.least_cycle)
        & (signal.least_cycle..=LONGEST_TIME).contains(&signal.greatest_cycle)
        & (signal.shown_for <= signal.greatest[at])
        & (signal.shown_for..=signal.greatest_cycle).contains(&signal.cycle_clock)
        & ((signal.shown != 1) | (signal.cycle_clock == signal.shown_for))
}

// The least of `so_far` and the greatest times of the signal's phases: no step may be longer
// (refusal 6).
fn shortest_time(signal: Signal, so_far: u32) -> u32
    requires { signal.phases ≤ 8 }
    ensures { result ≡ shortest_time signal signal.phases so_far }
{
    let phases = signal.phases as usize;
    signal.greatest[..phases]
        .iter()
        .fold(so_far, |shortest, greatest| shortest.min(*greatest))
}

// Refusal 3, the number of phases.
fn valid_phases(phases: u32) -> bool
    ensures { result ≡ within 2 phases 8 }
{
    (2..=8).contains(&phases)
}

// The `G` line of signal `r` into its place: refusal 1 for its first seven fields, 3 for its number
// of phases, 1 for the rest of its form, 3 for its other values.
fn read_signal(
    text: &[u8],
    reading: Reading,
    r: usize,
    signals: &mut [Signal],
) -> Result<Reading, Refusal>
    requires { SignalAsked text.now reading r signals.old }
    ensures { Judged (signal_checks (lines text.now) r) (SignalHeld text.now r signals.old signals.new) result }
{
    let at = reading.next;
    let line = reading.counts.signal_line(r) + 1;
    let mut fields = [0u32; SIGNAL_FIELDS];
    if !network_tables::read_head(text, at, b'G', &mut fields[..HEAD_FIELDS]) {
        return Err(Reason::NetworkForm.refusal(line, 0));
    }
    let head = Signal::from(fields);
    if !valid_phases(head.phases) {
        return Err(Reason::Signal.refusal(line, r + 1));
    }
    let width = head.width();
    let Some(next) = network_tables::read_row(text, at, b'G', &mut fields[..width]) else {
        return Err(Reason::NetworkForm.refusal(line, 0));
    };
    let signal = Signal::from(fields);
    if !valid_signal(signal) {
        return Err(Reason::Signal.refusal(line, r + 1));
    }
    signals[r] = signal;
    Ok(reading.moved_to(next))
}

// All `G` lines: the first refusal, or the signals, and the shortest of all greatest times, 60
// where all are longer: no step has more seconds (refusal 6). By index: r also numbers the line and
// the refusal, and `read_signal` takes the whole table and promises to keep the other signals.
pub fn read_signals(
    text: &[u8],
    reading: Reading,
    signals: &mut [Signal],
) -> Result<Reading, Refusal>
    requires { SignalsAsked text.now reading signals.old }
    ensures { Judged (block_checks (signal_block (lines text.now))) (SignalsHeld text.now signals.new) result }
{
    let mut place = reading.next;
    let mut shortest = MAX_SECONDS;
    for r in 0..reading.counts.signals {
        let passed = read_signal(text, reading.moved_to(place), r, signals)?;
        shortest = shortest_time(signals[r], shortest);
        place = passed.next;
    }
    Ok(Reading {
        next: place,
        shortest,
        ..reading
    })
}

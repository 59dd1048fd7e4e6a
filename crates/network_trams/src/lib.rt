// The `T` lines of a network text: refusals 1 and 28, their table, and the phases that trams ask in
// a step by it.
#![tactic(auto)]

ghost use Rattle.std.specs.Prelude.{◌≡◌, ◌<◌, length};
ghost use Rattle.text_reader.specs.Lines.{lines};
ghost use Rattle.base_search.specs.Checks.{each, verdict};
ghost use Rattle.network_tables.specs.Tables.{Judged, TramTable};
ghost use Rattle.network_tables.specs.Blocks.{block_checks, tram_block};
ghost use Rattle.network_trams.specs.Trams.{apart_in, apart_from, valid_tram_in, valid_phase_in, phase_checks_in, PhaseAsked, PhasesAsked};
ghost use Rattle.network_trams.specs.Stages.{TramsAsked, TramsHeld};
ghost use Rattle.network_trams.specs.Claims.{LoadAsked, claimed, ClaimAsked, Claimed, ClaimsAsked};

use base_search::{Reason, Refusal, checked};
use model::Signal;
use network_tables::{Counts, NetworkTables, Reading, Tram, read_rows};

// The line of the first `T` line, behind the `N` line.
const FIRST_LINE: usize = 2;

// Whether two trams have no step in common for one signal.
fn is_apart(a: Tram, b: Tram) -> bool
    ensures { result ≡ apart_in a b }
{
    (a.signal != b.signal) | (a.last_step < b.first_step) | (b.last_step < a.first_step)
}

// Whether tram `k` has no step in common with an earlier tram of its signal.
fn is_apart_from_earlier(trams: &[Tram], k: usize) -> bool
    requires { k < length trams.now }
    ensures { result ≡ apart_from trams.now k k }
{
    let tram = trams[k];
    trams[..k].iter().all(|&earlier| is_apart(earlier, tram))
}

// Refusal 28, tram `k`, but for its phase.
fn valid_tram(trams: &[Tram], signals: usize, steps: usize, k: usize) -> bool
    requires { k < length trams.now }
    ensures { result ≡ valid_tram_in trams.now signals steps k }
{
    let signal = trams[k].signal as usize;
    let first = trams[k].first_step as usize;
    let last = trams[k].last_step as usize;
    (1..=signals).contains(&signal)
        & (1 <= first)
        & (first..=steps).contains(&last)
        & is_apart_from_earlier(trams, k)
}

// The `T` lines: each line's form (refusal 1), then its values (refusal 28). The room gets a tram
// for each of them.
pub fn read_trams(text: &[u8], reading: Reading, trams: &mut [Tram]) -> Result<Reading, Refusal>
    requires { TramsAsked text.now reading trams.old }
    ensures { Judged (block_checks (tram_block (lines text.now))) (TramsHeld text.now trams.new) result }
{
    let counts = reading.counts;
    let judge = |trams: &[Tram], k: usize| {
        let valid = valid_tram(trams, counts.signals, counts.steps, k);
        checked(valid, Reason::Tram, FIRST_LINE + k, 0)
    };
    let next = read_rows(
        text,
        reading.next,
        b'T',
        FIRST_LINE,
        counts.trams,
        trams,
        judge,
    )?;
    Ok(reading.moved_to(next))
}

// Refusal 28: a tram's phase is one of its signal.
fn valid_phase(tram: Tram, signals: &[Signal]) -> bool
    requires { PhaseAsked tram signals.now }
    ensures { result ≡ valid_phase_in tram signals.now }
{
    let last = signals[tram.signal as usize - 1].phases;
    (1..=last).contains(&tram.phase)
}

// Refusal 28 after the last `G` line: each tram's phase is one of its signal, reported at its `T`
// line.
pub fn check_tram_phases(trams: &[Tram], signals: &[Signal], counts: Counts) -> Result<(), Refusal>
    requires { PhasesAsked trams.now signals.now counts }
    ensures { result ≡ verdict (each counts.trams (phase_checks_in trams.now signals.now counts)) }
{
    for (k, &tram) in trams.iter().enumerate() {
        let line = counts.tram_line(k) + 1;
        checked(valid_phase(tram, signals), Reason::Tram, line, 0)?;
    }
    Ok(())
}

// Reads the `T` lines again, which have passed; returns the part of the room that has a tram for
// each.
pub fn load_trams<'a>(tables: &NetworkTables, room: &'a mut [Tram]) -> &'a [Tram]
    requires { LoadAsked tables.now room.old }
    ensures { TramTable (lines tables.now.text.now) result.now }
{
    let count = tables.reading.counts.trams;
    // None of them is refused again.
    let pass = |_: &[Tram], _: usize| Ok(());
    let _ = read_rows(
        tables.text,
        tables.reading.trams_at,
        b'T',
        FIRST_LINE,
        count,
        room,
        pass,
    );
    &room[..count]
}

// Writes a tram's phase at its signal, if `n` is one of its steps.
fn claim(tram: Tram, n: usize, asked: &mut [u32])
    requires { ClaimAsked tram n asked.old }
    ensures { asked.new ≡ claimed tram n asked.old }
{
    let first = tram.first_step as usize;
    let last = tram.last_step as usize;
    if (first..=last).contains(&(n + 1)) {
        asked[tram.signal as usize - 1] = tram.phase;
    }
}

// The phase that a tram asks of each signal in step `n`, 0 in an ordinary step. From the last tram
// to the first: if several claim a signal, the first counts.
pub fn tram_phases(trams: &[Tram], n: usize, asked: &mut [u32])
    requires { ClaimsAsked trams.now n asked.old }
    ensures { Claimed trams.now n asked.new }
{
    for &tram in trams.iter().rev() {
        claim(tram, n, asked);
    }
}

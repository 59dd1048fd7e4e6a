// The `H` lines of a network text: their form (refusal 1), and what they must keep once all lines
// have passed (refusal 30).
#![tactic(auto)]

ghost use Rattle.std.specs.Prelude.{◌≡◌, true};
ghost use Rattle.text_reader.specs.Lines.{lines};
ghost use Rattle.network_tables.specs.Tables.{Judged};
ghost use Rattle.network_tables.specs.Blocks.{block_checks, past_block};
ghost use Rattle.base_search.specs.Checks.{verdict};
ghost use Rattle.model.specs.Rules.{valid_past};
ghost use Rattle.network_past.specs.Past.{FormsAsked, FormsHeld, valid_past_in, TestAsked, valid_links_in, LinksAsked, past_end_checks, EndAsked, PastHeld};

use base_search::{Reason, Refusal};
use network_tables::{MAX_STEPS, NetworkTables, PAST_SIZE, Reading};
use step_past::Arrival;

// How many vehicles come to a link's entry in all steps at most: 120 demands of 600,000.
const MAX_OFFERED: u64 = 72_000_000;

// How many vehicles 23 movements of 10,000 a second bring to a link in a step of 60 seconds.
const MAX_BROUGHT: u64 = 13_800_000;

// The `H` lines: each line's form (refusal 1), and the times of the boundaries of the past, if its
// lengths are valid and all steps are few enough. Not by `read_rows`: the lines are kept in no
// table, but only their times.
pub fn read_past(text: &[u8], reading: Reading, times: &mut [u32]) -> Result<Reading, Refusal>
    requires { FormsAsked text.now reading times.old }
    ensures { Judged (block_checks (past_block (lines text.now))) (FormsHeld text.now times.new) result }
{
    let counts = reading.counts;
    let width = counts.past_width();
    let mut fields = [0u32; PAST_SIZE];
    let mut place = reading.next;
    let mut timed = counts.past + counts.steps <= MAX_STEPS;
    times[0] = 0;
    for m in 0..counts.past {
        let line = counts.timeline_line(m) + 1;
        let read = network_tables::read_row(text, place, b'H', &mut fields[..width]);
        place = read.ok_or(Reason::NetworkForm.refusal(line, 0))?;
        timed = step_arrivals::next_time(times, m, fields[0], timed);
    }
    Ok(Reading {
        next: place,
        past_at: reading.next,
        timed,
        ..reading
    })
}

// Refusal 30, link `i` where the past ends: it has left at most what has arrived, holds at most its
// capacity, and its past entries, waiting volume and demands are few enough.
fn valid_past(
    tables: &NetworkTables,
    demands: &[u32],
    row: &[u32],
    arrivals: &[Arrival],
    i: usize,
) -> bool
    requires { TestAsked tables.now demands.now row.now arrivals.now i }
    ensures { result ≡ valid_past_in tables.now demands.now row.now arrivals.now i }
{
    let past = tables.reading.counts.past;
    let link = tables.links[i];
    let arrival = arrivals[i];
    let seconds = step_arrivals::seconds(tables.times, arrival.step);
    let elapsed = step_arrivals::elapsed(tables.times, arrival.step, past, link.travel_time);
    let arrived = step_arrivals::scaled_arrived(arrival.start, arrival.stop, seconds, elapsed);
    let entered = u64::from(network_tables::entered(row, i));
    let left = network_tables::left(row, i);
    // `as`, not `u64::from`: a cast tells that the field fits 32 bits.
    let came = entered + link.waiting as u64 + u64::from(demands[i]);
    let limit = MAX_OFFERED + MAX_BROUGHT * past as u64 + link.standing as u64;
    (network_tables::product(left, seconds) <= arrived)
        & (entered <= link.capacity as u64 + u64::from(left))
        & (came <= limit)
}

// The same of every link.
fn valid_links(tables: &NetworkTables, demands: &[u32], row: &[u32], arrivals: &[Arrival]) -> bool
    requires { LinksAsked tables.now demands.now row.now arrivals.now }
    ensures { result ≡ valid_links_in tables.now demands.now row.now arrivals.now tables.now.reading.counts.links }
{
    // By index: the tests of a link read five tables.
    (0..tables.reading.counts.links).all(|i| valid_past(tables, demands, row, arrivals, i))
}

// Refusal 30, of the whole past. The lengths of the past and the number of steps were judged as
// they were read.
fn is_valid(
    tables: &NetworkTables,
    demands: &[u32],
    row: &mut [u32],
    arrivals: &mut [Arrival],
) -> bool
    requires { EndAsked tables.now demands.now row.old arrivals.old }
    ensures judged { result ≡ valid_past (lines tables.now.text.now) }
    ensures held { result ≡ true → PastHeld tables.now.text.now row.new arrivals.new }
{
    if !tables.reading.timed {
        return false;
    }
    step_past::load_past(tables, row, arrivals).is_some()
        && valid_links(tables, demands, row, arrivals)
}

// Refusal 30, after all lines. The `H` lines are read for it, so that it also gives what they say
// of boundary 0: row 0, and what each link waits for.
pub fn check_past(
    tables: &NetworkTables,
    demands: &[u32],
    row: &mut [u32],
    arrivals: &mut [Arrival],
) -> Result<(), Refusal>
    requires { EndAsked tables.now demands.now row.old arrivals.old }
    ensures judged { result ≡ verdict (past_end_checks (lines tables.now.text.now)) }
    ensures held { result ≡ Ok tt → PastHeld tables.now.text.now row.new arrivals.new }
{
    let valid = is_valid(tables, demands, row, arrivals);
    base_search::checked(valid, Reason::Past, 0, 0)
}

// What entered the links in the past, by the `H` lines: row 0, and for each link what had entered
// it by the start and by the end of the past step in which its travel time ends. No table of the
// past is kept: each link has the place of the `H` line that is next for it. Of that line its
// number alone is read, or the whole line once for all links that it is next for.
#![tactic(auto)]

ghost use Rattle.std.specs.Prelude.{◌≡◌, ◌+◌, ◌*◌, ◌<◌, ◌≤◌, length};
ghost use Rattle.network_tables.specs.Fields.{past_entries_in};
ghost use Rattle.step_past.specs.Curves.{CurveAsked, CurveGot, ReadAsked, ReadGot, Started, FindAsked, Found, KeepAsked, Kept, PastAsked, PastLoaded, LinksAsked, LinksMoved, MoveAsked, PastMoveAsked, Moved, NextAsked, NextGot, arrival_after};

use network_tables::{Link, NetworkTables, PAST_SIZE};

// What a link is waiting for: the step in which its travel time ends. If that is a past one, also
// what had entered the link by that step's start and by its end, and the place of the `H` line
// after it. These three are not an `Option`: with one, check_plan took 126 instructions more on the
// corridor and 1.2 % more on the largest plan.
#[derive(Clone, Copy, Default)]
pub struct Arrival {
    pub step: usize,
    pub start: u32,
    pub stop: u32,
    pub place: usize,
}

// An `H` line that is read again: its step, its numbers, and the place of the line after it.
#[derive(Clone, Copy)]
pub struct PastLine<'a> {
    pub step: usize,
    pub fields: &'a [u32],
    pub next: usize,
}

impl PastLine<'_> {
    // What enters link `i` in the step.
    fn entries(&self, i: usize) -> u32
        requires { 1 + 2 * i < length self.now.fields.now }
        ensures { result ≡ past_entries_in self.now.fields.now i }
    {
        self.fields[1 + 2 * i]
    }

    // What link `i` waits for at the line, by what it waited for at the one before.
    fn after(&self, arrival: Arrival, i: usize) -> Arrival
        requires within { 1 + 2 * i < length self.now.fields.now }
        requires fits { arrival.stop + past_entries_in self.now.fields.now i < 4294967296 }
        ensures { result ≡ arrival_after self.now i arrival }
    {
        Arrival {
            step: self.step,
            start: arrival.stop,
            stop: arrival.stop + self.entries(i),
            place: self.next,
        }
    }
}

// What link `i` waits for at the `H` line of a step, by what it waited for at the one before: of
// that line its number alone is read.
fn next_curve(text: &[u8], i: usize, step: usize, arrival: Arrival) -> Arrival
    requires { CurveAsked text.now i step arrival }
    ensures { CurveGot text.now i step result }
{
    let entries = text_reader::number_at(text, arrival.place, 1 + 2 * i);
    Arrival {
        step,
        start: arrival.stop,
        stop: arrival.stop + entries.value,
        place: entries.next,
    }
}

// Reads `H` lines `from` to `to` - 1 for link `i`.
pub fn read_on(text: &[u8], i: usize, from: usize, to: usize, mut arrival: Arrival) -> Arrival
    requires { ReadAsked text.now i from to arrival }
    ensures { ReadGot text.now i from to arrival result }
{
    for step in from..to {
        arrival = next_curve(text, i, step, arrival);
    }
    arrival
}

// A row at the start of the timeline: what stands on each link has entered it, and nothing has
// left.
fn start_row(links: &[Link], row: &mut [u32])
    requires { 2 * length links.now ≤ length row.old }
    ensures { Started links.now row.old row.new }
{
    for (i, link) in links.iter().enumerate() {
        row[2 * i] = link.standing;
        row[2 * i + 1] = 0;
    }
}

// Finds the step in which each link's travel time before boundary 0 ends.
fn find_steps(tables: &NetworkTables, arrivals: &mut [Arrival])
    requires { FindAsked tables.now arrivals.old }
    ensures { Found tables.now tables.now.reading.counts.links arrivals.new }
{
    let counts = tables.reading.counts;
    for (i, link) in tables.links.iter().enumerate() {
        let step = step_arrivals::arrival_step(tables.times, 0, counts.past, link.travel_time);
        arrivals[i] = Arrival {
            step,
            ..Arrival::default()
        };
    }
}

// Keeps what had entered each link whose travel time ends in the line's step, by the row at the
// step's end. Inlined, for check_plan's speed (docs/MEASUREMENTS.md).
#[inline(always)]
fn keep_curves(line: &PastLine, row: &[u32], arrivals: &mut [Arrival])
    requires { KeepAsked line.now row.now arrivals.old }
    ensures { Kept line.now row.now arrivals.old arrivals.new }
{
    for (i, arrival) in arrivals.iter_mut().enumerate() {
        if arrival.step == line.step {
            let stop = network_tables::entered(row, i);
            *arrival = Arrival {
                step: line.step,
                start: stop - line.entries(i),
                stop,
                place: line.next,
            };
        }
    }
}

// Row 0, by all `H` lines, in the front of `row`; and what each link waits for at boundary 0.
// `None` where a number of row 0 does not fit 32 bits. Inlined, for check_plan's speed
// (docs/MEASUREMENTS.md).
#[inline(always)]
pub fn load_past(tables: &NetworkTables, row: &mut [u32], arrivals: &mut [Arrival]) -> Option<()>
    requires { PastAsked tables.now row.old arrivals.old }
    ensures { PastLoaded tables.now row.old result row.new arrivals.new }
{
    let counts = tables.reading.counts;
    let width = counts.past_width();
    start_row(tables.links, row);
    find_steps(tables, arrivals);
    let mut fields = [0u32; PAST_SIZE];
    let mut place = tables.reading.past_at;
    for step in 0..counts.past {
        place = network_tables::read_again(tables.text, place, b'H', &mut fields[..width]);
        network_tables::add_numbers(&fields[1..width], row)?;
        let line = PastLine {
            step,
            fields: &fields,
            next: place,
        };
        keep_curves(&line, row, &mut arrivals[..counts.links]);
    }
    Some(())
}

// Moves each link from `first` on by an `H` line to a boundary that is `since` seconds past the
// start of the line's step, if the link is at the step before and its travel time ends in the
// line's step or later.
fn move_links(
    line: &PastLine,
    tables: &NetworkTables,
    since: u32,
    first: usize,
    arrivals: &mut [Arrival],
)
    requires { LinksAsked line.now tables.now since first arrivals.old }
    ensures { LinksMoved line.now tables.now since first arrivals.old arrivals.new }
{
    let from = line.step - 1;
    // By index: it begins at `first`, and a link stands beside each.
    for i in first..tables.reading.counts.links {
        let arrival = arrivals[i];
        if (arrival.step == from) & (tables.links[i].travel_time <= since) {
            arrivals[i] = line.after(arrival, i);
        }
    }
}

// Moves link `i`, whose travel time ends in past step `to`, on to the timeline's boundary `at`, by
// whole `H` lines: a line that is read for it moves the links behind it on too. Not inlined, so
// that its numbers take no stack where one number is read (docs/MEASUREMENTS.md).
#[inline(never)]
fn move_by_lines(tables: &NetworkTables, at: usize, i: usize, to: usize, arrivals: &mut [Arrival])
    requires { PastMoveAsked tables.now at i to arrivals.old }
    ensures { Moved tables.now at i arrivals.old arrivals.new }
{
    let times = tables.times;
    let width = tables.reading.counts.past_width();
    let mut fields = [0u32; PAST_SIZE];
    // No `for`: how many lines are read is known only by where they move the link.
    while arrivals[i].step < to {
        let step = arrivals[i].step + 1;
        let place = arrivals[i].place;
        let next = network_tables::read_again(tables.text, place, b'H', &mut fields[..width]);
        let line = PastLine {
            step,
            fields: &fields,
            next,
        };
        let since = times[at] - times[step];
        move_links(&line, tables, since, i, arrivals);
    }
}

// Moves link `i`, whose travel time ends in past step `to`, on to the timeline's boundary `at`.
// Where the two links behind it wait for the same `H` line, lines are read whole, and move these on
// too; else of each line the link's number alone is read: to read a line takes as long as to find
// three of its numbers. Not inlined, for check_plan's speed (docs/MEASUREMENTS.md).
#[inline(never)]
fn move_past(tables: &NetworkTables, at: usize, i: usize, to: usize, arrivals: &mut [Arrival])
    requires { PastMoveAsked tables.now at i to arrivals.old }
    ensures { Moved tables.now at i arrivals.old arrivals.new }
{
    let arrival = arrivals[i];
    let step = arrival.step;
    if i + 2 < tables.reading.counts.links
        && (arrivals[i + 1].step == step) & (arrivals[i + 2].step == step)
    {
        move_by_lines(tables, at, i, to, arrivals);
    } else {
        arrivals[i] = read_on(tables.text, i, step + 1, to + 1, arrival);
    }
}

// Moves link `i` on to the timeline's boundary `at`: the step in which its travel time ends and, as
// long as that is a past one, its curve.
fn move_on(tables: &NetworkTables, at: usize, i: usize, arrivals: &mut [Arrival])
    requires { MoveAsked tables.now at i arrivals.old }
    ensures { Moved tables.now at i arrivals.old arrivals.new }
{
    let from = arrivals[i].step;
    let to = step_arrivals::arrival_step(tables.times, from, at, tables.links[i].travel_time);
    if tables.reading.counts.past <= to {
        arrivals[i].step = to;
        return;
    }
    if from == to {
        return;
    }
    move_past(tables, at, i, to, arrivals);
}

// Moves every link on to the timeline's boundary `at`.
pub fn next_arrivals(tables: &NetworkTables, at: usize, arrivals: &mut [Arrival])
    requires { NextAsked tables.now at arrivals.old }
    ensures { NextGot tables.now at arrivals.new }
{
    // By index: what moves a link may move those behind it.
    for i in 0..tables.reading.counts.links {
        move_on(tables, at, i, arrivals);
    }
}

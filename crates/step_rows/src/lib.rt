// A step of a plan as it is judged, the ledger's row after it and how it is written, the sums for
// the totals, and who waits at the entries. The table of those who wait has one number a link:
// those who waited at the start or came since, and were not admitted.
#![tactic(auto)]

ghost use Rattle.std.specs.Prelude.{◌≡◌, ◌++◌, ◌+◌, ◌*◌, ◌-◌, ◌/◌, ◌<◌, ◌≤◌, length, take, drop};
ghost use Rattle.model.specs.Network.{max_links};
ghost use Rattle.std.specs.Prelude.{sum as list_sum};
ghost use Rattle.base_laws.specs.Sum.{sum};
ghost use Rattle.network_tables.specs.Places.{Few};
ghost use Rattle.network_tables.specs.Fields.{line_size, link_in, admitted_in, let_out_in, entered_in, left_in};
ghost use Rattle.step_rows.specs.Fit.{StepTables};
ghost use Rattle.step_rows.specs.Rows.{pairs, base_entered, base_left, next_row, with_link, add_at, with_movement, BeginAsked, Base, Fits, Added, Room};
ghost use Rattle.step_rows.specs.Waiting.{FirstAsked, FirstWaits, AddAsked, Offers, WaitsAsked, Waits};

use model::Signal;
use network_tables::{Counts, Link, Movement, admitted, entered, left, let_out, moved};
use step_past::Arrival;

// What a step of a plan is judged by; all tables are lent. `plan_line` has the numbers of its `P`
// line, `step_line` those of its `S` line, with who waits in each link's demand; `phases` are those
// that it shows, `asked` those that trams ask. The step begins at `boundary`: the sums read the
// ledger's rows up to it. The type says neither that these are there nor that rates are limited,
// since a step that breaks a limit needs no such rows: `ArrivalTables` and `Limited` do.
#[derive(Clone, Copy)]
pub struct Step<'a> {
    pub counts: Counts,
    pub links: &'a [Link],
    pub movements: &'a [Movement],
    pub times: &'a [u32],
    pub signals: &'a [Signal],
    pub plan_line: &'a [u32],
    pub step_line: &'a [u32],
    pub phases: &'a [u32],
    pub asked: &'a [u32],
    pub ledger: &'a [u32],
    pub arrivals: &'a [Arrival],
    pub boundary: usize,
    ghost fit: { StepTables counts links.now movements.now signals.now plan_line.now step_line.now phases.now asked.now boundary },
}

impl Step<'_> {
    // The link, from 0, that movement j leaves.
    pub fn from_link(&self, j: usize) -> usize
        requires { j < self.now.counts.movements }
        ensures { (result + 1 ≡ link_in self.now.movements.now 0 j) × (result < self.now.counts.links) }
    {
        self.movements[j].from as usize - 1
    }
}

// Begins a row with link i: what has entered and left it before the step, with what the line admits
// on it and lets out from it. The sums wrap, here and below: a pass forms the row while it tests
// the limits by which they fit.
pub fn begin_link(previous: &[u32], line: &[u32], counts: Counts, i: usize, row: &mut [u32])
    requires { BeginAsked counts line.now previous.now row.old × (i < counts.links) }
    ensures { row.new ≡ with_link counts line.now previous.now i row.old }
{
    row[2 * i] = entered(previous, i).wrapping_add(admitted(line, counts, i));
    row[2 * i + 1] = left(previous, i).wrapping_add(let_out(line, counts, i));
}

// Adds a volume to a number of the row. Most volumes are 0, and then the row is not touched.
fn add_at(row: &mut [u32], at: usize, volume: u32)
    requires { at < length row.old }
    ensures { row.new ≡ add_at row.old at volume }
{
    if volume != 0 {
        row[at] = row[at].wrapping_add(volume);
    }
}

// Adds the volume of a movement to what has entered its to link and to what has left its from link.
pub fn add_movement(movement: &Movement, volume: u32, row: &mut [u32])
    requires from { (1 ≤ movement.now.from) × (2 * movement.now.from ≤ length row.old) }
    requires to { (1 ≤ movement.now.to) × (2 * movement.now.to ≤ length row.old) }
    ensures { row.new ≡ with_movement movement.now volume row.old }
{
    add_at(row, 2 * (movement.to as usize - 1), volume);
    add_at(row, 2 * (movement.from as usize - 1) + 1, volume);
}

// Adds each movement of the line.
fn add_movements(line: &[u32], movements: &[Movement], counts: Counts, row: &mut [u32])
    requires { Room counts line.now movements.now row.old }
    ensures { Added counts line.now movements.now row.old counts.movements row.new }
{
    for (j, movement) in movements.iter().enumerate() {
        add_movement(movement, moved(line, counts, j), row);
    }
}

// The row before the step with what the line admits and lets out.
fn base_row(previous: &[u32], line: &[u32], counts: Counts, row: &mut [u32])
    requires { Base counts line.now previous.now row.old }
    ensures { row.new ≡ pairs (base_entered counts line.now previous.now) (base_left counts line.now previous.now) counts.links ++ drop (2 * counts.links) row.old }
{
    for i in 0..counts.links {
        begin_link(previous, line, counts, i, row);
    }
}

// The row after a step, in the front of a lent row, for the search of a broken rule. Only for a
// line that has passed rules 15 and 25 to 27, whose volumes are small enough for the sums to fit.
pub fn next_row(
    previous: &[u32],
    line: &[u32],
    movements: &[Movement],
    counts: Counts,
    row: &mut [u32],
)
    requires { Fits counts line.now movements.now previous.now row.old }
    ensures { row.new ≡ next_row counts line.now movements.now previous.now ++ drop (2 * counts.links) row.old }
{
    base_row(previous, line, counts, row);
    add_movements(line, movements, counts, row);
}

// Writes a row into the ledger from index `at` on, through the part of the lent ledger that begins
// in its middle, as the paper asks; all else is kept.
pub fn write_row(ledger: &mut [u32], at: usize, row: &[u32])
    requires { at + length row.now ≤ length ledger.old }
    ensures { ledger.new ≡ take at ledger.old ++ (row.now ++ drop (at + length row.now) ledger.old) }
{
    ledger[at..at + row.len()].copy_from_slice(row);
}

// The sum of one number a link: what a step admits or lets out on all links, or who waits at all
// entries.
pub fn sum_of(numbers: &[u32]) -> u64
    requires { length numbers.now ≤ max_links }
    ensures { (result ≡ list_sum numbers.now) × (result ≤ 4294967295 * length numbers.now) }
{
    numbers.iter().map(|number| u64::from(*number)).sum()
}

// What the line of a step admits on all links, and what it lets out from all.
pub fn all_admitted(line: &[u32], counts: Counts) -> u64
    requires { Few counts × (length line.now ≡ line_size) }
    ensures { (result ≡ sum counts.links (admitted_in counts line.now)) × (result ≤ 4294967295 * counts.links) }
{
    let admitted_at = counts.signals;
    sum_of(&line[admitted_at..admitted_at + counts.links])
}

pub fn all_let_out(line: &[u32], counts: Counts) -> u64
    requires { Few counts × (length line.now ≡ line_size) }
    ensures { (result ≡ sum counts.links (let_out_in counts line.now)) × (result ≤ 4294967295 * counts.links) }
{
    let let_out_at = counts.signals + counts.links;
    sum_of(&line[let_out_at..let_out_at + counts.links])
}

// The vehicles in the network at a boundary: what all links hold, by its row, which has two numbers
// a link. A loop: in the closure of a sum over the links, the precondition of `entered` on the row
// can't be shown.
pub fn held_in(row: &[u32]) -> u64
    requires { length row.now ≤ 2 * max_links }
    ensures { (result ≡ sum (length row.now / 2) (λ i. entered_in row.now i - left_in row.now i)) × (result ≤ 4294967295 * (length row.now / 2)) }
{
    let mut total: u64 = 0;
    for i in 0..row.len() / 2 {
        total += u64::from(entered(row, i).saturating_sub(left(row, i)));
    }
    total
}

// Who waits at the start, as the `Q` lines have it. Not inlined, for check_plan's speed
// (docs/MEASUREMENTS.md).
#[inline(never)]
pub fn first_waiting(links: &[Link], waiting: &mut [u32])
    requires { FirstAsked links.now waiting.old }
    ensures { FirstWaits links.now (length links.now) waiting.new }
{
    for (i, link) in links.iter().enumerate() {
        waiting[i] = link.waiting;
    }
}

// Who is at the entries in a step: the numbers of its `S` line, with those who wait added to each
// link's demand.
pub fn add_waiting(waiting: &[u32], step: &mut [u32])
    requires { AddAsked waiting.now step.old }
    ensures { Offers (length waiting.now) waiting.now step.old step.new }
{
    network_tables::add_each(waiting, &mut step[1..]);
}

// Who waits after a step that keeps every rule: those who were at the entry in the step and were
// not admitted. By index: the tables go together, and each starts elsewhere in the line.
pub fn next_waiting(step: &[u32], line: &[u32], counts: Counts, waiting: &mut [u32])
    requires { WaitsAsked counts step.now line.now waiting.old }
    ensures { Waits counts step.now line.now counts.links waiting.new }
{
    for (i, vehicles) in waiting[..counts.links].iter_mut().enumerate() {
        *vehicles = step[1 + i] - admitted(line, counts, i);
    }
}

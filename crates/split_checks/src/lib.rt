// Checks whether a network that has passed can be split by the tables of its halves (T-14: 40, 41),
// and the form of a plan's lines (9). Tests are joined by `&` and `|`, which evaluate both sides:
// so a function has one return to prove.
#![tactic(auto)]

ghost use Rattle.std.specs.Prelude.{◌≡◌, ◌≤◌, ◌<◌, not, eqb, length};
ghost use Rattle.base_laws.specs.Test.{every};
ghost use Rattle.model.specs.Network.{max_links, max_signals, step_count};
ghost use Rattle.model_split.specs.Numbering.{rank};
ghost use Rattle.split_tables.specs.Tables.{is_in};
ghost use Rattle.network_tables.specs.Fields.{step_size, demand_in};
ghost use Rattle.split_tables.specs.Halves.{HalvesAsked};
ghost use Rattle.split_tables.specs.Whole.{whole_network};
ghost use Rattle.split_checks.specs.Tables.{none_wait_in, stands_apart_in, right_kind_in, demand_free_in, own_signal_by, PartsAsked};
ghost use Rattle.split_checks.specs.Network.{StepsAsked, step_free, SplitAsked, SplitTold, PartsTold};
ghost use Rattle.split_checks.specs.Plan.{FormAsked, LineForm, FormTold};

use base_search::{Reason, Refusal, checked};
use model::Signal;
use network_tables::{Counts, LINE_SIZE, Link, NetworkTables, STEP_SIZE};
use split_tables::{HalfTables, Halves, Whole};

// Whether nobody waits at the entries.
fn nobody_waits(links: &[Link]) -> bool
    ensures { result ≡ every (length links.now) (none_wait_in links.now) }
{
    links.iter().all(|link| link.waiting == 0)
}

// What the border is judged by: a network's tables, whose movements name links, and those of its
// first half. The tests take a movement's index, below the count of movements: two of them compare
// movements by index, and that a movement names links is known by its index.
#[derive(Clone, Copy)]
struct Border<'a> {
    tables: &'a NetworkTables<'a>,
    half: &'a HalfTables,
    ghost ends: { HalvesAsked tables.now },
}

impl Border<'_> {
    // Whether movement k is j itself, or neither leaves the link that border movement j leaves nor
    // is a border movement into the link that j enters.
    fn stands_apart(&self, j: usize, k: usize) -> bool
        requires { (j < self.now.tables.now.reading.counts.movements) × (k < self.now.tables.now.reading.counts.movements) }
        ensures { result ≡ stands_apart_in self.now.tables.now.movements.now self.now.half.now.links j k }
    {
        let border = self.tables.movements[j];
        let movement = self.tables.movements[k];
        let other = !split_tables::is_border(movement, &self.half.links);
        (k == j) | (movement.from != border.from) & (other | (movement.to != border.to))
    }

    // Whether all movements stand apart from border movement j.
    fn stands_alone(&self, j: usize) -> bool
        requires { j < self.now.tables.now.reading.counts.movements }
        ensures { result ≡ every self.now.tables.now.reading.counts.movements (stands_apart_in self.now.tables.now.movements.now self.now.half.now.links j) }
    {
        (0..self.tables.reading.counts.movements).all(|k| self.stands_apart(j, k))
    }

    // Whether a movement is no border movement; or leaves a link without signal, with exit rate 0
    // and without another movement, and enters a link without another border movement.
    fn right_kind(&self, j: usize) -> bool
        requires { j < self.now.tables.now.reading.counts.movements }
        ensures { result ≡ right_kind_in self.now.tables.now.links.now self.now.tables.now.movements.now self.now.half.now.links self.now.tables.now.reading.counts.movements j }
    {
        let movement = self.tables.movements[j];
        if !split_tables::is_border(movement, &self.half.links) {
            return true;
        }
        let link = self.tables.links[movement.from as usize - 1];
        (link.signal == 0) & (link.exit_rate == 0) & self.stands_alone(j)
    }

    // Whether all movements are of that kind.
    fn right_kinds(&self) -> bool
        ensures { result ≡ every self.now.tables.now.reading.counts.movements (right_kind_in self.now.tables.now.links.now self.now.tables.now.movements.now self.now.half.now.links self.now.tables.now.reading.counts.movements) }
    {
        (0..self.tables.reading.counts.movements).all(|j| self.right_kind(j))
    }

    // Whether a movement is no border movement, or enters a link without demand in a step.
    fn demand_free(&self, step: &[u32], j: usize) -> bool
        requires { (length step.now ≡ step_size) × (j < self.now.tables.now.reading.counts.movements) }
        ensures { result ≡ demand_free_in (demand_in step.now) self.now.tables.now.movements.now self.now.half.now.links j }
    {
        let movement = self.tables.movements[j];
        let other = !split_tables::is_border(movement, &self.half.links);
        other | (network_tables::demand(step, movement.to as usize - 1) == 0)
    }

    // The same of all movements, in one step.
    fn step_free(&self, step: &[u32]) -> bool
        requires { length step.now ≡ step_size }
        ensures { result ≡ every self.now.tables.now.reading.counts.movements (demand_free_in (demand_in step.now) self.now.tables.now.movements.now self.now.half.now.links) }
    {
        (0..self.tables.reading.counts.movements).all(|j| self.demand_free(step, j))
    }
}

// The same in all steps, whose `S` lines have passed.
fn steps_free(whole: &Whole, half: &HalfTables) -> bool
    requires { StepsAsked whole.now }
    ensures { result ≡ every (step_count (whole_network whole.now)) (step_free (whole_network whole.now) whole.now.tables.movements.now half.now.links) }
{
    let reading = whole.tables.reading;
    let width = reading.counts.step_width();
    let mut step = [0u32; STEP_SIZE];
    let mut line = reading.steps_at;
    let border = Border {
        tables: &whole.tables,
        half,
    };
    for _ in 0..reading.counts.steps {
        line = network_tables::read_again(whole.tables.text, line, b'S', &mut step[..width]);
        if !border.step_free(&step) {
            return false;
        }
    }
    true
}

// Whether a half has one of so many links.
fn has_links(half: &HalfTables, count: usize) -> bool
    requires { count ≤ max_links }
    ensures { result ≡ not (eqb (rank (is_in half.now.links) count) 0) }
{
    split_tables::count_in(&half.links[..count]) != 0
}

// Whether a network can be split (40).
pub fn can_split(whole: &Whole, halves: &Halves) -> bool
    requires { SplitAsked whole.now }
    ensures { SplitTold (whole_network whole.now) halves.now result }
{
    let tables = &whole.tables;
    let counts = tables.reading.counts;
    let first = &halves.first;
    let border = Border {
        tables,
        half: first,
    };
    (halves.above == 0)
        & (counts.past == 0)
        & nobody_waits(tables.links)
        & has_links(first, counts.links)
        & has_links(&halves.second, counts.links)
        & border.right_kinds()
        & steps_free(whole, first)
}

// Whether a link is absent from the first half (`number` is 0), or has no signal or one of that
// half.
fn own_signal(half: &HalfTables, number: u32, signal: usize) -> bool
    requires { signal ≤ max_signals }
    ensures { result ≡ own_signal_by half.now number signal }
{
    if signal == 0 {
        return true;
    }
    (number == 0) | (half.signals[signal - 1] != 0)
}

// Whether no signal has links in both halves (41).
pub fn parts_signals(links: &[Link], half: &HalfTables) -> bool
    requires { PartsAsked links.now }
    ensures { PartsTold links.now half.now result }
{
    links.iter().zip(&half.links).all(|(link, number)| own_signal(
        half,
        *number,
        link.signal as usize,
    ))
}

// The place of the next line, if the `P` line at a place has its form.
fn line_form(plan: &[u8], at: usize, signals: &[Signal], counts: Counts) -> Option<usize>
    requires { FormAsked signals.now counts }
    ensures { LineForm plan.now at signals.now counts result }
{
    let mut line = [0u32; LINE_SIZE];
    plan_steps::read_line(plan, at, signals, counts, &mut line)
}

// The form of all lines of a plan, and nothing after them (9).
pub fn plan_form(plan: &[u8], signals: &[Signal], counts: Counts) -> Result<(), Refusal>
    requires { FormAsked signals.now counts }
    ensures { FormTold plan.now signals.now counts result }
{
    let mut at = 0;
    for n in 0..counts.steps {
        let Some(next) = line_form(plan, at, signals, counts) else {
            return Err(Reason::PlanForm.refusal(n + 1, 0));
        };
        at = next;
    }
    let ended = text_reader::is_end(plan, at);
    checked(ended, Reason::PlanForm, counts.steps + 1, 0)
}

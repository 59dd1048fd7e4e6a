// Rules 15 and 25 to 27 of the plan check: the limits of the volumes of a step's `P` line,
// admitted, let out and moved. The pass over them forms the row after the step.
#![tactic(auto)]

ghost use Rattle.std.specs.Prelude.{◌≡◌, ◌*◌, ◌<◌, ◌≤◌, leb, length, true};
ghost use Rattle.network_tables.specs.Fields.{row_size};
ghost use Rattle.step_rows.specs.Rows.{RowAlone};
ghost use Rattle.step_rows.specs.Step.{Limited};
ghost use Rattle.step_limits.specs.Limits.{limit_rule_number, admits_offer, lets_out_rate, is_open_in, moves_rate, moves_open, limit_items, limit_rule_holds, LinksPassed, MovementsPassed, RowGot};
ghost use Rattle.base_laws.specs.Test.{◌and◌};

use network_tables::{Counts, admitted, let_out, moved};
use step_rows::Step;

// A limit: 15 of what is admitted, 25 of what is let out, and 26 and 27 of a movement.
#[derive(Clone, Copy)]
pub enum LimitRule {
    Offer,
    ExitRate,
    MovementRate,
    OpenLink,
}

// Whether a volume is at most rate × seconds; the product fits 32 bits. That a step has at most 60
// seconds is required here, as in step_signals, which says why at its tests of rules 11 to 14.
fn within_rate(volume: u32, rate: u32, seconds: u32) -> bool
    requires { (rate ≤ 10000) × (seconds ≤ 60) }
    ensures { result ≡ leb volume (rate * seconds) }
{
    volume <= rate * seconds
}

// The tests below take an item's index, and each requires that the step has this item: a struct of
// step and index would be made for each item.

// 15, link i: admitted is at most those at its entry, who wait there or come in the step.
#[tactic(auto, unfolding(crate::specs::Limits::admits_offer))]
fn admits_offer(step: &Step, i: usize) -> bool
    requires { i < step.now.counts.links }
    ensures { result ≡ admits_offer step.now i }
{
    admitted(step.plan_line, step.counts, i) <= step.step_line[1 + i]
}

// 25, link i: let out is at most exit rate × length.
#[tactic(auto, unfolding(crate::specs::Limits::lets_out_rate))]
fn lets_out_rate(step: &Step, i: usize) -> bool
    requires limited { Limited step.now }
    requires item_bound { i < step.now.counts.links }
    ensures { result ≡ lets_out_rate step.now i }
{
    let volume = let_out(step.plan_line, step.counts, i);
    within_rate(volume, step.links[i].exit_rate, step.step_line[0])
}

// A link without a signal is always open; another is open if its signal shows a phase of the link's
// mask.
fn is_open(step: &Step, i: usize) -> bool
    requires limited { Limited step.now }
    requires item_bound { i < step.now.counts.links }
    ensures { result ≡ is_open_in step.now.links.now step.now.phases.now i }
{
    let signal = step.links[i].signal as usize;
    if signal == 0 {
        return true;
    }
    step_signals::opens(step.links[i].phase_mask, step.phases[signal - 1])
}

// 26, movement j: it is at most its rate × length.
#[tactic(auto, unfolding(crate::specs::Limits::moves_rate))]
fn moves_rate(step: &Step, j: usize) -> bool
    requires limited { Limited step.now }
    requires item_bound { j < step.now.counts.movements }
    ensures { result ≡ moves_rate step.now j }
{
    let volume = moved(step.plan_line, step.counts, j);
    within_rate(volume, step.movements[j].rate, step.step_line[0])
}

// 27, movement j: it is 0 if its from link is shut. Most are 0, so this is tested first.
fn moves_open(step: &Step, j: usize) -> bool
    requires limited { Limited step.now }
    requires item_bound { j < step.now.counts.movements }
    ensures { result ≡ moves_open step.now j }
{
    moved(step.plan_line, step.counts, j) == 0 || is_open(step, step.from_link(j))
}

impl LimitRule {
    // Its number in the paper. A `match`, not discriminants: with these, a wrong program that gives
    // two variants one number would not compile, and so would test no proof.
    pub fn number(self) -> u32
        ensures { result ≡ limit_rule_number self }
    {
        match self {
            LimitRule::Offer => 15,
            LimitRule::ExitRate => 25,
            LimitRule::MovementRate => 26,
            LimitRule::OpenLink => 27,
        }
    }

    // How many items it is tested for.
    pub fn items(self, counts: Counts) -> usize
        ensures { result ≡ limit_items counts self }
    {
        match self {
            LimitRule::Offer | LimitRule::ExitRate => counts.links,
            LimitRule::MovementRate | LimitRule::OpenLink => counts.movements,
        }
    }

    // Whether it holds of an item.
    #[tactic(auto, unfolding(crate::specs::Limits::limit_rule_holds))]
    pub fn holds(self, step: &Step, item: usize) -> bool
        requires limited { Limited step.now }
        requires item_bound { item < limit_items step.now.counts self }
        ensures { result ≡ limit_rule_holds step.now self item }
    {
        match self {
            LimitRule::Offer => admits_offer(step, item),
            LimitRule::ExitRate => lets_out_rate(step, item),
            LimitRule::MovementRate => moves_rate(step, item),
            LimitRule::OpenLink => moves_open(step, item),
        }
    }
}

// Whether a movement keeps 26 and 27, as one that is 0 does. By the tests of both a plan took 1 to
// 2 % more instructions.
fn moves_within(step: &Step, j: usize) -> bool
    requires limited { Limited step.now }
    requires item_bound { j < step.now.counts.movements }
    ensures { result ≡ (moves_rate step.now j and moves_open step.now j) }
{
    let volume = moved(step.plan_line, step.counts, j);
    volume == 0
        || within_rate(volume, step.movements[j].rate, step.step_line[0])
            && is_open(step, step.from_link(j))
}

// Whether all links keep 15 and 25. The row is begun with each that does.
fn links_within_limits(step: &Step, previous: &[u32], row: &mut [u32]) -> bool
    requires limited { Limited step.now }
    requires room { (2 * step.now.counts.links ≤ length previous.now) × (length row.old ≡ row_size) }
    ensures passed { result ≡ true → LinksPassed step.now previous.now row.old step.now.counts.links row.new }
    ensures alone { RowAlone step.now.counts row.old row.new }
{
    for i in 0..step.counts.links {
        if !admits_offer(step, i) || !lets_out_rate(step, i) {
            return false;
        }
        step_rows::begin_link(previous, step.plan_line, step.counts, i, row);
    }
    true
}

// Whether all movements keep 26 and 27. Each that does is added to the row.
fn movements_within_limits(step: &Step, row: &mut [u32]) -> bool
    requires limited { Limited step.now }
    requires room { length row.old ≡ row_size }
    ensures passed { result ≡ true → MovementsPassed step.now row.old step.now.counts.movements row.new }
    ensures alone { RowAlone step.now.counts row.old row.new }
{
    for (j, movement) in step.movements.iter().enumerate() {
        if !moves_within(step, j) {
            return false;
        }
        step_rows::add_movement(movement, moved(step.plan_line, step.counts, j), row);
    }
    true
}

// Whether all limits are kept, by one pass over the links and one over the movements, which form
// the row after the step meanwhile: with the row formed apart, by `step_rows::next_row`, the
// largest plan took 6 % more instructions.
pub fn row_within_limits(step: &Step, previous: &[u32], row: &mut [u32]) -> bool
    requires limited { Limited step.now }
    requires room { (2 * step.now.counts.links ≤ length previous.now) × (length row.old ≡ row_size) }
    ensures { RowGot step.now previous.now row.old result row.new }
{
    links_within_limits(step, previous, row) && movements_within_limits(step, row)
}

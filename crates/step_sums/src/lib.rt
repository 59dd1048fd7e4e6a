// Rules 16 to 18 of the plan check, by sums of volumes: shares, arrivals and capacities, once the
// row after the step is formed.
#![tactic(auto)]

ghost use Rattle.std.specs.Prelude.{◌≡◌, ◌+◌, ◌<◌, true};
ghost use Rattle.network_tables.specs.Fields.{let_out_in, left_in};
ghost use Rattle.step_sums.specs.Sums.{keeps_share, entered_before, entered_after, leaves_arrived, fits_capacity, sum_rule_number, sum_items, sum_rule_holds, SharesKept, LinkSumsKept, SumsKept, SumRows};

use network_tables::{Counts, WHOLE_SHARE, entered, entered_at, left, let_out, moved};
use step_rows::Step;

// What rules 16 to 18 read: a step, the row before it, and the row after it, in which left of each
// link is what the step's line makes of it.
#[derive(Clone, Copy)]
pub struct StepRows<'a> {
    pub step: &'a Step<'a>,
    pub previous: &'a [u32],
    pub row: &'a [u32],
    ghost rows: { SumRows step.now previous.now row.now },
}

// A rule of sums: 16 of a movement's share, 17 of what has arrived at a link's end, and 18 of a
// link's capacity.
#[derive(Clone, Copy)]
pub enum SumRule {
    Share,
    Arrivals,
    Capacity,
}

impl StepRows<'_> {
    // Each test below requires that the step has its item, as those of `step_limits` do, for the
    // same reason.

    // The sum of all movements from link i: what has left it in the step, without what was let out.
    fn moved_from(&self, i: usize) -> u32
        requires { i < self.now.step.now.counts.links }
        ensures { left_in self.now.previous.now i + (let_out_in self.now.step.now.counts self.now.step.now.plan_line.now i + result) ≡ left_in self.now.row.now i }
    {
        let let_out = let_out(self.step.plan_line, self.step.counts, i);
        left(self.row, i) - left(self.previous, i) - let_out
    }

    // Rule 16, movement j: 1000 × the movement is at most its share × the sum of all movements from
    // its link. Most movements are 0, and a 0 keeps every share.
    fn keeps_share(&self, j: usize) -> bool
        requires { j < self.now.step.now.counts.movements }
        ensures { result ≡ keeps_share self.now.step.now j }
    {
        let volume = moved(self.step.plan_line, self.step.counts, j);
        if volume == 0 {
            return true;
        }
        let all = self.moved_from(self.step.from_link(j));
        let share = self.step.movements[j].share;
        network_tables::product(WHOLE_SHARE, volume) <= network_tables::product(share, all)
    }

    // entered of link i at the start of the timeline's step in which its travel time ends: of a
    // past step from `arrivals`, of a later one from the ledger.
    fn entered_before(&self, i: usize) -> u32
        requires { i < self.now.step.now.counts.links }
        ensures { result ≡ entered_before self.now.step.now i }
    {
        let step = self.step;
        let arrival = &step.arrivals[i];
        if arrival.step < step.counts.past {
            return arrival.start;
        }
        let boundary = arrival.step - step.counts.past;
        entered_at(step.ledger, step.counts.links, boundary, i)
    }

    // entered of link i at the end of that step: of a past step from `arrivals`; of the step that
    // is judged from the row after it, of an earlier one from the ledger.
    fn entered_after(&self, i: usize) -> u32
        requires { i < self.now.step.now.counts.links }
        ensures { result ≡ entered_after self.now.step.now self.now.row.now i }
    {
        let step = self.step;
        let arrival = &step.arrivals[i];
        if arrival.step < step.counts.past {
            return arrival.stop;
        }
        let boundary = arrival.step - step.counts.past;
        if boundary == step.boundary {
            return entered(self.row, i);
        }
        entered_at(step.ledger, step.counts.links, boundary + 1, i)
    }

    // Rule 17, link i: what has left it is at most what has arrived at its end, both × the length
    // of the step in which the travel time ends, so that nothing is rounded. All that had entered
    // by that step's start has arrived; often that is enough, and no product is needed.
    fn leaves_arrived(&self, i: usize) -> bool
        requires { i < self.now.step.now.counts.links }
        ensures { result ≡ leaves_arrived self.now.step.now self.now.row.now i }
    {
        let step = self.step;
        let start = self.entered_before(i);
        let left = left(self.row, i);
        if left <= start {
            return true;
        }
        let end = self.entered_after(i);
        let last = step.arrivals[i].step;
        let seconds = step_arrivals::seconds(step.times, last);
        let elapsed = step_arrivals::elapsed(
            step.times,
            last,
            step.counts.past + step.boundary + 1,
            step.links[i].travel_time,
        );
        network_tables::product(left, seconds)
            <= step_arrivals::scaled_arrived(start, end, seconds, elapsed)
    }

    // Rule 18, link i: entered − left before the step is at most capacity, written without the
    // subtraction.
    fn fits_capacity(&self, i: usize) -> bool
        requires { i < self.now.step.now.counts.links }
        ensures { result ≡ fits_capacity self.now.step.now self.now.previous.now self.now.row.now i }
    {
        let capacity = u64::from(self.step.links[i].capacity);
        u64::from(entered(self.row, i)) <= capacity + u64::from(left(self.previous, i))
    }

    // Whether all movements keep 16, in one pass over them. By index here and below, since a rule
    // takes an item's index.
    fn keeps_shares(&self) -> bool
        ensures { result ≡ true → SharesKept self.now.step.now self.now.step.now.counts.movements }
    {
        (0..self.step.counts.movements).all(|j| self.keeps_share(j))
    }

    // Whether all links keep 17 and 18, in one pass over them.
    fn keeps_link_sums(&self) -> bool
        ensures { result ≡ true → LinkSumsKept self.now.step.now self.now.previous.now self.now.row.now self.now.step.now.counts.links }
    {
        (0..self.step.counts.links).all(|i| self.fits_capacity(i) && self.leaves_arrived(i))
    }

    // Whether rules 16 to 18 are kept.
    pub fn keeps_sums(&self) -> bool
        ensures { result ≡ true → SumsKept self.now.step.now self.now.previous.now self.now.row.now }
    {
        self.keeps_link_sums() && self.keeps_shares()
    }
}

impl SumRule {
    // Its number in the paper. A `match`, not discriminants: with these, a wrong program that gives
    // two variants one number would not compile, and so would test no proof.
    pub fn number(self) -> u32
        ensures { result ≡ sum_rule_number self }
    {
        match self {
            SumRule::Share => 16,
            SumRule::Arrivals => 17,
            SumRule::Capacity => 18,
        }
    }

    // How many items it is tested for.
    pub fn items(self, counts: Counts) -> usize
        ensures { result ≡ sum_items counts self }
    {
        match self {
            SumRule::Share => counts.movements,
            SumRule::Arrivals | SumRule::Capacity => counts.links,
        }
    }

    // Whether it holds of an item.
    #[tactic(auto, unfolding(crate::specs::Sums::sum_rule_holds))]
    pub fn holds(self, rows: &StepRows, item: usize) -> bool
        requires { item < sum_items rows.now.step.now.counts self }
        ensures { result ≡ sum_rule_holds rows.now.step.now rows.now.previous.now rows.now.row.now self item }
    {
        match self {
            SumRule::Share => rows.keeps_share(item),
            SumRule::Arrivals => rows.leaves_arrived(item),
            SumRule::Capacity => rows.fits_capacity(item),
        }
    }
}

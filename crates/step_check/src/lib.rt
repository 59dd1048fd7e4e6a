// The judgement of one step of a plan: rules 10 to 18, 25 to 27 and 29 in their order, each over
// rising items. Most steps keep all of them, which a pass finds. It goes over the signals once. It
// goes over links and movements twice: to test the limits of their volumes (15, 25 to 27) while it
// forms the row after the step, and to test the sums of 16 to 18, which read the whole row.
// Otherwise the rules are searched for the first that is broken; there the row is formed only once
// the limits are kept, so that its sums fit.
#![tactic(auto)]

ghost use Rattle.std.specs.Prelude.{◌≡◌, ◌<◌};
ghost use Rattle.step_rows.specs.Rows.{Fits};
ghost use Rattle.step_check.specs.Step.{rule_number, rule_items, first_sum, row_before, FormedFor, rule_holds, RuleRows, JudgeAsked, StepJudged, PassGot};

use base_search::Refusal;
use network_tables::{Counts, ROW_SIZE};
use step_limits::LimitRule;
use step_rows::Step;
use step_signals::SignalRule;
use step_sums::{StepRows, SumRule};

// A rule that a step keeps, by its family. A `match`, not a trait: the families take different
// things, a signal and its phases, a step, or a step with its rows.
#[derive(Clone, Copy)]
enum Rule {
    Signal(SignalRule),
    Limit(LimitRule),
    Sum(SumRule),
}

// The rules in the order in which they are tested.
const RULES: [Rule; 13] = [
    Rule::Signal(SignalRule::OnePhase),
    Rule::Signal(SignalRule::TramPhase),
    Rule::Signal(SignalRule::Order),
    Rule::Signal(SignalRule::LeastTime),
    Rule::Signal(SignalRule::GreatestTime),
    Rule::Signal(SignalRule::Cycle),
    Rule::Limit(LimitRule::Offer),
    Rule::Limit(LimitRule::ExitRate),
    Rule::Limit(LimitRule::MovementRate),
    Rule::Limit(LimitRule::OpenLink),
    Rule::Sum(SumRule::Share),
    Rule::Sum(SumRule::Arrivals),
    Rule::Sum(SumRule::Capacity),
];

impl Rule {
    // Its number in the paper.
    fn number(self) -> u32
        ensures { result ≡ rule_number self }
    {
        match self {
            Rule::Signal(rule) => rule.number(),
            Rule::Limit(rule) => rule.number(),
            Rule::Sum(rule) => rule.number(),
        }
    }

    // How many items it is tested for.
    fn items(self, counts: Counts) -> usize
        ensures { result ≡ rule_items counts self }
    {
        match self {
            Rule::Signal(_) => counts.signals,
            Rule::Limit(rule) => rule.items(counts),
            Rule::Sum(rule) => rule.items(counts),
        }
    }

    // Whether it holds of an item. The rows are separate parameters, since the rules before the
    // sums are tested before the row after the step is formed.
    fn holds(self, step: &Step, previous: &[u32], row: &[u32], item: usize) -> bool
        requires rule_rows { RuleRows step.now previous.now row.now self }
        requires item_bound { item < rule_items step.now.counts self }
        ensures { result ≡ rule_holds step.now previous.now row.now self item }
    {
        match self {
            Rule::Signal(rule) => rule.holds(
                step.signals[item],
                step.phases[item],
                step.asked[item],
                step.step_line[0],
            ),
            Rule::Limit(rule) => rule.holds(step, item),
            Rule::Sum(rule) => rule.holds(
                &StepRows {
                    step,
                    previous,
                    row,
                },
                item,
            ),
        }
    }
}

// Forms the row after the step when the search comes to rule 16. Not before: only then are all
// limits known to hold, so that the row's numbers fit.
fn form_row_for(rule: Rule, step: &Step, previous: &[u32], row: &mut [u32])
    requires { rule ≡ first_sum → Fits step.now.counts step.now.plan_line.now step.now.movements.now previous.now row.old }
    ensures { FormedFor rule step.now previous.now row.old row.new }
{
    if let Rule::Sum(SumRule::Share) = rule {
        step_rows::next_row(previous, step.plan_line, step.movements, step.counts, row);
    }
}

// The refusal of the first rule that the step breaks, in the order of the rules, each over rising
// items; its line is the step's line of the plan. Nested loops with a label that is left at the
// first break, as the paper asks for rules 10 to 18.
fn first_break(step: &Step, previous: &[u32], row: &mut [u32]) -> Result<(), Refusal>
    requires { JudgeAsked step.now previous.now row.old }
    ensures { StepJudged step.now previous.now row.old result row.new }
{
    let mut found = Ok(());
    'judge: for rule in RULES {
        form_row_for(rule, step, previous, row);
        let items = rule.items(step.counts);
        for item in 0..items {
            if !rule.holds(step, previous, row, item) {
                found = Err(Refusal::new(rule.number(), step.boundary + 1, item + 1));
                break 'judge;
            }
        }
    }
    found
}

// Whether the step keeps every rule: first the signals, then the limits of links and movements, by
// which the row after it is formed, then the sums of that row. The caller owes the rows' sizes only
// where the limits are kept, and the row is formed while these are tested. So the sizes are
// compared first: where they differ, the search finds what is broken, which forms no row before.
fn keeps_rules(step: &Step, previous: &[u32], row: &mut [u32]) -> bool
    requires { JudgeAsked step.now previous.now row.old }
    ensures { PassGot step.now previous.now row.old result row.new }
{
    let count = step.counts.signals;
    let seconds = step.step_line[0];
    if !step_signals::keeps_signal_rules(step.signals, count, step.phases, step.asked, seconds) {
        return false;
    }
    if row.len() != ROW_SIZE || previous.len() < 2 * step.counts.links {
        return false;
    }
    if !step_limits::row_within_limits(step, previous, row) {
        return false;
    }
    let rows = StepRows {
        step,
        previous,
        row,
    };
    rows.keeps_sums()
}

// Judges a step, and forms the row after it in a lent row.
pub fn judge_step(step: &Step, row: &mut [u32]) -> Result<(), Refusal>
    requires { JudgeAsked step.now (row_before step.now) row.old }
    ensures { StepJudged step.now (row_before step.now) row.old result row.new }
{
    let start = network_tables::row_start(step.boundary, step.counts.links);
    let previous = &step.ledger[start..];
    if keeps_rules(step, previous, row) {
        return Ok(());
    }
    first_break(step, previous, row)
}

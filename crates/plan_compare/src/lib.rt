// Finds which of two plans is ahead: the call `compare_plans`.
#![tactic(auto)]

ghost use Rattle.std.specs.Prelude.{◌≡◌, ◌<◌, length};
ghost use Rattle.std.proofs.Math.IntN.{sub_ℕ};
ghost use Rattle.text_reader.specs.Lines.{lines};
ghost use Rattle.text_reader.specs.Padding.{PaddingIgnored};
ghost use Rattle.model.specs.Hold.{plan_of};
ghost use Rattle.model.specs.Calls.{ledger_after};
ghost use Rattle.network.specs.Loading.{StartLoaded};
ghost use Rattle.plan_compare.specs.Comparison.{order_number, order_by, plan_number, refusal_in, compare_plans, second_ledger_after};
ghost use Rattle.plan_compare.specs.Promises.{ComparisonPromises, ComparisonGot};
ghost use Rattle.plan_compare.specs.Curves.{lines_order, Formed, NextAsked, NextGot};

use base_search::Refusal;
use network::{Room, Start};
use network_tables::{Counts, LINE_SIZE, NetworkTables};

// How the first of two plans compares with the second, by all vehicles let out up to each boundary.
#[derive(Clone, Copy)]
pub enum Order {
    Ahead,
    Behind,
    Equal,
    Crossing,
}

impl Order {
    // Its number in answers. A `match`, not discriminants: with these, a wrong program that gives
    // two variants one number would not compile, and so would test no proof.
    pub fn number(self) -> u32
        ensures { result ≡ order_number self }
    {
        match self {
            Order::Ahead => 1,
            Order::Behind => 2,
            Order::Equal => 3,
            Order::Crossing => 4,
        }
    }
}

// How two accepted plans compare: their order, and the doubled time of the first minus that of the
// second.
#[derive(Clone, Copy)]
pub struct Comparison {
    pub order: Order,
    pub gap: i64,
}

// A refusal of a comparison, by what is refused: the network, or one of the plans.
#[derive(Clone, Copy)]
pub enum ComparisonRefusal {
    Network(Refusal),
    First(Refusal),
    Second(Refusal),
}

impl ComparisonRefusal {
    // Which plan is refused, 1 or 2, or 0 for the network.
    pub fn plan(self) -> u32
        ensures { result ≡ plan_number self }
    {
        match self {
            Self::Network(_) => 0,
            Self::First(_) => 1,
            Self::Second(_) => 2,
        }
    }

    // The refusal, of the network or of either plan.
    pub fn refusal(self) -> Refusal
        ensures { result ≡ refusal_in self }
    {
        match self {
            Self::Network(refusal) | Self::First(refusal) | Self::Second(refusal) => refusal,
        }
    }
}

// What a plan has let out up to a boundary, where the line of the next step starts, and whether it
// was never fewer than the other plan's.
#[derive(Clone, Copy)]
struct LetOut {
    at: usize,
    volume: u64,
    never_fewer: bool,
}

// Before the first step.
const NOTHING: LetOut = LetOut {
    at: 0,
    volume: 0,
    never_fewer: true,
};

// What a plan has let out up to the next boundary. An empty text means hold, and lets nothing out;
// the lines of another have passed, so that each is read.
fn next_boundary(plan: &[u8], so_far: LetOut, counts: Counts) -> LetOut
    requires { NextAsked counts plan.now so_far }
    ensures { NextGot counts plan.now so_far result }
{
    if plan.is_empty() {
        return so_far;
    }
    let mut line = [0u32; LINE_SIZE];
    let at = network_tables::read_again(plan, so_far.at, b'P', &mut line[..counts.plan_width()]);
    let volume = step_rows::all_let_out(&line, counts);
    LetOut {
        at,
        volume: so_far.volume + volume,
        ..so_far
    }
}

// The order by whether the first plan is never fewer, and whether the second is.
fn order_by(first: bool, second: bool) -> Order
    ensures { result ≡ order_by first second }
{
    match (first, second) {
        (true, true) => Order::Equal,
        (true, false) => Order::Ahead,
        (false, true) => Order::Behind,
        (false, false) => Order::Crossing,
    }
}

// The order of two plan texts, by one pass over both. The ledgers don't have these volumes: what
// has left a link was let out or moved.
fn order_of_texts(first: &[u8], second: &[u8], counts: Counts) -> Order
    requires { Formed counts first.now × Formed counts second.now }
    ensures { result ≡ lines_order counts first.now second.now }
{
    let mut first_so_far = NOTHING;
    let mut second_so_far = NOTHING;
    for _ in 0..counts.steps {
        first_so_far = next_boundary(first, first_so_far, counts);
        second_so_far = next_boundary(second, second_so_far, counts);
        first_so_far.never_fewer &= second_so_far.volume <= first_so_far.volume;
        second_so_far.never_fewer &= first_so_far.volume <= second_so_far.volume;
    }
    order_by(first_so_far.never_fewer, second_so_far.never_fewer)
}

// The difference of two doubled times.
fn gap_between(first: u64, second: u64) -> i64
    requires { (first < 9223372036854775808) × (second < 9223372036854775808) }
    ensures { result ≡ sub_ℕ first second }
{
    first as i64 - second as i64
}

// Compares two plans on a network that has passed: all refusals of the first, then those of the
// second. Each begins with the same start.
fn compare_on_network(
    tables: &NetworkTables,
    first: &[u8],
    second: &[u8],
    start: &mut Start,
    first_ledger: &mut [u32],
    second_ledger: &mut [u32],
) -> Result<Comparison, ComparisonRefusal>
    requires { StartLoaded tables.now start.old }
    ensures { ComparisonGot tables.now.text.now first.now second.now first_ledger.old second_ledger.old result first_ledger.new second_ledger.new }
{
    let mut start_of_first = *start;
    let first_totals = plan_check::judge_loaded(
        first,
        tables,
        &mut start_of_first,
        first_ledger,
    ).map_err(ComparisonRefusal::First)?;
    let second_totals = plan_check::judge_loaded(second, tables, start, second_ledger).map_err(
        ComparisonRefusal::Second,
    )?;
    Ok(Comparison {
        order: order_of_texts(first, second, tables.reading.counts),
        gap: gap_between(first_totals.doubled_time, second_totals.doubled_time),
    })
}

// Compare two plans: the network's refusals, then all of the first plan's, then the second's. The
// second plan's ledger is written only once the first is accepted.
pub fn compare_plans(
    network: &[u8],
    first: &[u8],
    second: &[u8],
    first_ledger: &mut [u32],
    second_ledger: &mut [u32],
) -> Result<Comparison, ComparisonRefusal>
    ensures value { result ≡ compare_plans (lines network.now) (plan_of network.now first.now) (plan_of network.now second.now) (length first_ledger.old) (length second_ledger.old) }
    ensures first_ledger_after { first_ledger.new ≡ ledger_after (lines network.now) (plan_of network.now first.now) first_ledger.old }
    ensures second_ledger_after { second_ledger.new ≡ second_ledger_after (lines network.now) (plan_of network.now first.now) (plan_of network.now second.now) (length first_ledger.old) second_ledger.old }
    ensures comparison_promises { ComparisonPromises (lines network.now) (plan_of network.now first.now) (plan_of network.now second.now) (length first_ledger.old) (length second_ledger.old) result }
    ensures padding_ignored { PaddingIgnored network.now (λ padded_network. PaddingIgnored first.now (λ padded_first. PaddingIgnored second.now (λ padded_second. ComparisonGot padded_network padded_first padded_second first_ledger.old second_ledger.old result first_ledger.new second_ledger.new))) }
{
    let mut start = Start::default();
    let mut room = Room::default();
    let tables = network::read_start(network, &mut start, &mut room).map_err(
        ComparisonRefusal::Network,
    )?;
    compare_on_network(
        &tables,
        first,
        second,
        &mut start,
        first_ledger,
        second_ledger,
    )
}

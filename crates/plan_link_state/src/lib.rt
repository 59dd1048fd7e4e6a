// The state of one link by a network text and a ledger: the call `link_state`.
#![tactic(auto)]

ghost use Rattle.std.specs.Prelude.{◌≡◌, ◌+◌, ◌≤◌};
ghost use Rattle.text_reader.specs.Lines.{lines};
ghost use Rattle.text_reader.specs.Padding.{PaddingIgnored};
ghost use Rattle.model.specs.Calls.{link_state};
ghost use Rattle.model.specs.Guarantees.{StatePromises};
ghost use Rattle.plan_link_state.specs.State.{Tabled, OverAsked, EnteredOver, arrived_in, ArrivedAsked, state_from};

use base_search::{Reason, Refusal, checked};
use model::{LinkState, Signal};
use network::Room;
use network_tables::{MAX_SIGNALS, NetworkTables};
use step_past::Arrival;

// What has arrived at a link's end × the length of the step in which the travel time ends; that
// length; and whether the entered count does not fall over a step inside which it ends. `rises` is
// a field, not an `Option` around the others: it is one of several tests of 21, and the numbers are
// there whatever it says.
#[derive(Clone, Copy)]
struct Arrived {
    scaled: u64,
    seconds: u32,
    rises: bool,
}

// What had entered link `i` by the start and by the end of the timeline's step in which its travel
// time before boundary `n` ends: before time 0 from the network alone, from then on from the
// ledger.
fn entered_over(tables: &NetworkTables, ledger: &[u32], n: usize, i: usize, step: usize) -> Arrival
    requires { OverAsked tables.now ledger.now n i step }
    ensures { EnteredOver (lines tables.now.text.now) ledger.now n i result }
{
    let counts = tables.reading.counts;
    let past = counts.past;
    let times = tables.times;
    let link = tables.links[i];
    if times[past + n] - times[past] < link.travel_time {
        let first = Arrival {
            step,
            start: link.standing,
            stop: link.standing,
            place: tables.reading.past_at,
        };
        if past <= step {
            return first;
        }
        return step_past::read_on(tables.text, i, 0, step + 1, first);
    }
    let row = step - past;
    Arrival {
        step,
        start: network_tables::entered_at(ledger, counts.links, row, i),
        stop: network_tables::entered_at(ledger, counts.links, row + 1, i),
        place: 0,
    }
}

// What has arrived at the end of link `i` by boundary `n`.
fn arrived_by(tables: &NetworkTables, ledger: &[u32], n: usize, i: usize) -> Arrived
    requires { ArrivedAsked tables.now ledger.now n i }
    ensures { result ≡ arrived_in (lines tables.now.text.now) ledger.now n (i + 1) }
{
    let times = tables.times;
    let travel = tables.links[i].travel_time;
    let at = tables.reading.counts.past + n;
    let step = step_arrivals::arrival_step(times, 0, at, travel);
    let arrival = entered_over(tables, ledger, n, i, step);
    let seconds = step_arrivals::seconds(times, step);
    let elapsed = step_arrivals::elapsed(times, step, at, travel);
    Arrived {
        scaled: step_arrivals::scaled_arrived(arrival.start, arrival.stop, seconds, elapsed),
        seconds,
        rises: (elapsed == 0) | (arrival.start <= arrival.stop),
    }
}

// Refusal 21, for which arrived is not rounded; or the vehicles queued, rounded down, and in
// transit.
fn state_from(entered: u32, left: u32, arrived: Arrived) -> Result<LinkState, Refusal>
    requires { 1 ≤ arrived.seconds }
    ensures { result ≡ state_from entered left arrived }
{
    let scaled = arrived.scaled;
    let seconds = arrived.seconds;
    let agrees = arrived.rises
        & (network_tables::product(left, seconds) <= scaled)
        & (scaled <= network_tables::product(entered, seconds));
    checked(agrees, Reason::StateLedger, 0, 0)?;
    let whole = (scaled / u64::from(seconds)) as u32;
    Ok(LinkState {
        queued: whole - left,
        in_transit: entered - whole,
    })
}

// The state by the tables of a network that has passed: refusals 8, 19, 20 and 21.
fn state_by(
    tables: &NetworkTables,
    ledger: &[u32],
    boundary: u32,
    link: u32,
) -> Result<LinkState, Refusal>
    requires { Tabled tables.now }
    ensures { result ≡ link_state (lines tables.now.text.now) ledger.now boundary link }
{
    let counts = tables.reading.counts;
    let count = counts.links;
    let size = network_tables::row_start(counts.steps + 1, count);
    checked(size <= ledger.len(), Reason::Ledger, 0, 0)?;
    let n = boundary as usize;
    checked(n <= counts.steps, Reason::StateBoundary, 0, 0)?;
    let number = link as usize;
    checked((1..=count).contains(&number), Reason::StateLink, 0, 0)?;
    let i = number - 1;
    let entered = network_tables::entered_at(ledger, count, n, i);
    let left = network_tables::left_at(ledger, count, n, i);
    state_from(entered, left, arrived_by(tables, ledger, n, i))
}

// State of one link at a boundary: refusals 1 to 6, 28 and 30 of the network, 8 of the ledger, then
// 19, 20 and 21.
pub fn link_state(
    network: &[u8],
    ledger: &[u32],
    boundary: u32,
    link: u32,
) -> Result<LinkState, Refusal>
    ensures value { result ≡ link_state (lines network.now) ledger.now boundary link }
    ensures state_promises { StatePromises result }
    ensures padding_ignored { PaddingIgnored network.now (λ padded. result ≡ link_state (lines padded) ledger.now boundary link) }
{
    let mut signals = [Signal::default(); MAX_SIGNALS];
    let mut room = Room::default();
    let tables = network::read_network(network, &mut signals, &mut room)?;
    state_by(&tables, ledger, boundary, link)
}

// Splits a network and a plan between two boxes (T-14): the call `split`.
#![tactic(auto)]

ghost use Rattle.std.specs.Prelude.{◌≡◌};
ghost use Rattle.text_reader.specs.Padding.{PaddingIgnored};
ghost use Rattle.model_split.specs.Splits.{SplitInTwo};
ghost use Rattle.split.specs.Splitting.{texts, buffers, Passed, HalvesJudged, WriteAsked, Measured, fits, buffer_contents, SameLent, HalvesWritten, SplitGot};

use base_search::{Reason, Refusal, checked};
use model::Signal;
use model_split::Lengths;
use network::Room;
use network_tables::MAX_SIGNALS;
use split_tables::{Halves, Whole};

// The buffers of the four texts, lent together. `Lengths` is a type of its own: the names say more
// than one `Four<T>` would.
#[derive(Drop)]
struct FourBuffers<'a> {
    network_1: &'a mut [u8],
    plan_1: &'a mut [u8],
    network_2: &'a mut [u8],
    plan_2: &'a mut [u8],
}

// How long the four texts are: they are put where there is no room. Each text is put twice, since
// one buffer that is too short leaves all four unchanged, and there is no heap to keep the texts.
fn measure(whole: &Whole, halves: &Halves) -> Lengths
    requires { WriteAsked whole.now halves.now }
    ensures { Measured whole.now halves.now result }
{
    let mut none = [0u8; 1];
    let network_1 = split_text::put_network(whole, &halves.first, &mut none);
    let plan_1 = split_text::put_plan(whole, &halves.first, &mut none);
    let network_2 = split_text::put_network(whole, &halves.second, &mut none);
    let plan_2 = split_text::put_plan(whole, &halves.second, &mut none);
    Lengths {
        network_1,
        plan_1,
        network_2,
        plan_2,
    }
}

// Whether four buffers of these lengths have room. By `&`, not `&&`: with one return the proof has
// one case.
fn has_room(lengths: Lengths, room: Lengths) -> bool
    ensures { result ≡ fits lengths room }
{
    (lengths.network_1 <= room.network_1)
        & (lengths.plan_1 <= room.plan_1)
        & (lengths.network_2 <= room.network_2)
        & (lengths.plan_2 <= room.plan_2)
}

// Writes the four texts if each buffer has room for its own (42); else all are left untouched.
fn write_halves(
    whole: &Whole,
    halves: &Halves,
    buffers: &mut FourBuffers,
) -> Result<Lengths, Refusal>
    requires { WriteAsked whole.now halves.now }
    ensures lent { SameLent buffers.old buffers.new }
    ensures written { HalvesWritten whole.now halves.now (buffer_contents buffers.old) (buffer_contents buffers.new) result }
{
    let lengths = measure(whole, halves);
    let room = Lengths {
        network_1: buffers.network_1.len(),
        plan_1: buffers.plan_1.len(),
        network_2: buffers.network_2.len(),
        plan_2: buffers.plan_2.len(),
    };
    checked(has_room(lengths, room), Reason::SplitRoom, 0, 0)?;
    split_text::put_network(whole, &halves.first, buffers.network_1);
    split_text::put_plan(whole, &halves.first, buffers.plan_1);
    split_text::put_network(whole, &halves.second, buffers.network_2);
    split_text::put_plan(whole, &halves.second, buffers.plan_2);
    Ok(lengths)
}

// The checks on a network that has passed, with the tables of its halves: 40, 41, and the form of
// the plan's lines.
fn judge_halves(whole: &Whole, halves: &Halves) -> Result<(), Refusal>
    requires { Passed whole.now }
    ensures { HalvesJudged whole.now halves.now result }
{
    checked(
        split_checks::can_split(whole, halves),
        Reason::SplitNetwork,
        0,
        0,
    )?;
    checked(
        split_checks::parts_signals(whole.tables.links, &halves.first),
        Reason::SplitSignals,
        0,
        0,
    )?;
    split_checks::plan_form(whole.plan, whole.signals, whole.tables.reading.counts)
}

// Splits a network that has passed: the checks on its halves and on the plan, then the texts.
fn split_loaded(
    whole: &Whole,
    first_half: u32,
    buffers: &mut FourBuffers,
) -> Result<Lengths, Refusal>
    requires { Passed whole.now }
    ensures lent { SameLent buffers.old buffers.new }
    ensures got { SplitGot whole.now.tables.text.now whole.now.plan.now first_half (buffer_contents buffers.old) (buffer_contents buffers.new) result }
{
    let mut halves = Halves::default();
    split_tables::number_halves(first_half, &whole.tables, &mut halves);
    judge_halves(whole, &halves)?;
    write_halves(whole, &halves, buffers)
}

// Splits a network and a plan in two, by the set of links in the first half: bit i - 1 for link i.
// Refusals: the network's (1 to 6, 28, 30), 40, 41, 9, 42.
pub fn split(
    network: &[u8],
    plan: &[u8],
    first_half: u32,
    network_1: &mut [u8],
    plan_1: &mut [u8],
    network_2: &mut [u8],
    plan_2: &mut [u8],
) -> Result<Lengths, Refusal>
    ensures split_in_two { SplitInTwo (texts network.now plan.now) first_half (buffers network_1.old plan_1.old network_2.old plan_2.old) (buffers network_1.new plan_1.new network_2.new plan_2.new) result }
    ensures padding_ignored { PaddingIgnored network.now (λ padded_network. PaddingIgnored plan.now (λ padded_plan. SplitGot padded_network padded_plan first_half (buffers network_1.old plan_1.old network_2.old plan_2.old) (buffers network_1.new plan_1.new network_2.new plan_2.new) result)) }
{
    let mut signals = [Signal::default(); MAX_SIGNALS];
    let mut room = Room::default();
    let tables = network::read_network(network, &mut signals, &mut room)?;
    let whole = Whole {
        plan,
        tables,
        signals: &signals,
    };
    let mut buffers = FourBuffers {
        network_1,
        plan_1,
        network_2,
        plan_2,
    };
    split_loaded(&whole, first_half, &mut buffers)
}

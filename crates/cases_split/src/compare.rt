// Reads the cases, splits each network and plan by the proved call and compares.
ghost use Rattle.std.specs.Prelude.{◌≡◌};
ghost use Rattle.split.specs.Splitting.{texts, buffers};
ghost use Rattle.cases_split.specs.Compare.{as_stored, answer_to, left_by};

use crate::told;
use crate::told::{Buffers, Stored, Texts};
use base_search::{Reason, Refusal};
use cases_files::agreement::agrees;
use cases_files::reading::{Malformed, read_array, read_text, read_u32};
use cases_files::refusals::{Columns, read_refusal};
use model_split::Lengths;
use std::io::Read;

// Room for every text and buffer of the stored cases.
const ROOM: usize = 8192;

// The names of the counters: written, refused for the network itself, each other number of the
// call, and cases that differ.
pub const PLACES: [&str; 7] = ["written", "network", "9", "40", "41", "42", "different"];

const DIFFERENT: usize = PLACES.len() - 1;

// What a case gives: the texts that are split, what is stored of the answer, and what of the
// buffers.
#[derive(Clone, Copy)]
struct Case<'a> {
    whole: Texts<'a>,
    stored: Stored,
    told: Buffers<'a>,
}

// The numbers between the texts of a case: the set of links, the lengths of the four buffers and
// the byte that they hold before the call, and the stored refusal.
#[derive(Clone, Copy)]
struct Head {
    first_half: u32,
    lengths: Lengths,
    rest: u8,
    refusal: Option<Refusal>,
}

// Which counter a refusal has, or a split that was written. Not `tally::place_of`: the network's
// own refusals share one counter.
fn place_of(refusal: Option<Refusal>) -> usize {
    match refusal.map(|refusal| refusal.number) {
        None => 0,
        Some(number) if number == Reason::PlanForm.number() => 2,
        Some(number) if number == Reason::SplitNetwork.number() => 3,
        Some(number) if number == Reason::SplitSignals.number() => 4,
        Some(number) if number == Reason::SplitRoom.number() => 5,
        Some(_) => 1,
    }
}

// Whether the answer, and every byte of the four buffers after the call, are as stored. If not, the
// refusals are printed.
fn is_as_stored(
    rt: &impl Print,
    answer: Result<Lengths, Refusal>,
    stored: Stored,
    left: Buffers<'_>,
    told: Buffers<'_>,
) -> bool
    ensures { result ≡ as_stored answer (buffers left.entry.network_1.now left.entry.plan_1.now left.entry.network_2.now left.entry.plan_2.now) stored
        (buffers told.entry.network_1.now told.entry.plan_1.now told.entry.network_2.now told.entry.plan_2.now) }
{
    let given = Columns(answer.err());
    let expected = Columns(stored.refusal);
    let have_lengths = told::lengths_of(answer) == stored.lengths;
    let is_left = have_lengths && told::are_as_told(left, told);
    agrees(rt, stored.number, &given, &expected, is_left)
}

// Splits by the library: whether all is as stored. The four buffers are separate variables: the
// prover does not take a `&mut` that is taken out of a struct and lent.
fn judge(
    rt: &impl Print,
    case: Case<'_>,
    network_1: &mut [u8],
    plan_1: &mut [u8],
    network_2: &mut [u8],
    plan_2: &mut [u8],
) -> bool
    ensures { let before = buffers network_1.old plan_1.old network_2.old plan_2.old in
        let split = texts case.entry.whole.network.now case.entry.whole.plan.now in
        let stored = case.entry.stored in
        result ≡ as_stored (answer_to split stored before) (left_by split stored before) stored
        (buffers case.entry.told.network_1.now case.entry.told.plan_1.now case.entry.told.network_2.now case.entry.told.plan_2.now) }
{
    let Texts { network, plan } = case.whole;
    let set = case.stored.first_half;
    let answer = split::split(network, plan, set, network_1, plan_1, network_2, plan_2);
    let left = Buffers {
        network_1,
        plan_1,
        network_2,
        plan_2,
    };
    is_as_stored(rt, answer, case.stored, left, case.told)
}

// Judges a case on buffers of these lengths that hold one byte everywhere before the call.
fn judge_filled(
    rt: &impl Print,
    case: Case<'_>,
    lengths: Lengths,
    rest: u8,
) -> Result<bool, Malformed> {
    let mut network_1 = [rest; ROOM];
    let mut plan_1 = [rest; ROOM];
    let mut network_2 = [rest; ROOM];
    let mut plan_2 = [rest; ROOM];
    Ok(judge(
        rt,
        case,
        network_1.get_mut(..lengths.network_1).ok_or(Malformed)?,
        plan_1.get_mut(..lengths.plan_1).ok_or(Malformed)?,
        network_2.get_mut(..lengths.network_2).ok_or(Malformed)?,
        plan_2.get_mut(..lengths.plan_2).ok_or(Malformed)?,
    ))
}

// Reads the numbers by one read; three bytes behind the one that fills the buffers are skipped.
fn read_head(file: &mut impl Read) -> Result<Head, Malformed> {
    let bytes = read_array::<_, 36>(file)?;
    let mut numbers = bytes.as_slice();
    Ok(Head {
        first_half: read_u32(&mut numbers)?,
        lengths: told::read_lengths(&mut numbers)?,
        rest: read_array::<_, 4>(&mut numbers)?[0],
        refusal: read_refusal(&mut numbers)?,
    })
}

// Reads and judges one case; returns where it is counted.
pub fn run_case(rt: &impl Print, file: &mut impl Read, number: u32) -> Result<usize, Malformed> {
    let mut network = [0; ROOM];
    let mut plan = [0; ROOM];
    let whole = Texts {
        network: read_text(file, &mut network)?,
        plan: read_text(file, &mut plan)?,
    };
    let head = read_head(file)?;
    let Head { rest, refusal, .. } = head;
    let mut network_1 = [rest; ROOM];
    let mut plan_1 = [rest; ROOM];
    let mut network_2 = [rest; ROOM];
    let mut plan_2 = [rest; ROOM];
    let written = Lengths {
        network_1: read_text(file, &mut network_1)?.len(),
        plan_1: read_text(file, &mut plan_1)?.len(),
        network_2: read_text(file, &mut network_2)?.len(),
        plan_2: read_text(file, &mut plan_2)?.len(),
    };
    let case = Case {
        whole,
        stored: Stored {
            number,
            first_half: head.first_half,
            refusal,
            lengths: written,
        },
        told: Buffers {
            network_1: &network_1,
            plan_1: &plan_1,
            network_2: &network_2,
            plan_2: &plan_2,
        },
    };
    let same = judge_filled(rt, case, head.lengths, rest)?;
    Ok(if same { place_of(refusal) } else { DIFFERENT })
}

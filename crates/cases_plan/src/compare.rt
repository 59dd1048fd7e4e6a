// Reads the cases, judges each by the proved calls and counts.
use crate::answers::{Case, Texts, judge};
use crate::kept::Kept;
use crate::stored::{Asked, Filled, Reported};
use crate::tally::COUNTERS;
use crate::{stored, tally};
use cases_files::files;
use cases_files::files::Form;
use cases_files::reading::{Malformed, read_each, read_u32};
use std::io::Read;
use std::rt::Files;

// Room for the longest texts whose numbers are padded, and for the longest ledger.
const NETWORK_ROOM: usize = 73728;

const PLAN_ROOM: usize = 163840;

const LEDGER_ROOM: usize = 5888;

const BUFFER_ROOM: usize = 102400;

// The four greatest lengths after the number of cases are skipped: each length is compared with its
// room instead.
const FORM: Form = Form {
    mark: *b"PLANCASE",
    version: 4,
    passed_over: 4,
};

// What a case may take over from the case before: the two texts and the given numbers of the
// ledger.
#[derive(Drop)]
struct Before<'a> {
    network: Kept<'a, u8>,
    plan: Kept<'a, u8>,
    start: Kept<'a, u32>,
}

// What a case gives of the ledgers and the buffer before the call, and what the first ledger begins
// with.
#[derive(Clone, Copy)]
struct Given<'a> {
    ledger: Filled,
    start: &'a [u32],
    second_ledger: Filled,
    buffer: Filled,
}

// Fills the ledgers and the buffer as the case gives them, and judges the case; returns where it is
// counted. A case whose boundary or link does not fit a call is passed over, but only after its
// fill and lengths are tested: if one of these does not fit, the file is malformed all the same.
fn judge_filled(
    rt: &impl Print,
    number: u32,
    texts: Texts<'_>,
    asked: Asked,
    stored: Reported,
    given: Given<'_>,
) -> Result<usize, Malformed> {
    let fill = u8::try_from(given.buffer.fill).map_err(|_| Malformed)?;
    let mut ledger = [given.ledger.fill; LEDGER_ROOM];
    let mut second_ledger = [given.second_ledger.fill; LEDGER_ROOM];
    let mut buffer = [fill; BUFFER_ROOM];
    let ledger = ledger.get_mut(..given.ledger.length).ok_or(Malformed)?;
    let second_ledger = second_ledger
        .get_mut(..given.second_ledger.length)
        .ok_or(Malformed)?;
    let buffer = buffer.get_mut(..given.buffer.length).ok_or(Malformed)?;
    let start = ledger.get_mut(..given.start.len()).ok_or(Malformed)?;
    start.copy_from_slice(given.start);
    let Some(question) = asked.question() else {
        return Ok(tally::PASSED_OVER);
    };
    let case = Case {
        number,
        question,
        stored,
    };
    Ok(if judge(rt, texts, case, ledger, second_ledger, buffer) {
        tally::place_of(asked.call, stored.outcome)
    } else {
        tally::DIFFERENT
    })
}

// Reads and judges one case; returns where it is counted.
fn run_case<R: Read>(
    rt: &impl Print,
    file: &mut R,
    number: u32,
    before: &mut Before<'_>,
) -> Result<usize, Malformed> {
    let mut room = [0; PLAN_ROOM];
    let network = before.network.read(file, stored::read_bytes)?;
    let plan = before.plan.read(file, stored::read_bytes)?;
    let ledger = stored::read_filled(file)?;
    let start = before
        .start
        .read(file, |file, numbers| read_each(file, numbers, read_u32))?;
    let asked = stored::read_asked(file)?;
    let second = stored::read_second(file, &mut room, asked.call)?;
    let second_ledger = stored::read_second_filled(file, asked.call)?;
    let stored = stored::read_reported(file)?;
    let texts = Texts {
        network,
        plan,
        second,
    };
    let given = Given {
        ledger,
        start,
        second_ledger,
        buffer: asked.buffer,
    };
    judge_filled(rt, number, texts, asked, stored, given)
}

// Judges and counts the cases of a file, and prints how many it has. No contract: nothing can say
// what the file gives, or what is printed.
pub fn run_file(rt: &(impl Files + Print), path: &str, counts: &mut [u64; COUNTERS]) {
    let mut network = [0; NETWORK_ROOM];
    let mut plan = [0; PLAN_ROOM];
    let mut start = [0; LEDGER_ROOM];
    let mut before = Before {
        network: Kept::new(&mut network),
        plan: Kept::new(&mut plan),
        start: Kept::new(&mut start),
    };
    files::run_file(rt, path, FORM, counts, |file, number| {
        run_case(rt, file, number, &mut before)
    });
}

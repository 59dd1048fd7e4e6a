// How many cases agreed, and what is printed.
use crate::call::{CALLS, Call};
use crate::outcome::{Kind, Outcome};
use std::fmt::Display;

// How many counters each call has: accepted, and each refusal's number.
const ANSWERS: usize = 36;

// The counts: for each call, the cases that agreed, by answer; then these two. A flat table, since
// `files::run_file` counts by one index.
pub const DIFFERENT: usize = CALLS.len() * ANSWERS;

pub const PASSED_OVER: usize = DIFFERENT + 1;

pub const COUNTERS: usize = DIFFERENT + 2;

// Which counter a call's outcome has. A refusal number above 35 has none, and counts as different.
pub fn place_of(call: Call, outcome: Outcome) -> usize {
    let is_refused = outcome.kind == Kind::Refused as u32;
    let number = if is_refused { outcome.first } else { 0 };
    if number < ANSWERS as u64 {
        call as usize * ANSWERS + number as usize
    } else {
        DIFFERENT
    }
}

// A line of the table: how many cases of each call were accepted (0) or refused with a number.
fn print_line(rt: &impl Print, name: impl Display + Drop, counts: &[u64; COUNTERS], number: usize) {
    let _ = print!(rt; "{name}");
    for count in counts
        .iter()
        .skip(number)
        .step_by(ANSWERS)
        .take(CALLS.len())
    {
        let _ = print!(rt; "\t{count}");
    }
    let _ = println!(rt);
}

// The table of the cases that agreed, and how many were passed over and differ. A failed write is
// ignored; no contract can say what an output takes.
pub fn print_table(rt: &impl Print, counts: &[u64; COUNTERS]) {
    let _ = print!(rt; "answer");
    for call in CALLS {
        let _ = print!(rt; "\t{call}");
    }
    let _ = println!(rt);
    print_line(rt, "accepted", counts, 0);
    for number in 1..ANSWERS {
        print_line(rt, number, counts, number);
    }
    let _ = println!(rt; "passed over\t{}", counts[PASSED_OVER]);
    let _ = println!(rt; "different\t{}", counts[DIFFERENT]);
}

// Runs stored cases through the proved calls, and compares each answer and a checksum of the whole
// ledgers and the whole buffer after the call with those of another implementation. Prints each
// case that differs, how many cases each file has, how many agreed, for each call and refusal
// number, and how many differ. The one case of wrong_answer.bin has a wrong answer on purpose: it
// must be reported as different.
#![tactic(auto)]

mod answers;
mod call;
mod checksum;
mod compare;
mod kept;
mod outcome;
mod stored;
mod tally;

use crate::tally::COUNTERS;
use cases_files::files::PATHS;

fn main(rt: HostRuntime) {
    let mut counts = [0; COUNTERS];
    for path in PATHS {
        compare::run_file(&rt, path, &mut counts);
    }
    tally::print_table(&rt, &counts);
}

// Runs stored corridors in cells through `run_cells`, and compares each answer and every volume
// with those of another implementation. Prints each case that differs, how many cases each file
// has, how many agreed, by refusal number, and how many differ. The two cases of wrong_answer.bin
// have a wrong answer on purpose: they must be reported as different.
#![tactic(auto)]

mod compare;
mod reported;

use cases_files::files;
use cases_files::files::Form;

const FORM: Form = Form {
    mark: *b"CELLCASE",
    version: 1,
    passed_over: 0,
};

// The names of the counters: accepted, each refusal number of the call, and cases that differ.
const PLACES: [&str; 4] = ["accepted", "36", "37", "different"];

fn main(rt: HostRuntime) {
    files::run(&rt, FORM, &PLACES, &mut [0; PLACES.len()], |file, number| {
        compare::run_case(&rt, file, number)
    });
}

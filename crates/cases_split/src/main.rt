// Splits stored networks and plans by `split`, and compares each answer and every byte of the four
// buffers with those of another implementation. Prints each case that differs, how many cases each
// file has, how many agreed, by refusal number, and how many differ. The two cases of
// wrong_answer.bin have a wrong answer on purpose: they must be reported as different.
#![tactic(auto)]

mod compare;
mod told;

use crate::compare::PLACES;
use cases_files::files;
use cases_files::files::Form;

const FORM: Form = Form {
    mark: *b"HALFCASE",
    version: 1,
    passed_over: 0,
};

fn main(rt: HostRuntime) {
    files::run(&rt, FORM, &PLACES, &mut [0; PLACES.len()], |file, number| {
        compare::run_case(&rt, file, number)
    });
}

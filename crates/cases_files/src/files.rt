// Runs the cases of a file.
use crate::reading::{Malformed, read_array, read_u32};
use crate::tally::{add_one, print_counts};
use std::fs::File;
use std::io::Read;
use std::rt::Files;

// How the files of a program begin: a mark, the version of their form, and how many numbers to skip
// after the number of cases.
#[derive(Clone, Copy)]
pub struct Form {
    pub mark: [u8; 8],
    pub version: u32,
    pub passed_over: u32,
}

// The files of every program: the stored cases, and some with a wrong answer on purpose.
pub const PATHS: [&str; 2] = ["cases.bin", "wrong_answer.bin"];

// Runs the files of a program, and prints each counter under its name. The counts are lent: the
// prover does not take an array of references whose length is a parameter. Here and below
// `run_case` has no precondition (`IsAlwaysCallable`), since nothing is known of what a file holds.
pub fn run<R: Files + Print, F: Fn(&mut R::File, u32) -> Result<usize, Malformed>>(
    rt: &R,
    form: Form,
    names: &[&str],
    counts: &mut [u64],
    run_case: F,
)
    requires { F.IsAlwaysCallable run_case }
{
    for path in PATHS {
        run_file(rt, path, form, counts, &run_case);
    }
    print_counts(rt, names, counts);
}

// Runs each case of a file, numbered from 0, and counts it where `run_case` says. Prints the file's
// name and how many cases it has, or that it is malformed: a case is, or bytes are left over. A
// failed write is ignored.
pub fn run_file<R: Files + Print, F: FnMut(&mut R::File, u32) -> Result<usize, Malformed>>(
    rt: &R,
    path: &str,
    form: Form,
    counts: &mut [u64],
    run_case: F,
)
    requires { F.IsAlwaysCallable run_case }
{
    let _ = match run_cases(rt, path, form, counts, run_case) {
        Ok(count) => println!(rt; "{path}\t{count}"),
        Err(_) => println!(rt; "{path} can't be read, or is malformed"),
    };
}

// Runs and counts each case of a file; returns how many there are.
fn run_cases<R: Files, F: FnMut(&mut R::File, u32) -> Result<usize, Malformed>>(
    files: &R,
    path: &str,
    form: Form,
    counts: &mut [u64],
    mut run_case: F,
) -> Result<u32, Malformed>
    requires { F.IsAlwaysCallable run_case }
{
    let mut file = File::open(files, path)?;
    let count = read_header(&mut file, form)?;
    for number in 0..count {
        add_one(counts, run_case(&mut file, number)?);
    }
    if read_array::<_, 1>(&mut file).is_ok() {
        return Err(Malformed);
    }
    Ok(count)
}

// Reads the beginning of a file; returns how many cases follow.
fn read_header(file: &mut impl Read, form: Form) -> Result<u32, Malformed> {
    if read_array(file)? != form.mark || read_u32(file)? != form.version {
        return Err(Malformed);
    }
    let count = read_u32(file)?;
    for _ in 0..form.passed_over {
        read_u32(file)?;
    }
    Ok(count)
}

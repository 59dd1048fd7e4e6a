// Reads the two files of a plan's check and prints what the proved library writes of them: only
// reading the files and writing the bytes is not proved.
#![tactic(auto)]

ghost use Rattle.std.specs.Prelude.{◌<◌, ◌≤◌, ◌≡◌, length, IfSome};
ghost use Rattle.std.specs.Option.{option_copied};
ghost use Rattle.text_writer.specs.Writing.{Wrote};
ghost use Rattle.plancheck_io.specs.Read.{Within};
ghost use Rattle.plancheck_files.specs.Output.{output, text_of};

use plancheck_report::{InputFile, OUTPUT_SIZE};
use std::rt::Files;

// The most bytes of a network's file and of a plan's.
const MAX_NETWORK_SIZE: usize = 16_384;

const MAX_PLAN_SIZE: usize = 24_576;

// The text that was read into the start of a buffer; none if its file was not read.
fn text_of(buffer: &[u8], read: Option<usize>) -> Option<&[u8]>
    requires { Within (length buffer.now) read }
    ensures value { option_copied result ≡ text_of buffer.now read }
    ensures shorter { IfSome result (λ text. length text.now < length buffer.now) }
{
    read.map(|n| &buffer[..n])
}

// Writes the output for two texts, each of which was read or not. The buffer may be longer, as in
// `write_report`.
fn write_output(network: Option<&[u8]>, plan: Option<&[u8]>, out: &mut [u8]) -> usize
    requires network_length { IfSome network (λ text. length text.now ≤ MAX_NETWORK_SIZE) }
    requires plan_length { IfSome plan (λ text. length text.now ≤ MAX_PLAN_SIZE) }
    requires in_bounds { OUTPUT_SIZE ≤ length out.old }
    ensures { Wrote (output (option_copied network.entry) (option_copied plan.entry)) 0 out.old out.new result }
{
    match (network, plan) {
        (None, _) => plancheck_report::write_not_read(out, InputFile::Network),
        (_, None) => plancheck_report::write_not_read(out, InputFile::Plan),
        (Some(network), Some(plan)) => plancheck_report::write_report(network, plan, out),
    }
}

// Checks the plan of one file on the network of another, and prints the report, or which of the two
// was not read. A buffer has room for one byte more than the longest file, which shows that a file
// is too long. A failed write is ignored.
pub fn run(rt: &(impl Files + Print), network_path: &str, plan_path: &str) {
    let mut network = [0; MAX_NETWORK_SIZE + 1];
    let mut plan = [0; MAX_PLAN_SIZE + 1];
    let mut out = [0; OUTPUT_SIZE];
    let network_read = plancheck_io::read_file(rt, network_path, &mut network);
    let plan_read = plancheck_io::read_file(rt, plan_path, &mut plan);
    let network_text = text_of(&network, network_read);
    let plan_text = text_of(&plan, plan_read);
    let end = write_output(network_text, plan_text, &mut out);
    let _ = rt.write_all(&out[..end]);
}

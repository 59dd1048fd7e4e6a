// Writes what the program `plancheck` prints into a lent buffer: the whole text is proved, and the
// bytes after it are kept.
#![tactic(auto)]

ghost use Rattle.std.specs.Prelude.{◌≡◌, ◌∷◌, ◌++◌, ◌+◌, ◌≤◌, length};
ghost use Rattle.text_reader.specs.Padding.{PaddingIgnored};
ghost use Rattle.text_writer.specs.Records.{record_text};
ghost use Rattle.text_writer.specs.Writing.{Wrote};
ghost use Rattle.model.specs.Report.{report, not_read};
ghost use Rattle.network_tables.specs.Fields.{row_size};
ghost use Rattle.network.specs.Loading.{StartLoaded};
ghost use Rattle.plancheck_report.specs.Boundaries.{plan_time, TimeAsked, boundary_texts, RowsAsked};
ghost use Rattle.plancheck_report.specs.Answer.{totals_size, totals_text, refusal_text, answer_text, file_number};

use base_search::Refusal;
use model::Totals;
use network::{Room, Start};
use network_tables::{NetworkTables, ROW_SIZE, TIME_TABLE_SIZE, row_start};

// The ledger of the largest network: a row for each boundary.
const LEDGER_SIZE: usize = TIME_TABLE_SIZE * ROW_SIZE;

// Room for every output.
pub const OUTPUT_SIZE: usize = 131_072;

// The program's two files.
#[derive(Clone, Copy)]
pub enum InputFile {
    Network,
    Plan,
}

impl InputFile {
    // Its number in `L` records. A `match`, not discriminants: with these, a wrong program that
    // gives both files one number would not compile, and so would test no proof.
    pub fn number(self) -> u64
        ensures { result ≡ file_number self }
    {
        match self {
            InputFile::Network => 1,
            InputFile::Plan => 2,
        }
    }
}

// The time of a boundary of the plan, which starts where the past ends.
fn time_of(tables: &NetworkTables, n: usize) -> u32
    requires { TimeAsked tables.now.reading.counts tables.now.times.now n }
    ensures { result ≡ plan_time tables.now.reading.counts tables.now.times.now n }
{
    let past = tables.reading.counts.past;
    tables.times[past + n] - tables.times[past]
}

// Writes the `B` record of a boundary: its number, its time, and its row of the ledger. Buffer and
// place are two parameters, as in text_writer. Not network_writer's `Output`: it takes no `u64`,
// which the totals are, and leaves out a line that has no room, while the contracts here say that
// all is written.
fn write_boundary(out: &mut [u8], at: usize, n: usize, time: u32, row: &[u32]) -> usize
    requires { (length row.now ≤ row_size) × (at + 1052 ≤ length out.old) }
    ensures { Wrote (record_text 66 (n ∷ time ∷ row.now)) at out.old out.new result }
{
    let mut fields = [0u64; 2 + ROW_SIZE];
    let end = 2 + row.len();
    fields[0] = n as u64;
    fields[1] = u64::from(time);
    text_writer::widen(row, &mut fields[2..end]);
    text_writer::write_record(out, at, b'B', &fields[..end])
}

// Writes the `B` records of boundaries 0 to K of a plan on a network that has passed. By index: a
// boundary's row and its time stand in two tables.
fn write_rows(out: &mut [u8], at: usize, tables: &NetworkTables, ledger: &[u32]) -> usize
    requires { RowsAsked out.old at tables.now.reading.counts tables.now.times.now ledger.now }
    ensures { Wrote (boundary_texts tables.now.reading.counts tables.now.times.now ledger.now) at out.old out.new result }
{
    let counts = tables.reading.counts;
    let mut next = at;
    for n in 0..counts.steps + 1 {
        let row = &ledger[row_start(n, counts.links)..row_start(n + 1, counts.links)];
        next = write_boundary(out, next, n, time_of(tables, n), row);
    }
    next
}

// Writes `A` with the four totals, and the `B` records after it.
fn write_accepted(out: &mut [u8], tables: &NetworkTables, ledger: &[u32], totals: Totals) -> usize
    requires { RowsAsked out.old totals_size tables.now.reading.counts tables.now.times.now ledger.now }
    ensures { Wrote (totals_text totals ++ boundary_texts tables.now.reading.counts tables.now.times.now ledger.now) 0 out.old out.new result }
{
    let fields = [
        totals.admitted,
        totals.let_out,
        totals.inside,
        totals.doubled_time,
    ];
    let next = text_writer::write_record(out, 0, b'A', &fields);
    write_rows(out, next, tables, ledger)
}

// Writes `R`, number, line, item.
fn write_refusal(out: &mut [u8], refusal: Refusal) -> usize
    requires { totals_size ≤ length out.old }
    ensures { Wrote (refusal_text refusal) 0 out.old out.new result }
{
    let fields = [
        u64::from(refusal.number),
        u64::from(refusal.line),
        u64::from(refusal.item),
    ];
    text_writer::write_record(out, 0, b'R', &fields)
}

// Writes the answer of a plan's check; the rows of an accepted plan stand in the ledger.
fn write_answer(
    out: &mut [u8],
    tables: &NetworkTables,
    answer: Result<Totals, Refusal>,
    ledger: &[u32],
) -> usize
    requires { RowsAsked out.old totals_size tables.now.reading.counts tables.now.times.now ledger.now }
    ensures { Wrote (answer_text tables.now.reading.counts tables.now.times.now answer ledger.now) 0 out.old out.new result }
{
    match answer {
        Ok(totals) => write_accepted(out, tables, ledger, totals),
        Err(refusal) => write_refusal(out, refusal),
    }
}

// Judges a plan on a network that has passed, and writes the report: the ledger is long enough for
// every network.
fn write_judged(plan: &[u8], tables: &NetworkTables, start: &mut Start, out: &mut [u8]) -> usize
    requires loaded { StartLoaded tables.now start.old }
    requires in_bounds { OUTPUT_SIZE ≤ length out.old }
    ensures { Wrote (report tables.now.text.now plan.now) 0 out.old out.new result }
{
    let mut ledger = [0u32; LEDGER_SIZE];
    let answer = plan_check::judge_loaded(plan, tables, start, &mut ledger);
    write_answer(out, tables, answer, &ledger)
}

// Writes the report of two texts that were read. A longer buffer is taken too:
// `&mut [u8; OUTPUT_SIZE]` would ask more of a caller.
pub fn write_report(network: &[u8], plan: &[u8], out: &mut [u8]) -> usize
    requires { OUTPUT_SIZE ≤ length out.old }
    ensures wrote { Wrote (report network.now plan.now) 0 out.old out.new result }
    ensures padding_ignored { PaddingIgnored network.now (λ padded_network. PaddingIgnored plan.now (λ padded_plan. Wrote (report padded_network padded_plan) 0 out.old out.new result)) }
{
    let mut start = Start::default();
    let mut room = Room::default();
    let read = network::read_start(network, &mut start, &mut room);
    match read {
        Err(refusal) => write_refusal(out, refusal),
        Ok(tables) => write_judged(plan, &tables, &mut start, out),
    }
}

// Writes `L`: one of the files is longer than the program takes, or not to be opened or read.
pub fn write_not_read(out: &mut [u8], file: InputFile) -> usize
    requires { 23 ≤ length out.old }
    ensures { Wrote (not_read (file_number file)) 0 out.old out.new result }
{
    let fields = [file.number()];
    text_writer::write_record(out, 0, b'L', &fields)
}

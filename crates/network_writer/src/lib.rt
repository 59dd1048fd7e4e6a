// Lines written one after another into a buffer, as far as there is room. The length of the text is
// known in any case, so a text is measured by putting it where there is no room. A plan's text is
// put that way from a table of its numbers.
#![tactic(auto)]

ghost use Rattle.std.specs.Prelude.{ℕ, ◌≡◌, ◌≤◌, ◌<◌, List, length};
ghost use Rattle.base_search.specs.Reasons.{reason_number};
ghost use Rattle.text_writer.specs.Records.{record_text};
ghost use Rattle.model_text.specs.Answers.{room_verdict, Told};
ghost use Rattle.network_tables.specs.Fields.{line_size};
ghost use Rattle.network_tables.specs.Places.{plan_width, Few};
ghost use Rattle.network_writer.specs.Put.{Put, Early, PutWhole, PutsWhole};
ghost use Rattle.network_writer.specs.Texts.{line_texts, rows_to, Asks, Gives, GivesAsMany};
ghost use Rattle.network_writer.specs.Plan.{column_in, plan_row, plan_lines, PlanAsked};

use base_search::{Reason, Refusal};
use network_tables::{Counts, LINE_SIZE, MAX_LINKS, MAX_SIGNALS};

// A lent buffer, and the place where the next line is put, which may lie past the buffer's end.
#[derive(Drop)]
pub struct Output<'a> {
    pub out: &'a mut [u8],
    pub at: usize,
}

impl Output<'_> {
    // Writes a line of these numbers if it ends within the buffer; moves the place past it in any
    // case.
    pub fn put_line(&mut self, letter: u8, row: &[u32])
        requires { (length row.now ≤ line_size) × Early 1 self.old }
        ensures { Put 1 (record_text letter row.now) self.old self.new }
    {
        let mut table = [0u64; LINE_SIZE];
        let numbers = &mut table[..row.len()];
        text_writer::widen(row, numbers);
        let end = self.at + text_writer::record_length(numbers);
        if end <= self.out.len() {
            text_writer::write_record(self.out, self.at, letter, numbers);
        }
        self.at = end;
    }

    // Puts the lines of a table's items in their order, each as `change` returns it; an item for
    // which it returns none is left out.
    pub fn put_rows<const W: usize, T: Into<[u32; W]> + Copy, F: Fn(usize, T) -> Option<T>>(
        &mut self,
        letter: u8,
        items: &[T],
        change: F,
    )
        requires width { W ≤ line_size }
        requires early { Early (length items.now) self.old }
        requires asks { Asks (F.pre change) items.now }
        ensures { (f : ℕ → List (List ℕ)) → Gives T.converts (F.post change) items.now f → Put (length items.now) (line_texts letter (rows_to (length items.now) f)) self.old self.new }
    {
        for (k, item) in items.iter().enumerate() {
            if let Some(changed) = change(k, *item) {
                self.put_line(letter, &changed.into());
            }
        }
    }
}

// How many items of a table are not left out. Not by `filter` and `count`: the precondition of
// `count` can't be shown for a closure that is a parameter.
pub fn count_rows<T: Copy, F: Fn(usize, T) -> Option<T>>(items: &[T], change: F) -> usize
    requires { Asks (F.pre change) items.now }
    ensures { (f : ℕ → List (List ℕ)) → GivesAsMany (F.post change) items.now f → result ≡ length (rows_to (length items.now) f) }
{
    let mut count = 0;
    for (k, item) in items.iter().enumerate() {
        count += usize::from(change(k, *item).is_some());
    }
    count
}

// Where the columns of what is admitted, let out and moved start in a step's row of a plan's table,
// after the masks.
pub const ADMITTED_AT: usize = MAX_SIGNALS;

pub const LET_OUT_AT: usize = MAX_SIGNALS + MAX_LINKS;

pub const MOVED_AT: usize = MAX_SIGNALS + 2 * MAX_LINKS;

// The column of number k of a `P` line.
fn column_at(counts: Counts, k: usize) -> usize
    requires { Few counts × (k < plan_width counts) }
    ensures { result ≡ column_in counts k }
{
    if k < counts.signals {
        return k;
    }
    let i = k - counts.signals;
    if i < counts.links {
        return ADMITTED_AT + i;
    }
    let j = i - counts.links;
    if j < counts.links {
        return LET_OUT_AT + j;
    }
    MOVED_AT + (j - counts.links)
}

// Fills a `P` line's numbers by a step's row: 0 where the row does not have the column.
fn fill_line(row: &[u32], counts: Counts, line: &mut [u32])
    requires { Few counts × (length line.old ≡ plan_width counts) }
    ensures { line.new ≡ plan_row row.now counts }
{
    for (k, number) in line.iter_mut().enumerate() {
        *number = row.get(column_at(counts, k)).copied().unwrap_or(0);
    }
}

// Writes a plan's text at the beginning of a buffer: its lines as far as they fit; returns its
// length.
fn put_plan<const C: usize>(rows: &[[u32; C]], counts: Counts, out: &mut [u8]) -> usize
    requires { PlanAsked rows.now counts }
    ensures { PutWhole (plan_lines rows.now counts) out.old out.new result }
{
    let mut output = Output { out, at: 0 };
    let mut table = [0u32; LINE_SIZE];
    let line = &mut table[..counts.plan_width()];
    for row in &rows[..counts.steps] {
        fill_line(row, counts, line);
        output.put_line(b'P', line);
    }
    output.at
}

// Writes a text by `put`, which puts it at the beginning of a buffer as far as there is room, and
// returns its length. The text is first measured in a buffer without room for any line. If `out` is
// too short it is unchanged, and the refusal has this reason.
pub fn write_measured<F: Fn(&mut [u8]) -> usize>(
    reason: Reason,
    out: &mut [u8],
    put: F,
) -> Result<usize, Refusal>
    requires { F.IsAlwaysCallable put }
    ensures { (text : List ℕ) → PutsWhole (F.post put) text → Told text (room_verdict (reason_number reason) text out.old) out.old result out.new }
{
    let mut nowhere = [0u8; 1];
    let length = put(&mut nowhere);
    if out.len() < length {
        return Err(reason.refusal(0, 0));
    }
    put(out);
    Ok(length)
}

// Writes a plan's text by a table with a row for each step: refusal 24 where the buffer is too
// short. Rows and counts are two parameters, not a struct with the fact `PlanAsked` (a row for each
// step): each caller would make it for this call alone.
pub fn write_plan<const C: usize>(
    rows: &[[u32; C]],
    counts: Counts,
    out: &mut [u8],
) -> Result<usize, Refusal>
    requires { PlanAsked rows.now counts }
    ensures { Told (plan_lines rows.now counts) (room_verdict 24 (plan_lines rows.now counts) out.old) out.old result out.new }
{
    let put = |out: &mut [u8]|
        requires { PlanAsked rows.now counts }
        ensures { PutWhole (plan_lines rows.entry.now counts) out.old out.new result }
    { put_plan(rows, counts, out) };
    write_measured(Reason::PlanRoom, out, put)
}

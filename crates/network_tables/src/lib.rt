// The program's tables of a network and a plan: their sizes, and each number by its name in the
// paper. Links, signals, movements and steps are counted from 0 here.
#![tactic(auto)]

ghost use Rattle.std.specs.Prelude.{◌≡◌, ◌+◌, ◌*◌, ◌<◌, ◌≤◌, length, get_or};
ghost use Rattle.model.specs.Signals.{signal_fields};
ghost use Rattle.model.specs.Network.{max_links, max_signals, max_movements, max_steps, max_trams, max_past};
ghost use Rattle.network_tables.specs.Places.{tram_line_in, signal_line_in, link_line_in, movement_line_in, timeline_line_in, step_line_in, plan_width, Few};
ghost use Rattle.network_tables.specs.Fields.{step_size, line_size, counts_by, tram_by, tram_row, link_by, link_row, movement_by, movement_row, length_in, demand_in, admitted_in, let_out_in, moved_in, entered_in, left_in, entered_at, left_at, RowHeld};
ghost use Rattle.text_reader.specs.Lines.{lines};
ghost use Rattle.text_reader.specs.Reading.{Starts};
ghost use Rattle.network_tables.specs.Rows.{RowRead, ReadAgain, HeadRead};
ghost use Rattle.network_tables.specs.Blocks.{Block, Judges, RowsJudged, RowsHeld};
ghost use Rattle.network_tables.specs.Sums.{Summed, EachFits, EachAdded};
ghost use Rattle.network_tables.specs.Tables.{moved_to, LinksSized};

use base_search::{Reason, Refusal};

pub const MAX_LINKS: usize = 24;

pub const MAX_SIGNALS: usize = 8;

pub const MAX_MOVEMENTS: usize = 64;

pub const MAX_STEPS: usize = 120;

pub const MAX_TRAMS: usize = 16;

pub const MAX_PAST: usize = 120;

pub const MAX_SECONDS: u32 = 60;

// What the shares of a link's movements sum to, in thousandths.
pub const WHOLE_SHARE: u32 = 1000;

// How many numbers an `N`, a `T`, a `Q` and an `M` line have, and at most an `H`, an `S` and a `P`
// line.
pub const COUNT_FIELDS: usize = 6;

pub const TRAM_FIELDS: usize = 4;

pub const LINK_FIELDS: usize = 7;

pub const MOVEMENT_FIELDS: usize = 4;

pub const PAST_SIZE: usize = 1 + 2 * MAX_LINKS;

pub const STEP_SIZE: usize = 1 + MAX_LINKS;

pub const LINE_SIZE: usize = MAX_SIGNALS + 2 * MAX_LINKS + MAX_MOVEMENTS;

// The sizes of the times of all boundaries of the timeline, and of a row of the ledger.
pub const TIME_TABLE_SIZE: usize = MAX_STEPS + 1;

pub const ROW_SIZE: usize = 2 * MAX_LINKS;

// The counts of an `N` line. The type does not say that they are within the limits (`Few`): they
// are judged after they are read (refusal 2).
#[derive(Clone, Copy)]
pub struct Counts {
    pub links: usize,
    pub signals: usize,
    pub movements: usize,
    pub steps: usize,
    pub trams: usize,
    pub past: usize,
}

impl From<[u32; COUNT_FIELDS]> for Counts {
    ghost from_gives = { λ fields counts. counts ≡ counts_by (λ k. get_or fields k 0) };

    fn from(fields: [u32; COUNT_FIELDS]) -> Self {
        Counts {
            links: fields[0] as usize,
            signals: fields[1] as usize,
            movements: fields[2] as usize,
            steps: fields[3] as usize,
            trams: fields[4] as usize,
            past: fields[5] as usize,
        }
    }
}

// A `T` line: the signal and the phase that a tram asks, from its first to its last step; all
// counted from 1.
#[derive(Clone, Copy, Default)]
pub struct Tram {
    pub signal: u32,
    pub phase: u32,
    pub first_step: u32,
    pub last_step: u32,
}

impl From<[u32; TRAM_FIELDS]> for Tram {
    ghost from_gives = { λ fields tram. tram ≡ tram_by (λ k. get_or fields k 0) };

    fn from(fields: [u32; TRAM_FIELDS]) -> Self {
        Tram {
            signal: fields[0],
            phase: fields[1],
            first_step: fields[2],
            last_step: fields[3],
        }
    }
}

impl From<Tram> for [u32; TRAM_FIELDS] {
    ghost from_gives = { λ tram fields. fields ≡ tram_row tram };

    fn from(tram: Tram) -> Self {
        [tram.signal, tram.phase, tram.first_step, tram.last_step]
    }
}

// A `Q` line: a link, with the number of its signal, from 1, or 0 for none: not an `Option`, since
// it is compared with numbers of the text and written back as it is.
#[derive(Clone, Copy, Default)]
pub struct Link {
    pub capacity: u32,
    pub travel_time: u32,
    pub exit_rate: u32,
    pub signal: u32,
    pub phase_mask: u32,
    pub standing: u32,
    pub waiting: u32,
}

impl From<[u32; LINK_FIELDS]> for Link {
    ghost from_gives = { λ fields link. link ≡ link_by (λ k. get_or fields k 0) };

    fn from(fields: [u32; LINK_FIELDS]) -> Self {
        Link {
            capacity: fields[0],
            travel_time: fields[1],
            exit_rate: fields[2],
            signal: fields[3],
            phase_mask: fields[4],
            standing: fields[5],
            waiting: fields[6],
        }
    }
}

impl From<Link> for [u32; LINK_FIELDS] {
    ghost from_gives = { λ link fields. fields ≡ link_row link };

    fn from(link: Link) -> Self {
        [
            link.capacity,
            link.travel_time,
            link.exit_rate,
            link.signal,
            link.phase_mask,
            link.standing,
            link.waiting,
        ]
    }
}

// An `M` line: a movement from one link to another, both numbered from 1.
#[derive(Clone, Copy, Default)]
pub struct Movement {
    pub from: u32,
    pub to: u32,
    pub rate: u32,
    pub share: u32,
}

impl From<[u32; MOVEMENT_FIELDS]> for Movement {
    ghost from_gives = { λ fields movement. movement ≡ movement_by (λ k. get_or fields k 0) };

    fn from(fields: [u32; MOVEMENT_FIELDS]) -> Self {
        Movement {
            from: fields[0],
            to: fields[1],
            rate: fields[2],
            share: fields[3],
        }
    }
}

impl From<Movement> for [u32; MOVEMENT_FIELDS] {
    ghost from_gives = { λ movement fields. fields ≡ movement_row movement };

    fn from(movement: Movement) -> Self {
        [movement.from, movement.to, movement.rate, movement.share]
    }
}

// How far a network text has been read while its lines pass: its counts, the place of the next
// line, the places where its `T`, its `H` and its `S` lines start, the shortest of all greatest
// times, and whether the lengths of the past steps and the number of all steps are valid: a `bool`,
// since refusal 30 is reported after all lines.
#[derive(Clone, Copy)]
pub struct Reading {
    pub counts: Counts,
    pub next: usize,
    pub trams_at: usize,
    pub past_at: usize,
    pub steps_at: usize,
    pub shortest: u32,
    pub timed: bool,
}

impl Reading {
    pub fn moved_to(mut self, next: usize) -> Self
        ensures { result ≡ moved_to self next }
    {
        self.next = next;
        self
    }
}

// A network's text and the tables that are read from it, without its signals, which change from
// step to step. All tables are lent; those of links and movements are cut to as many as the network
// has. The type says so of the links alone, so that a function that reads no movement or time asks
// nothing of their tables.
#[derive(Clone, Copy)]
pub struct NetworkTables<'a> {
    pub text: &'a [u8],
    pub reading: Reading,
    pub links: &'a [Link],
    pub movements: &'a [Movement],
    pub times: &'a [u32],
    ghost sized: { LinksSized reading links.now },
}

// The places of lines in a network text, from 0, and how many numbers an `H`, an `S` and a `P` line
// have.
impl Counts {
    pub fn tram_line(self, k: usize) -> usize
        requires { k ≤ max_trams }
        ensures { result ≡ tram_line_in self k }
    {
        1 + k
    }

    pub fn signal_line(self, r: usize) -> usize
        requires { Few self × (r ≤ max_signals) }
        ensures { result ≡ signal_line_in self r }
    {
        1 + (self.trams + r)
    }

    pub fn link_line(self, i: usize) -> usize
        requires { Few self × (i ≤ max_links) }
        ensures { result ≡ link_line_in self i }
    {
        1 + (self.trams + (self.signals + i))
    }

    pub fn movement_line(self, j: usize) -> usize
        requires { Few self × (j ≤ max_movements) }
        ensures { result ≡ movement_line_in self j }
    {
        1 + (self.trams + (self.signals + (self.links + j)))
    }

    pub fn timeline_line(self, m: usize) -> usize
        requires { Few self × (m ≤ max_past + max_steps) }
        ensures { result ≡ timeline_line_in self m }
    {
        1 + (self.trams + (self.signals + (self.links + (self.movements + m))))
    }

    pub fn step_line(self, n: usize) -> usize
        requires { Few self × (n ≤ max_steps) }
        ensures { result ≡ step_line_in self n }
    {
        self.timeline_line(self.past + n)
    }

    pub fn past_width(self) -> usize
        requires { Few self }
        ensures { result ≡ 1 + 2 * self.links }
    {
        1 + 2 * self.links
    }

    pub fn step_width(self) -> usize
        requires { Few self }
        ensures { result ≡ 1 + self.links }
    {
        1 + self.links
    }

    pub fn plan_width(self) -> usize
        requires { Few self }
        ensures { result ≡ plan_width self }
    {
        self.signals + (2 * self.links + self.movements)
    }
}

// The whole product of two numbers of 32 bits.
pub fn product(a: u32, b: u32) -> u64
    ensures { result ≡ a * b }
{
    u64::from(a) * u64::from(b)
}

// Reads a line of this letter, whose numbers fill a row: the place of the next line.
pub fn read_row(text: &[u8], at: usize, letter: u8, row: &mut [u32]) -> Option<usize>
    ensures { RowRead letter (length row.old) text.now at row.old result row.new }
{
    text_reader::line_at(text, at, letter, row)
}

// Reads again a line that has passed, which is never malformed; returns the place of the next line.
pub fn read_again(text: &[u8], at: usize, letter: u8, row: &mut [u32]) -> usize
    ensures { ReadAgain letter (length row.old) text.now at row.old result row.new }
{
    read_row(text, at, letter, row).unwrap_or(at)
}

// Reads the beginning of a line of this letter: the numbers that fill a row, whatever follows them.
// Returns a `bool`, since there is no place of a next line.
pub fn read_head(text: &[u8], at: usize, letter: u8, row: &mut [u32]) -> bool
    ensures { HeadRead letter (length row.old) text.now at row.old result row.new }
{
    text_reader::head_at(text, at, letter, row)
}

// Reads `count` lines of a letter into the items of a table, and judges each item before it reads
// the next line. Returns the place after the last of them, or the first refusal. `first` is the
// number, from 1, of the line at `at`. By index: the closure judges the table up to the item, and
// could not read it while `iter_mut` lends the item.
pub fn read_rows<
    const W: usize,
    T: From<[u32; W]> + Copy,
    F: Fn(&[T], usize) -> Result<(), Refusal>,
>(
    text: &[u8],
    at: usize,
    letter: u8,
    first: usize,
    count: usize,
    table: &mut [T],
    judge: F,
) -> Result<usize, Refusal>
    requires fields { W ≤ signal_fields }
    requires room { count ≤ length table.old }
    requires few { first + count < 4294967296 }
    requires judges { Judges (F.pre judge) count (length table.old) }
    ensures { (b : Block) → RowsJudged T.from_gives (lines text.now) b letter W first count (length table.old) (F.post judge) → Starts text.now at (b.place 0)
        → RowsHeld T.from_gives text.now b W (length table.old) result table.new }
{
    let mut fields = [0u32; W];
    let mut place = at;
    for k in 0..count {
        let Some(next) = read_row(text, place, letter, &mut fields) else {
            return Err(Reason::NetworkForm.refusal(first + k, 0));
        };
        table[k] = T::from(fields);
        judge(table, k)?;
        place = next;
    }
    Ok(place)
}

// Adds numbers to sums; none if a sum does not fit 32 bits.
pub fn add_numbers(numbers: &[u32], sums: &mut [u32]) -> Option<()>
    requires { length numbers.now ≤ length sums.old }
    ensures { Summed numbers.now sums.old result sums.new }
{
    for (k, &number) in numbers.iter().enumerate() {
        sums[k] = sums[k].checked_add(number)?;
    }
    Some(())
}

// Adds numbers to sums that fit 32 bits.
pub fn add_each(numbers: &[u32], sums: &mut [u32])
    requires { EachFits numbers.now sums.old }
    ensures { EachAdded numbers.now sums.old sums.new }
{
    for (k, number) in numbers.iter().enumerate() {
        sums[k] += *number;
    }
}

// The numbers of an `S` line: its length, and the demand of link `i`. An `S` line and a `P` line
// are slices, as callers lend them. Each function requires `i < max_links`: with an index type for
// this, each caller would have to make one first.
pub fn step_length(step: &[u32]) -> u32
    requires { length step.now ≡ step_size }
    ensures { result ≡ length_in step.now }
{
    step[0]
}

pub fn demand(step: &[u32], i: usize) -> u32
    requires { (i < max_links) × (length step.now ≡ step_size) }
    ensures { result ≡ demand_in step.now i }
{
    step[1 + i]
}

// The numbers of a `P` line: what it admits on link i, lets out from link i, and moves by movement
// j. Line and counts are two parameters: only some callers have a `Step`, which has both.
pub fn admitted(line: &[u32], counts: Counts, i: usize) -> u32
    requires { Few counts × (i < max_links) × (length line.now ≡ line_size) }
    ensures { result ≡ admitted_in counts line.now i }
{
    line[counts.signals + i]
}

pub fn let_out(line: &[u32], counts: Counts, i: usize) -> u32
    requires { Few counts × (i < max_links) × (length line.now ≡ line_size) }
    ensures { result ≡ let_out_in counts line.now i }
{
    line[counts.signals + (counts.links + i)]
}

pub fn moved(line: &[u32], counts: Counts, j: usize) -> u32
    requires { Few counts × (j < max_movements) × (length line.now ≡ line_size) }
    ensures { result ≡ moved_in counts line.now j }
{
    line[counts.signals + (2 * counts.links + j)]
}

// entered and left of link i in a row of the ledger, which is flat, as C lends it.
pub fn entered(row: &[u32], i: usize) -> u32
    requires { 2 * i + 1 < length row.now }
    ensures { result ≡ entered_in row.now i }
{
    row[2 * i]
}

pub fn left(row: &[u32], i: usize) -> u32
    requires { 2 * i + 1 < length row.now }
    ensures { result ≡ left_in row.now i }
{
    row[2 * i + 1]
}

// Where row `n` of a ledger of so many links starts.
pub fn row_start(n: usize, count: usize) -> usize
    requires { (n ≤ max_steps + 1) × (count ≤ max_links) }
    ensures { result ≡ 2 * n * count }
{
    2 * n * count
}

// Entered and left of link i at boundary `n`, as a ledger has them. C lends the ledger as a slice,
// so that the count of links stands beside it.
pub fn entered_at(ledger: &[u32], count: usize, n: usize, i: usize) -> u32
    requires { RowHeld ledger.now count n i }
    ensures { result ≡ entered_at ledger.now count n i }
{
    let start = row_start(n, count);
    ledger[start + 2 * i]
}

pub fn left_at(ledger: &[u32], count: usize, n: usize, i: usize) -> u32
    requires { RowHeld ledger.now count n i }
    ensures { result ≡ left_at ledger.now count n i }
{
    let start = row_start(n, count);
    ledger[start + 2 * i + 1]
}

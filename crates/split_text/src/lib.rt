// Writes the texts of one half of a network and of a plan (T-14) by the half's tables: the numbers
// of what is in the half, in their old order, with those of border movements added. Lines are
// written as far as there is room; the place where a text ends is returned in any case.
#![tactic(auto)]

ghost use Rattle.std.specs.Prelude.{◌≡◌, ℕ, ◌+◌, ◌≤◌, ◌-◌, ◌<◌, Bool, length, get_or};
ghost use Rattle.text_writer.specs.Records.{record_text};
ghost use Rattle.model.specs.Network.{max_links, max_signals, max_movements};
ghost use Rattle.model.specs.Table.{letter_n, letter_t, letter_g, letter_q, letter_m};
ghost use Rattle.model_split.specs.Numbering.{picked};
ghost use Rattle.model_split.specs.Halves.{in_field};
ghost use Rattle.network_writer.specs.Put.{Put, Early};
ghost use Rattle.network_writer.specs.Texts.{line_texts};
ghost use Rattle.split_tables.specs.Whole.{whole_network};
ghost use Rattle.split_tables.specs.Tables.{is_in, LinksNamed};
ghost use Rattle.split_tables.specs.Items.{Asks, Gives};
ghost use Rattle.plan_steps.specs.PlanLine.{LineAsked};
ghost use Rattle.split_text.specs.Halves.{PlanLineRead, StepAsked, StepPut, StepsAsked, StepsPut, PlanAsked, PlanLineAsked, LinePut, PlanPut, NetworkAsked, NetworkPut};
ghost use Rattle.split_text.specs.Rows.{signal_number_in, count_row, tram_kept, tram_in, half_tram_row, half_signal_row, link_kept, half_link_row, movement_kept, half_movement_row, CountsAsked, TramsAsked, SignalsAsked, LinksAsked, MovementsAsked};
ghost use Rattle.split_text.specs.Filling.{Filled, FilledMost, FillAsked};
ghost use Rattle.split_text.specs.Border.{side_number, end_on, added_at, BorderAsked, Bordered};

use model::SIGNAL_FIELDS;
use network_tables::{
    Counts, LINE_SIZE, Link, MAX_LINKS, MAX_TRAMS, Movement, NetworkTables, STEP_SIZE, Tram,
};
use network_writer::Output;
use plan_steps::Place;
use split_tables::{HalfTables, Whole};

// The new number of a signal, from 1; 0 for none, as a `Q` line has it.
fn signal_number(half: &HalfTables, signal: u32) -> u32
    requires { signal ≤ max_signals }
    ensures { result ≡ signal_number_in half.now signal }
{
    if signal == 0 {
        return 0;
    }
    half.signals[signal as usize - 1]
}

// Puts the `N` line. Not a `From`: that can have no precondition, and the casts need one on the
// counts. A count is far below 2 ^ 32: no cast loses anything.
fn put_counts(counts: Counts, trams: usize, half: &HalfTables, output: &mut Output)
    requires { CountsAsked counts trams × Early 1 output.old }
    ensures { Put 1 (record_text letter_n (count_row counts trams half.now)) output.old output.new }
{
    let links = split_tables::count_in(&half.links[..counts.links]);
    let signals = split_tables::count_in(&half.signals[..counts.signals]);
    let movements = split_tables::count_in(&half.movements[..counts.movements]);
    let row = [
        links as u32,
        signals as u32,
        movements as u32,
        counts.steps as u32,
        trams as u32,
        0,
    ];
    output.put_line(b'N', &row);
}

// A tram with its signal's number in the half; none if the signal is not there.
fn tram_kept(tram: Tram, half: &HalfTables) -> Option<Tram>
    requires { tram.signal ≤ max_signals }
    ensures { result ≡ tram_kept half.now tram }
{
    let signal = signal_number(half, tram.signal);
    if signal == 0 {
        return None;
    }
    Some(Tram { signal, ..tram })
}

// Puts the `T` lines of the half's signals.
fn put_trams(trams: &[Tram], half: &HalfTables, output: &mut Output)
    requires { TramsAsked trams.now × Early (length trams.now) output.old }
    ensures { Put (length trams.now) (line_texts letter_t (picked (length trams.now) (tram_in trams.now half.now) (half_tram_row trams.now half.now))) output.old output.new }
{
    output.put_rows(b'T', trams, |_, tram| tram_kept(tram, half));
}

// Puts the `G` lines of the half's signals as they are. carry has the same loop: a method of
// `Output` would need a contract longer than the loop.
fn put_signals(whole: &Whole, half: &HalfTables, output: &mut Output)
    requires { SignalsAsked whole.now output.old }
    ensures { Put whole.now.tables.reading.counts.signals (line_texts letter_g (picked whole.now.tables.reading.counts.signals (is_in half.now.signals) (half_signal_row (whole_network whole.now)))) output.old output.new }
{
    let signals = &whole.signals[..whole.tables.reading.counts.signals];
    for (r, signal) in signals.iter().enumerate() {
        if half.signals[r] != 0 {
            let row = <[u32; SIGNAL_FIELDS]>::from(signal);
            output.put_line(b'G', &row[..signal.width()]);
        }
    }
}

// A link with its signal's number in the half, and the rates of border movements added to its exit
// rate; none if the link is not there. `i` must be below `max_links`, as at
// `network_tables::demand`; `j` below has such a bound too.
fn link_kept(i: usize, link: Link, rates: &[u64; MAX_LINKS], half: &HalfTables) -> Option<Link>
    requires { (i < max_links) × (link.signal ≤ max_signals) }
    ensures { result ≡ link_kept rates.now half.now i link }
{
    if half.links[i] == 0 {
        return None;
    }
    Some(Link {
        exit_rate: raised(link.exit_rate, rates[i]),
        signal: signal_number(half, link.signal),
        ..link
    })
}

// Puts the `Q` lines of the half's links.
fn put_links(
    tables: &NetworkTables,
    rates: &[u64; MAX_LINKS],
    half: &HalfTables,
    output: &mut Output,
)
    requires { LinksAsked tables.now output.old }
    ensures { Put tables.now.reading.counts.links (line_texts letter_q (picked tables.now.reading.counts.links (is_in half.now.links) (half_link_row tables.now.links.now rates.now half.now))) output.old output.new }
{
    output.put_rows(
        b'Q',
        tables.links,
        |i, link| link_kept(i, link, rates, half),
    );
}

// A movement with its links' numbers in the half; none if it is not inside.
fn movement_kept(j: usize, movement: Movement, half: &HalfTables) -> Option<Movement>
    requires { (j < max_movements) × LinksNamed movement }
    ensures { result ≡ movement_kept half.now j movement }
{
    if half.movements[j] == 0 {
        return None;
    }
    Some(Movement {
        from: half.links[movement.from as usize - 1],
        to: half.links[movement.to as usize - 1],
        ..movement
    })
}

// Puts the `M` lines of the movements inside the half.
fn put_movements(tables: &NetworkTables, half: &HalfTables, output: &mut Output)
    requires { MovementsAsked tables.now output.old }
    ensures { Put tables.now.reading.counts.movements (line_texts letter_m (picked tables.now.reading.counts.movements (is_in half.now.movements) (half_movement_row tables.now.movements.now half.now))) output.old output.new }
{
    output.put_rows(
        b'M',
        tables.movements,
        |j, movement| movement_kept(j, movement, half),
    );
}

// A number with what the border adds to it. If the sum is too large for a field, it is the greatest
// number; so the cast loses nothing.
fn raised(number: u32, sum: u64) -> u32
    ensures { result ≡ in_field (number + sum) }
{
    u64::from(number)
        .saturating_add(sum)
        .min(u64::from(u32::MAX)) as u32
}

// Adds a movement's number to the sum of a link, counted from 1, if it is a border movement. The
// test is in here, as in the definition.
#[tactic(auto, unfolding(crate::specs::Border::added_at))]
fn add_at(border: bool, link: usize, number: u32, sums: &mut [u64])
    requires { (1 ≤ link) × (link ≤ length sums.old) × (get_or sums.old (link - 1) 0 ≤ 1_000_000_000_000) }
    ensures { sums.new ≡ added_at border link number sums.old }
{
    if border {
        sums[link - 1] += u64::from(number);
    }
}

// One of a movement's two links: the one that it leaves, or the one that it enters. Not a closure,
// as `number_of` is: `add_border` would have to require that it returns a link of the network.
#[derive(Clone, Copy)]
enum Side {
    From,
    To,
}

// The link that a movement has on a side, from 1.
fn end_of(movement: Movement, side: Side) -> u32
    ensures { result ≡ end_on side movement }
{
    match side {
        Side::From => movement.from,
        Side::To => movement.to,
    }
}

// Adds up, for each link, the numbers of the border movements that have it on a side.
fn add_border<F: Fn(usize) -> u32>(
    tables: &NetworkTables,
    half: &HalfTables,
    side: Side,
    number_of: F,
) -> [u64; MAX_LINKS]
    requires asked { BorderAsked tables.now.movements.now tables.now.reading.counts.movements }
    requires asks { Asks (F.pre number_of) tables.now.reading.counts.movements }
    ensures { (f : ℕ → ℕ) → Gives (F.post number_of) tables.now.reading.counts.movements f
        → Bordered tables.now.movements.now half.now.links tables.now.reading.counts.movements (side_number side) f result }
{
    let mut sums = [0; MAX_LINKS];
    for (j, &movement) in tables.movements.iter().enumerate() {
        let border = split_tables::is_border(movement, &half.links);
        let link = end_of(movement, side) as usize;
        add_at(border, link, number_of(j), &mut sums);
    }
    sums
}

// Lent numbers of a line, and the place where the next is put. Not an `Output`, which has bytes,
// and whose place may lie past its end.
#[derive(Drop)]
struct Row<'a> {
    numbers: &'a mut [u32],
    at: usize,
}

impl Row<'_> {
    // Puts the values of the items of this half in their old order. An item has its number in the
    // half, 0 if absent.
    fn put_kept<F: Fn(usize) -> u32>(&mut self, items: &[u32], value_of: F)
        requires asked { FillAsked (length items.now) self.old }
        requires asks { Asks (F.pre value_of) (length items.now) }
        ensures most { FilledMost (length items.now) self.old self.new }
        ensures filled { (f : ℕ → ℕ) → Gives (F.post value_of) (length items.now) f → Filled (picked (length items.now) (is_in items.now) f) self.old self.new }
    {
        for (k, item) in items.iter().enumerate() {
            if *item != 0 {
                self.numbers[self.at] = value_of(k);
                self.at += 1;
            }
        }
    }
}

// Reads the numbers of a `P` line that has passed into a line of zeros; returns the place of the
// next. Not by `read_again`: a plan without bytes has no such line, and its numbers are made.
fn read_plan(whole: &Whole, at: usize, line: &mut [u32]) -> usize
    requires { LineAsked whole.now.signals.now whole.now.tables.reading.counts line.old }
    ensures { PlanLineRead whole.now at line.old result line.new }
{
    plan_steps::read_line(
        whole.plan,
        at,
        whole.signals,
        whole.tables.reading.counts,
        line,
    )
    .unwrap_or(at)
}

// Puts the `S` line of the next step, with the volumes of border movements as demand, and returns
// the place of the lines after it.
fn put_step(whole: &Whole, half: &HalfTables, place: Place, output: &mut Output) -> Place
    requires { StepAsked whole.now half.now place output.old }
    ensures { StepPut whole.now half.now place output.old output.new result }
{
    let tables = &whole.tables;
    let counts = tables.reading.counts;
    let mut step = [0u32; STEP_SIZE];
    let mut line = [0u32; LINE_SIZE];
    let mut numbers = [0u32; STEP_SIZE];
    let width = counts.step_width();
    let step_at = network_tables::read_again(tables.text, place.step_at, b'S', &mut step[..width]);
    let plan_at = read_plan(whole, place.plan_at, &mut line);
    let volume = |j| network_tables::moved(&line, counts, j);
    let into = add_border(tables, half, Side::To, volume); // demand of the link that it enters
    numbers[0] = step[0];
    let demand = |i| raised(network_tables::demand(&step, i), into[i]);
    let mut row = Row {
        numbers: &mut numbers,
        at: 1,
    };
    row.put_kept(&half.links[..counts.links], demand);
    let end = row.at;
    output.put_line(b'S', &numbers[..end]);
    Place {
        boundary: place.boundary + 1,
        step_at,
        plan_at,
    }
}

// Puts the `P` line of the next step, with the volumes of border movements added to what is
// admitted and let out, and returns the place of the line after it.
fn put_plan_line(whole: &Whole, half: &HalfTables, at: usize, output: &mut Output) -> usize
    requires { PlanLineAsked whole.now half.now at output.old }
    ensures { LinePut whole.now half.now at output.old output.new result }
{
    let tables = &whole.tables;
    let counts = tables.reading.counts;
    let mut line = [0u32; LINE_SIZE];
    let mut numbers = [0u32; LINE_SIZE];
    let next = read_plan(whole, at, &mut line);
    let volume = |j| network_tables::moved(&line, counts, j);
    let into = add_border(tables, half, Side::To, volume); // admitted on the link that it enters
    let from = add_border(tables, half, Side::From, volume); // let out of the link that it leaves
    let mask = |r| line[r];
    let admitted = |i| raised(network_tables::admitted(&line, counts, i), into[i]);
    let let_out = |i| raised(network_tables::let_out(&line, counts, i), from[i]);
    let mut row = Row {
        numbers: &mut numbers,
        at: 0,
    };
    row.put_kept(&half.signals[..counts.signals], mask);
    row.put_kept(&half.links[..counts.links], admitted);
    row.put_kept(&half.links[..counts.links], let_out);
    row.put_kept(&half.movements[..counts.movements], volume);
    let end = row.at;
    output.put_line(b'P', &numbers[..end]);
    next
}

// Puts the `S` lines.
fn put_steps(whole: &Whole, half: &HalfTables, output: &mut Output)
    requires { StepsAsked whole.now half.now output.old }
    ensures { StepsPut whole.now half.now output.old output.new }
{
    let reading = whole.tables.reading;
    let mut place = Place::first(reading.steps_at);
    for _ in 0..reading.counts.steps {
        place = put_step(whole, half, place, output);
    }
}

// Writes the half's plan at the beginning of a buffer, as far as it fits, and returns its length.
pub fn put_plan(whole: &Whole, half: &HalfTables, out: &mut [u8]) -> usize
    requires { PlanAsked whole.now half.now }
    ensures { PlanPut whole.now half.now out.old out.new result }
{
    let mut output = Output { out, at: 0 };
    let mut line = 0;
    for _ in 0..whole.tables.reading.counts.steps {
        line = put_plan_line(whole, half, line, &mut output);
    }
    output.at
}

// Writes the half's network at the beginning of a buffer, as far as it fits, and returns its
// length.
pub fn put_network(whole: &Whole, half: &HalfTables, out: &mut [u8]) -> usize
    requires { NetworkAsked whole.now half.now }
    ensures { NetworkPut whole.now half.now out.old out.new result }
{
    let tables = &whole.tables;
    let rate = |j| tables.movements[j].rate;
    let rates = add_border(tables, half, Side::From, rate); // exit rate of the link that it leaves
    let mut room = [Tram::default(); MAX_TRAMS];
    let trams = network_trams::load_trams(tables, &mut room);
    let found = network_writer::count_rows(trams, |_, tram| tram_kept(tram, half));
    let mut output = Output { out, at: 0 };
    put_counts(tables.reading.counts, found, half, &mut output);
    put_trams(trams, half, &mut output);
    put_signals(whole, half, &mut output);
    put_links(tables, &rates, half, &mut output);
    put_movements(tables, half, &mut output);
    put_steps(whole, half, &mut output);
    output.at
}

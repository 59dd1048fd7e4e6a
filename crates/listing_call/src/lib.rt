// Plans straight from the solver (T-01): reads a listing for a network, and writes its plan text.
#![tactic(auto)]

ghost use Rattle.std.specs.Prelude.{◌≡◌, ◌+◌, ◌/◌, ◌^◌, ◌≤◌, ◌<◌, length, eqb, not, IfSome, IfOk};
ghost use Rattle.text_reader.specs.Lines.{lines};
ghost use Rattle.text_reader.specs.Padding.{PaddingIgnored};
ghost use Rattle.model.specs.Network.{max_steps};
ghost use Rattle.network_tables.specs.Fields.{line_size};
ghost use Rattle.step_arrivals.specs.Arrivals.{seconds_in};
ghost use Rattle.listing_lines.specs.Entry.{entries};
ghost use Rattle.listing_call.specs.Listing.{valid_value};
ghost use Rattle.listing_call.specs.ReadsBack.{PlanGot};
ghost use Rattle.listing_call.specs.Tables.{has_in, index_in, place_in, variable_place, Inside, bit_at, with_bit, phase_bit, volume_in, number_in, outcome, TablesFit, step_bits, Empty, ListingGot};
ghost use Rattle.listing_call.specs.Writing.{WriteGot};

use base_search::{Reason, Refusal};
use listing_lines::{ONE, Setting, Variable};
use model::{MAX_PHASES, Signal};
use network::Room;
use network_tables::{Counts, LINE_SIZE, MAX_LINKS, MAX_MOVEMENTS, MAX_SIGNALS, MAX_STEPS};
use network_writer::{ADMITTED_AT, LET_OUT_AT, MOVED_AT};

// Where the bits of what is admitted, let out and moved start in a step's row, behind those of the
// phases.
const ADMITTED_BITS: usize = MAX_PHASES * MAX_SIGNALS;

const LET_OUT_BITS: usize = ADMITTED_BITS + MAX_LINKS;

const MOVED_BITS: usize = LET_OUT_BITS + MAX_LINKS;

// How many bytes the bits of a step have. They are packed by hand, since memory is fixed: a `bool`
// for each would take 21,120 bytes of stack in place of 2,640.
const STEP_BYTES: usize = (MOVED_BITS + MAX_MOVEMENTS) / 8;

// How many millionths are a thousandth, the unit of a volume.
const THOUSANDTH: u64 = 1000;

// Where a variable stands: its step, counted from 0, and its bit and its number in the step's rows.
#[derive(Clone, Copy)]
struct Place {
    step: usize,
    bit: usize,
    number: usize,
}

// What a listing is judged by: the counts and the signals of a network, and the times of the
// boundaries from the plan's start on, of which only differences count. All are lent: no table is
// copied.
#[derive(Clone, Copy)]
struct Tables<'a> {
    counts: Counts,
    signals: &'a [Signal],
    times: &'a [u32],
    ghost fit: { TablesFit counts signals.now times.now },
}

// The index, from 0, of a number that counts from 1; none unless it is 1 to `count`.
#[tactic(auto, using(crate::proofs::Tests::tests))]
fn index_in(number: u64, count: usize) -> Option<usize>
    ensures value { result ≡ index_in number count }
    ensures bound { IfSome result (λ index. (index < count) × (number ≡ index + 1)) }
{
    (number as usize)
        .checked_sub(1)
        .filter(|index| *index < count)
}

impl Tables<'_> {
    // The place of a variable by its columns, where the network has its step.
    fn place_in(&self, step: u64, bit: usize, number: usize) -> Option<Place>
        requires few_bits { bit < step_bits }
        requires few_numbers { number < line_size }
        ensures value { result ≡ place_in self.now.counts.steps step bit number }
        ensures inside { IfSome result (λ place. Inside self.now.counts place) }
    {
        let step = index_in(step, self.counts.steps)?;
        Some(Place { step, bit, number })
    }

    // The place of a variable, where the network has what it names.
    #[tactic(auto, using(crate::proofs::Tests::tests), unfolding(crate::specs::Listing::step_of))]
    fn variable_place(&self, variable: Variable) -> Option<Place>
        ensures value { result ≡ variable_place self.now.counts self.now.signals.now variable }
        ensures inside { IfSome result (λ place. Inside self.now.counts place) }
    {
        match variable {
            Variable::Shown {
                signal,
                phase,
                step,
            } => {
                let signal = index_in(signal, self.counts.signals)?;
                let phase = index_in(phase, self.signals[signal].phases as usize)?;
                self.place_in(step, MAX_PHASES * signal + phase, signal)
            }
            Variable::Admitted { link, step } => {
                let link = index_in(link, self.counts.links)?;
                self.place_in(step, ADMITTED_BITS + link, ADMITTED_AT + link)
            }
            Variable::LetOut { link, step } => {
                let link = index_in(link, self.counts.links)?;
                self.place_in(step, LET_OUT_BITS + link, LET_OUT_AT + link)
            }
            Variable::Moved { movement, step } => {
                let movement = index_in(movement, self.counts.movements)?;
                self.place_in(step, MOVED_BITS + movement, MOVED_AT + movement)
            }
        }
    }

    // Which number a line adds, and at which place; or its refusal. `seen` has a bit for each
    // variable that an earlier line has set.
    #[tactic(auto, using(crate::proofs::Tests::tests), unfolding(crate::specs::Tables::outcome, crate::specs::Listing::step_of))]
    fn judge(
        &self,
        setting: Setting,
        seen: &[[u8; STEP_BYTES]],
        line: usize,
    ) -> Result<(Place, u32), Refusal>
        requires small { setting.millionths < 10 ^ 16 }
        requires seen_room { length seen.now ≡ max_steps }
        requires few_lines { line < 4294967296 }
        ensures value { result ≡ outcome self.now.counts self.now.signals.now self.now.times.now seen.now line setting }
        ensures inside { IfOk result (λ added. Inside self.now.counts added.0) }
    {
        let malformed = Reason::ListingLine.refusal(line, 0);
        let place = self.variable_place(setting.variable).ok_or(malformed)?;
        if !is_valid_value(setting) || is_set(&seen[place.step], place.bit) {
            return Err(malformed);
        }
        let unfit = Reason::ListingVolume.refusal(line, 0);
        let seconds = step_arrivals::seconds(self.times, place.step);
        let number = number_of(setting, seconds).ok_or(unfit)?;
        Ok((place, number))
    }

    // Reads a listing into empty tables, refusals 22 and 23: each line adds to one number and sets
    // the bit of its variable.
    fn read_listing(
        &self,
        text: &[u8],
        numbers: &mut [[u32; LINE_SIZE]],
        seen: &mut [[u8; STEP_BYTES]],
    ) -> Result<(), Refusal>
        requires { Empty numbers.old seen.old }
        ensures { ListingGot (has_in self.now.counts self.now.signals.now) (seconds_in self.now.times.now) (entries text.now) result numbers.new seen.new }
    {
        let mut at = 0;
        let mut line = 0;
        // A `while`: how many lines there are shows only as they are read.
        while at < text.len() {
            line += 1;
            let malformed = Reason::ListingLine.refusal(line, 0);
            let (setting, next) = listing_lines::entry_at(text, at).ok_or(malformed)?;
            let (place, number) = self.judge(setting, seen, line)?;
            numbers[place.step][place.number] += number;
            set_bit(&mut seen[place.step], place.bit);
            at = next;
        }
        Ok(())
    }

    // Writes the plan of a listing on a network that has passed: refusals 22 to 24.
    fn write_listing(&self, listing: &[u8], out: &mut [u8]) -> Result<usize, Refusal>
        ensures { WriteGot self.now.counts self.now.signals.now self.now.times.now (entries listing.now) out.old result out.new }
    {
        let mut numbers = [[0u32; LINE_SIZE]; MAX_STEPS];
        let mut seen = [[0u8; STEP_BYTES]; MAX_STEPS];
        self.read_listing(listing, &mut numbers, &mut seen)?;
        network_writer::write_plan(&numbers, self.counts, out)
    }
}

// Whether a phase's value is 0 or 1.
#[tactic(auto, using(crate::proofs::Tests::tests), unfolding(crate::specs::Listing::valid_value))]
fn is_valid_value(setting: Setting) -> bool
    ensures { result ≡ valid_value setting.variable setting.millionths }
{
    match setting.variable {
        Variable::Shown { .. } => matches!(setting.millionths, 0 | ONE),
        _ => true,
    }
}

// Whether bit `k` is set, eight bits to a byte.
fn is_set(bytes: &[u8], k: usize) -> bool
    requires { k / 8 < length bytes.now }
    ensures { result ≡ not (eqb (bit_at bytes.now k) 0) }
{
    bytes[k / 8] >> (k % 8) & 1 != 0
}

// Sets bit `k`, eight bits to a byte.
fn set_bit(bytes: &mut [u8], k: usize)
    requires { k / 8 < length bytes.old }
    ensures { bytes.new ≡ with_bit bytes.old k }
{
    bytes[k / 8] |= 1 << (k % 8);
}

// The bit of a phase in a mask. Not `step_signals::mask_of`, which takes phases up to 8 only: a
// listing may name any.
#[tactic(auto, using(crate::proofs::Tests::tests, std::proofs::lemmas::Grind::common_steps))]
fn phase_bit(phase: u64) -> u32
    ensures { result ≡ phase_bit phase }
{
    match phase {
        1..=8 => 1 << (phase - 1),
        _ => 0,
    }
}

// The volume of a rate over some seconds, in thousandths of a vehicle. By refusal 6 a step lasts at
// most 60 seconds, so the product, here and in `number_of`, fits a `u64`; the functions require
// this, as those of step_signals do.
#[tactic(auto, using(crate::proofs::Tests::tests), unfolding(crate::specs::Listing::is_volume, crate::specs::Listing::volume))]
fn volume_of(millionths: u64, seconds: u32) -> Option<u32>
    requires small { millionths < 10 ^ 16 }
    requires short { seconds ≤ 60 }
    ensures { result ≡ volume_in millionths seconds }
{
    let product = millionths * u64::from(seconds);
    if product % THOUSANDTH != 0 {
        return None;
    }
    u32::try_from(product / THOUSANDTH).ok()
}

// What a line adds to the number of its variable.
fn number_of(setting: Setting, seconds: u32) -> Option<u32>
    requires small { setting.millionths < 10 ^ 16 }
    requires short { seconds ≤ 60 }
    ensures { result ≡ number_in setting.variable setting.millionths seconds }
{
    match setting.variable {
        Variable::Shown { phase, .. } if setting.millionths == ONE => Some(phase_bit(phase)),
        Variable::Shown { .. } => Some(0),
        _ => volume_of(setting.millionths, seconds),
    }
}

// The plan text of a solver's listing: refusals 1 to 6, 28 and 30, then 22 and 23 line by line,
// then 24.
pub fn plan_from_listing(network: &[u8], listing: &[u8], out: &mut [u8]) -> Result<usize, Refusal>
    ensures plan_got { PlanGot (lines network.now) (entries listing.now) out.old result out.new }
    ensures padding_ignored { PaddingIgnored network.now (λ padded. PlanGot (lines padded) (entries listing.now) out.old result out.new) }
{
    let mut signals = [Signal::default(); MAX_SIGNALS];
    let mut room = Room::default();
    let loaded = network::read_network(network, &mut signals, &mut room)?;
    let counts = loaded.reading.counts;
    let tables = Tables {
        counts,
        signals: &signals,
        times: &loaded.times[counts.past..],
    };
    tables.write_listing(listing, out)
}

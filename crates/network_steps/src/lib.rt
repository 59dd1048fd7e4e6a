// The `S` lines of a network text: their form and values (refusals 1 and 6), the time of each
// boundary, and the demand of each link in all steps.
#![tactic(auto)]

ghost use Rattle.std.specs.Prelude.{◌≡◌};
ghost use Rattle.text_reader.specs.Lines.{lines};
ghost use Rattle.network_tables.specs.Tables.{Judged};
ghost use Rattle.network_tables.specs.Blocks.{block_checks, step_block};
ghost use Rattle.network_steps.specs.Steps.{valid_demands_in, valid_step_in, StepsAsked, StepsHeld};

use base_search::{Reason, Refusal};
use network_tables::{MAX_SECONDS, Reading, STEP_SIZE};

// The greatest demand of a link in a step.
const MAX_DEMAND: u32 = 600_000;

// Refusal 6: whether each demand is at most 600,000.
fn valid_demands(demands: &[u32]) -> bool
    ensures { result ≡ valid_demands_in demands.now }
{
    demands.iter().all(|demand| *demand <= MAX_DEMAND)
}

// Refusal 6: whether the length is 1 to 60 and at most the shortest of all greatest times, and the
// demands are valid.
fn valid_step(seconds: u32, demands: &[u32], shortest: u32) -> bool
    ensures { result ≡ valid_step_in seconds demands.now shortest }
{
    (1..=MAX_SECONDS).contains(&seconds) & (seconds <= shortest) & valid_demands(demands)
}

// Refusals 1 and 6: reads the `S` lines, sets the time of each boundary, if the past is timed, and
// sums up the demands of each link. Not by `read_rows`: no table keeps the lines, only their times
// and sums are kept.
pub fn read_steps(
    text: &[u8],
    reading: Reading,
    times: &mut [u32],
    demands: &mut [u32],
) -> Result<Reading, Refusal>
    requires { StepsAsked text.now reading times.old demands.old }
    ensures { Judged (block_checks (step_block (lines text.now))) (StepsHeld text.now times.new demands.new) result }
{
    let counts = reading.counts;
    let width = counts.step_width();
    let mut step = [0u32; STEP_SIZE];
    let mut place = reading.next;
    for n in 0..counts.steps {
        let line = counts.step_line(n) + 1;
        let read = network_tables::read_row(text, place, b'S', &mut step[..width]);
        place = read.ok_or(Reason::NetworkForm.refusal(line, 0))?;
        let seconds = network_tables::step_length(&step);
        let asked = &step[1..width];
        if !valid_step(seconds, asked, reading.shortest) {
            return Err(Reason::Step.refusal(line, n + 1));
        }
        step_arrivals::next_time(times, counts.past + n, seconds, reading.timed);
        network_tables::add_each(asked, demands);
    }
    Ok(Reading {
        next: place,
        steps_at: reading.next,
        ..reading
    })
}

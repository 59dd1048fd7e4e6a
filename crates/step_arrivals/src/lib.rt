// When vehicles arrive: the step in which a link's travel time before a boundary ends, and what has
// arrived by then. Steps and boundaries here are those of the timeline; a table has the times of
// its boundaries.
#![tactic(auto)]

ghost use Rattle.std.specs.Prelude.{◌≡◌, ◌+◌, ◌-◌, ◌<◌, ◌≤◌, length};
ghost use Rattle.step_arrivals.specs.Arrivals.{arrival_step_in, seconds_in, elapsed_in, scaled_in, Cursor};
ghost use Rattle.step_arrivals.specs.Timed.{TimeAsked, TimeSet};

use network_tables::MAX_SECONDS;

// Sets the time at the end of step `m`, if it and all steps before it last 1 to 60 seconds;
// otherwise the table is unchanged. `timed` says it of the steps before, the result of all: refusal
// 30 is reported after all lines, so no line is refused for it.
pub fn next_time(times: &mut [u32], m: usize, seconds: u32, timed: bool) -> bool
    requires { TimeAsked times.old m timed }
    ensures { TimeSet times.old m seconds timed result times.new }
{
    let valid = timed & (1..=MAX_SECONDS).contains(&seconds);
    if valid {
        times[m + 1] = times[m] + seconds;
    }
    valid
}

// The step in which `boundary`'s time minus the travel time lies. The search starts at the step
// that was found for an earlier boundary and only moves on, so the work over all steps is linear.
// The step after the one that is found starts too late; that alone ends the search.
pub fn arrival_step(times: &[u32], from: usize, boundary: usize, travel: u32) -> usize
    requires { Cursor times.now from boundary travel }
    ensures { result ≡ arrival_step_in times.now boundary travel }
{
    let latest = times[boundary].saturating_sub(travel);
    let mut m = from;
    // A `while`: the search has no fixed end.
    while times[m + 1] <= latest {
        m += 1;
    }
    m
}

// The length of a step.
pub fn seconds(times: &[u32], step: usize) -> u32
    requires { step + 1 < length times.now }
    ensures { result ≡ seconds_in times.now step }
{
    times[step + 1].saturating_sub(times[step])
}

// The seconds of a step that have elapsed when the travel time before `boundary` ends.
pub fn elapsed(times: &[u32], step: usize, boundary: usize, travel: u32) -> u32
    requires { (step < length times.now) × (boundary < length times.now) }
    ensures { result ≡ elapsed_in times.now step boundary travel }
{
    let reached = times[boundary].saturating_sub(travel);
    reached.saturating_sub(times[step])
}

// What has arrived × the length of the step in which the travel time ends, so that nothing is
// rounded: `start` had entered by the step's start, `end` by its end.
pub fn scaled_arrived(start: u32, end: u32, seconds: u32, elapsed: u32) -> u64
    requires { (seconds ≤ 7200) × (elapsed ≤ 7200) }
    ensures { result ≡ scaled_in start end seconds elapsed }
{
    network_tables::product(start, seconds)
        + network_tables::product(end.saturating_sub(start), elapsed)
}

// The definitions of the plan check (specs/) and the theorems about them (proofs/). In code only
// the types of its answers and of a signal.
#![tactic(auto)]

ghost use Rattle.std.specs.Prelude.{◌≡◌, ◌+◌, ◌*◌, ◌≤◌, get_or};
ghost use Rattle.model.specs.Signals.{signal_by, signal_row};

pub const MAX_PHASES: usize = 8;

// How many numbers a `G` line has, with `MAX_PHASES` phases.
pub const SIGNAL_FIELDS: usize = 6 + 2 * MAX_PHASES;

// A signal (the paper's light): its `G` line, with the phase that it shows, for how many seconds,
// and the seconds since phase 1 last began. `least` and `greatest` have phase k's times at k - 1.
// The type does not say that it has at most 8 phases: it is made from any `G` line, and judged then
// (refusal 3).
#[derive(Clone, Copy, Default)]
pub struct Signal {
    pub least_cycle: u32,
    pub greatest_cycle: u32,
    pub phases: u32,
    pub shown: u32,
    pub shown_for: u32,
    pub cycle_clock: u32,
    pub least: [u32; MAX_PHASES],
    pub greatest: [u32; MAX_PHASES],
}

impl Signal {
    // How many numbers its `G` line has. At most eight phases: the cast loses nothing.
    pub fn width(&self) -> usize
        requires { self.now.phases ≤ 8 }
        ensures { result ≡ 6 + 2 * self.now.phases }
    {
        6 + 2 * self.phases as usize
    }
}

impl From<[u32; SIGNAL_FIELDS]> for Signal {
    ghost from_gives = { λ fields signal. signal ≡ signal_by (λ k. get_or fields k 0) };

    // Each time is written out, since least and greatest times alternate: a loop would have to
    // compute their places, 6 + 2 * k and 7 + 2 * k.
    fn from(fields: [u32; SIGNAL_FIELDS]) -> Self {
        Signal {
            least_cycle: fields[0],
            greatest_cycle: fields[1],
            phases: fields[2],
            shown: fields[3],
            shown_for: fields[4],
            cycle_clock: fields[5],
            least: [
                fields[6], fields[8], fields[10], fields[12], fields[14], fields[16], fields[18],
                fields[20],
            ],
            greatest: [
                fields[7], fields[9], fields[11], fields[13], fields[15], fields[17], fields[19],
                fields[21],
            ],
        }
    }
}

// A signal's numbers as its `G` line has them, with room for eight phases: written out, as they are
// read.
impl From<&Signal> for [u32; SIGNAL_FIELDS] {
    ghost from_gives = { λ signal fields. fields ≡ signal_row signal.now };

    #[tactic(auto, unfolding(crate::specs::Signals::signal_row))]
    fn from(signal: &Signal) -> Self {
        let least = signal.least;
        let greatest = signal.greatest;
        [
            signal.least_cycle,
            signal.greatest_cycle,
            signal.phases,
            signal.shown,
            signal.shown_for,
            signal.cycle_clock,
            least[0],
            greatest[0],
            least[1],
            greatest[1],
            least[2],
            greatest[2],
            least[3],
            greatest[3],
            least[4],
            greatest[4],
            least[5],
            greatest[5],
            least[6],
            greatest[6],
            least[7],
            greatest[7],
        ]
    }
}

// The four totals: volumes admitted and let out, what the network holds at the end, and the doubled
// travel time.
#[derive(Clone, Copy)]
pub struct Totals {
    pub admitted: u64,
    pub let_out: u64,
    pub inside: u64,
    pub doubled_time: u64,
}

// The state of one link: queued and in transit, the paper's standing and moving.
#[derive(Clone, Copy)]
pub struct LinkState {
    pub queued: u32,
    pub in_transit: u32,
}

// A signal (the paper's light) through a step: the phase that its mask shows, rules 10, 29 and 11
// to 14, and the signal after the step. `asked` is the phase that a tram asks of a signal, 0 in an
// ordinary step. The definitions stand in specs/ of crate model.
#![tactic(auto)]

ghost use Rattle.std.specs.Prelude.{◌≡◌, true, ◌-◌, ◌^◌, ◌≤◌, length};
ghost use Rattle.model.specs.Network.{max_signals};
ghost use Rattle.model.specs.Signals.{phase_of, opens, phase_after, begins_cycle, greatest_time, shown_for_after, clock_after, keeps_order, keeps_least_time, keeps_greatest_time, keeps_cycle, after};
ghost use Rattle.step_signals.specs.Ready.{Ready, AllReady};
ghost use Rattle.step_signals.specs.Rules.{signal_rule_number, signal_test, keeps_ordinary_rules, keeps_all, goes_on, SignalRulesKept, SignalTables};
ghost use Rattle.step_signals.specs.Step.{ShownPhases, HeldMasks, stepped, AdvanceAsked, Advanced};

use model::Signal;

// A rule of one signal: 10; 29, which a tram's step keeps; and 11 to 14, which an ordinary one
// keeps.
#[derive(Clone, Copy)]
pub enum SignalRule {
    OnePhase,
    TramPhase,
    Order,
    LeastTime,
    GreatestTime,
    Cycle,
}

// The phase, among 1 to `phases`, whose bit is all of the mask; 0 where there is none, which breaks
// rule 10 (C7). The count of ones tests that one bit is set; the trailing zeros are its place. A
// number, not an `Option`: with tables of options, for what is shown and what trams ask, the
// largest plan took 2.2 % more instructions.
pub fn phase_of(mask: u32, phases: u32) -> u32
    ensures { result ≡ phase_of mask phases }
{
    if u32::count_ones(mask) == 1 {
        let place = u32::trailing_zeros(mask);
        if place < phases {
            return place + 1;
        }
    }
    0
}

// The index of a phase's times and of its bit: k - 1 for phase k. Phase 0, which is none, has the
// index of phase 1, so that no rule depends on rule 10.
pub fn place_of(phase: u32) -> usize
    ensures { result ≡ phase - 1 }
{
    phase.saturating_sub(1) as usize
}

// The mask that shows one phase: its bit.
pub fn mask_of(phase: u32) -> u32
    requires { phase ≤ 8 }
    ensures { result ≡ 2 ^ (phase - 1) }
{
    1 << place_of(phase)
}

// Whether a link's mask has the phase's bit.
#[tactic(auto, unfolding(model::specs::Signals::opens))]
pub fn opens(mask: u32, phase: u32) -> bool
    requires { phase ≤ 32 }
    ensures { result ≡ opens mask phase }
{
    let place = place_of(phase);
    (mask >> place) % 2 == 1
}

// The phase after one of so many, by cases (C8), as the paper has it: after P comes 1, after any
// other k comes k + 1. After phase 0, which is none, it is 1.
pub fn phase_after(phase: u32, phases: u32) -> u32
    requires { (phase ≤ phases) × (phases ≤ 8) }
    ensures { result ≡ phase_after phases phase }
{
    if phase == phases {
        return 1;
    }
    match phase {
        1 => 2,
        2 => 3,
        3 => 4,
        4 => 5,
        5 => 6,
        6 => 7,
        7 => 8,
        _ => 1,
    }
}

// Whether phase 1 begins again, which it does on a change to it only.
fn begins_cycle(signal: Signal, phase: u32) -> bool
    ensures { result ≡ begins_cycle signal phase }
{
    (phase == 1) & (signal.shown != 1)
}

// The seconds that the phase has shown after the step: a run starts at 0 when the phase changes.
fn shown_for_after(signal: Signal, phase: u32, seconds: u32) -> u32
    requires ready { Ready signal }
    requires seconds_bound { seconds ≤ 60 }
    ensures { result ≡ shown_for_after signal phase seconds }
{
    if phase == signal.shown {
        signal.shown_for + seconds
    } else {
        seconds
    }
}

// The cycle clock after the step: it restarts at 0 when phase 1 begins again.
fn clock_after(signal: Signal, phase: u32, seconds: u32) -> u32
    requires ready { Ready signal }
    requires seconds_bound { seconds ≤ 60 }
    ensures { result ≡ clock_after signal phase seconds }
{
    if begins_cycle(signal, phase) {
        seconds
    } else {
        signal.cycle_clock + seconds
    }
}

// The tests of rules 11 to 14 take the signal by value, as the paper has the light. What they
// require of it, of the phase and of the seconds stays in each contract: a struct with these facts
// would replace the light.

// Rule 11 (C8): the phase is that of the step before or the next.
fn keeps_order(signal: Signal, phase: u32) -> bool
    requires { Ready signal }
    ensures { result ≡ keeps_order signal phase }
{
    (phase == signal.shown) | (phase == phase_after(signal.shown, signal.phases))
}

// Rule 12 (C14): a phase that is left has shown at least its least time.
fn keeps_least_time(signal: Signal, phase: u32) -> bool
    requires { Ready signal }
    ensures { result ≡ keeps_least_time signal phase }
{
    let place = place_of(signal.shown);
    (phase == signal.shown) | (signal.least[place] <= signal.shown_for)
}

// Rule 13 (C9 to C13): the seconds of a run, this step included, are at most the phase's greatest
// time.
fn keeps_greatest_time(signal: Signal, phase: u32, seconds: u32) -> bool
    requires ready { Ready signal }
    requires phase_bound { phase ≤ 8 }
    requires seconds_bound { seconds ≤ 60 }
    ensures { result ≡ keeps_greatest_time signal phase seconds }
{
    let place = place_of(phase);
    shown_for_after(signal, phase, seconds) <= signal.greatest[place]
}

// Rule 14 (C15, C16): phase 1 begins again after the least cycle at the earliest; after the step
// the clock is at most the greatest cycle.
fn keeps_cycle(signal: Signal, phase: u32, seconds: u32) -> bool
    requires ready { Ready signal }
    requires seconds_bound { seconds ≤ 60 }
    ensures { result ≡ keeps_cycle signal phase seconds }
{
    let in_time = !begins_cycle(signal, phase) | (signal.least_cycle <= signal.cycle_clock);
    in_time & (clock_after(signal, phase, seconds) <= signal.greatest_cycle)
}

// The signal after a step that shows a phase for so many seconds.
fn after(signal: Signal, phase: u32, seconds: u32) -> Signal
    requires ready { Ready signal }
    requires seconds_bound { seconds ≤ 60 }
    ensures { result ≡ after signal phase seconds }
{
    Signal {
        shown: phase,
        shown_for: shown_for_after(signal, phase, seconds),
        cycle_clock: clock_after(signal, phase, seconds),
        ..signal
    }
}

impl SignalRule {
    // Its number in the paper. A `match`, not discriminants: with these, a wrong program that gives
    // two variants one number would not compile, and so would test no proof.
    pub fn number(self) -> u32
        ensures { result ≡ signal_rule_number self }
    {
        match self {
            SignalRule::OnePhase => 10,
            SignalRule::TramPhase => 29,
            SignalRule::Order => 11,
            SignalRule::LeastTime => 12,
            SignalRule::GreatestTime => 13,
            SignalRule::Cycle => 14,
        }
    }

    // Whether it holds of a signal that shows a phase.
    pub fn holds(self, signal: Signal, phase: u32, asked: u32, seconds: u32) -> bool
        requires ready { Ready signal }
        requires phase_bound { phase ≤ 8 }
        requires seconds_bound { seconds ≤ 60 }
        ensures { result ≡ signal_test self signal phase asked seconds }
    {
        match self {
            SignalRule::OnePhase => 1 <= phase,
            SignalRule::TramPhase => (asked == 0) | (phase == asked),
            SignalRule::Order => (asked != 0) | keeps_order(signal, phase),
            SignalRule::LeastTime => (asked != 0) | keeps_least_time(signal, phase),
            SignalRule::GreatestTime => (asked != 0) | keeps_greatest_time(signal, phase, seconds),
            SignalRule::Cycle => (asked != 0) | keeps_cycle(signal, phase, seconds),
        }
    }
}

// Whether a signal that shows a phase keeps rules 10 to 14, as an ordinary step asks. Phase, asked
// and seconds are parameters here and below: a struct of them would be made for each signal.
fn keeps_ordinary_rules(signal: Signal, phase: u32, seconds: u32) -> bool
    requires ready { Ready signal }
    requires phase_bound { phase ≤ 8 }
    requires seconds_bound { seconds ≤ 60 }
    ensures { result ≡ keeps_ordinary_rules signal phase seconds }
{
    let ordered = keeps_order(signal, phase) & keeps_least_time(signal, phase);
    let timed = keeps_greatest_time(signal, phase, seconds) & keeps_cycle(signal, phase, seconds);
    (1 <= phase) & ordered & timed
}

// Whether a signal goes on with its phase, and neither the phase nor the cycle lasts too long. Then
// it keeps rules 10 to 14, as most signals do in most steps: without this test the largest plan
// took 3.7 % more instructions. The sums are written out: with rule 13's own test it took 1.2 %
// more, and rule 14's own test does more, since it also looks whether phase 1 begins again. The
// phase's greatest time stands beside the signal: found in the copy, it took 0.8 % more.
fn goes_on(signal: Signal, greatest: u32, phase: u32, seconds: u32) -> bool
    requires ready { Ready signal }
    requires of_phase { greatest ≡ greatest_time signal phase }
    requires seconds_bound { seconds ≤ 60 }
    ensures { result ≡ goes_on signal phase seconds }
{
    let goes = (1 <= phase) & (phase == signal.shown);
    let in_time = signal.shown_for + seconds <= greatest;
    goes & in_time & (signal.cycle_clock + seconds <= signal.greatest_cycle)
}

// Whether a signal keeps all six rules: 10 and 29 if a tram asks a phase of it, otherwise 10 to 14,
// with the short test first whether it goes on. It alone lends the signal: by value, the plan with
// trams in every step took 0.4 % more.
fn signal_keeps(signal: &Signal, phase: u32, asked: u32, seconds: u32) -> bool
    requires ready { Ready signal.now }
    requires phase_bound { phase ≤ 8 }
    requires seconds_bound { seconds ≤ 60 }
    ensures { result ≡ keeps_all signal.now phase asked seconds }
{
    if asked != 0 {
        return (1 <= phase) & (phase == asked);
    }
    let greatest = signal.greatest[place_of(phase)];
    goes_on(*signal, greatest, phase, seconds) || keeps_ordinary_rules(*signal, phase, seconds)
}

// Whether all signals keep the six rules, in one pass over them: if none is broken, the order of
// the rules doesn't matter. By index: three tables go together, which have room for eight signals.
pub fn keeps_signal_rules(
    signals: &[Signal],
    count: usize,
    phases: &[u32],
    asked: &[u32],
    seconds: u32,
) -> bool
    requires { SignalTables signals.now count phases.now asked.now seconds }
    ensures { result ≡ true → SignalRulesKept signals.now count phases.now asked.now seconds }
{
    (0..count).all(|r| signal_keeps(&signals[r], phases[r], asked[r], seconds))
}

// The phase that each signal's mask shows.
pub fn shown_phases(signals: &[Signal], count: usize, masks: &[u32], phases: &mut [u32])
    requires { (count ≤ max_signals) × (length signals.now ≡ max_signals) × (count ≤ length masks.now) × (length phases.old ≡ max_signals) }
    ensures { ShownPhases signals.now count masks.now phases.old phases.new }
{
    for (r, signal) in signals[..count].iter().enumerate() {
        phases[r] = phase_of(masks[r], signal.phases);
    }
}

// The masks by which each signal keeps its phase, in front of a line's numbers. Not inlined, for
// check_plan's speed (docs/MEASUREMENTS.md).
#[inline(never)]
pub fn hold_masks(signals: &[Signal], line: &mut [u32])
    requires few_signals { (length signals.now ≤ max_signals) × (length signals.now ≤ length line.old) }
    requires all_ready { AllReady signals.now (length signals.now) }
    ensures { HeldMasks signals.now (length signals.now) line.old line.new }
{
    for (i, signal) in signals.iter().enumerate() {
        line[i] = mask_of(signal.shown);
    }
}

// Steps the signals on, by a step that shows these phases. Where a tram asks a phase of a signal,
// its run and its clock stand still, and it goes on from the phase before the tram.
pub fn advance(signals: &mut [Signal], count: usize, phases: &[u32], asked: &[u32], seconds: u32)
    requires { AdvanceAsked signals.old count phases.now asked.now seconds }
    ensures { Advanced signals.old count phases.now asked.now seconds signals.new }
{
    for (r, signal) in signals[..count].iter_mut().enumerate() {
        if asked[r] == 0 {
            *signal = after(*signal, phases[r], seconds);
        }
    }
}

// The definitions of a network and a plan in two halves (T-14), and their theorem
// (specs/Splits.antt). In code only the lengths of the four texts.
#![tactic(auto)]

// The lengths of the four texts: the network and the plan of the first half, then of the second.
// Not a `Four<usize>`: the names say what they are.
#[derive(Clone, Copy, PartialEq, Eq)]
pub struct Lengths {
    pub network_1: usize,
    pub plan_1: usize,
    pub network_2: usize,
    pub plan_2: usize,
}

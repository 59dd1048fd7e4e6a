// A network given by its numbers: its lines, its text, and when they pass the checks. This crate
// has no code.
#![tactic(auto)]

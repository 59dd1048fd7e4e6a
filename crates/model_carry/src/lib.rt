// The definitions of carrying on from a boundary (T-09), and their theorem (specs/CarriesOn.antt).
// This crate has no code.
#![tactic(auto)]

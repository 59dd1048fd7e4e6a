// The definitions of fixed-time sheets (T-10): when a plan keeps a sheet, and what the two calls
// promise. This crate has no code.
#![tactic(auto)]

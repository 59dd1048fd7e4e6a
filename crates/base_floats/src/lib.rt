// Laws of 64-bit floats that the toolchain's own (lib.Ieee) lack: the order of all values, and sums
// that stay finite. No code.
#![tactic(auto)]

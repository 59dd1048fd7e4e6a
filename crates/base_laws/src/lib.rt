// Laws of lists by index, of sums and of tests: lists given by their value at each index, lists
// whose first values are replaced one by one, sums of the values at each index, and tests of every
// index. No code.
#![tactic(auto)]

// The greatest lengths of texts that pass or are written, as the header has them: theorems. No
// code.
#![tactic(auto)]

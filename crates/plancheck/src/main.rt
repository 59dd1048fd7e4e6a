// Checks the plan of `plan.tsv` on the network of `network.tsv`, both in the folder that it is run
// in.
#![tactic(auto)]

fn main(rt: HostRuntime) {
    plancheck_files::run(&rt, "network.tsv", "plan.tsv");
}

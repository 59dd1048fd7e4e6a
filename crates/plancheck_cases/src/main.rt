// Runs the program's function on stored folders: the cases c1 to c11 of the paper, c1 with a past,
// and files that are missing, not to be read, too long, or as long as can be.
#![tactic(auto)]

// Each case's name, its network's file and its plan's.
const CASES: [(&str, &str, &str); 23] = [
    ("c1", "c1/network.tsv", "c1/plan.tsv"),
    // every number padded to ten digits
    ("c1 padded", "c1_padded/network.tsv", "c1_padded/plan.tsv"),
    ("c2", "c2/network.tsv", "c2/plan.tsv"),
    ("c3", "c3/network.tsv", "c3/plan.tsv"),
    ("c4", "c4/network.tsv", "c4/plan.tsv"),
    ("c5", "c5/network.tsv", "c5/plan.tsv"),
    ("c6", "c6/network.tsv", "c6/plan.tsv"),
    ("c7", "c7/network.tsv", "c7/plan.tsv"),
    ("c8", "c8/network.tsv", "c8/plan.tsv"),
    // a capacity of 5000, and of 4999
    ("c9 5000", "c9_5000/network.tsv", "c9_5000/plan.tsv"),
    ("c9 4999", "c9_4999/network.tsv", "c9_4999/plan.tsv"),
    ("c10", "c10/network.tsv", "c10/plan.tsv"),
    ("c11", "c11/network.tsv", "c11/plan.tsv"),
    // c1 from its boundary 2 on: two steps are past, and the plan has the other two lines
    ("past", "past/network.tsv", "past/plan.tsv"),
    (
        "no network",
        "no_network/network.tsv",
        "no_network/plan.tsv",
    ),
    ("neither", "neither/network.tsv", "neither/plan.tsv"),
    (
        "network folder",
        "network_folder/network.tsv",
        "network_folder/plan.tsv",
    ),
    (
        "network longest",
        "network_longest/network.tsv",
        "network_longest/plan.tsv",
    ),
    (
        "network too long",
        "network_too_long/network.tsv",
        "network_too_long/plan.tsv",
    ),
    ("no plan", "no_plan/network.tsv", "no_plan/plan.tsv"),
    (
        "plan folder",
        "plan_folder/network.tsv",
        "plan_folder/plan.tsv",
    ),
    (
        "plan longest",
        "plan_longest/network.tsv",
        "plan_longest/plan.tsv",
    ),
    (
        "plan too long",
        "plan_too_long/network.tsv",
        "plan_too_long/plan.tsv",
    ),
];

// Prints each case's name, and then what the program prints of its two files. Nothing is done about
// an output that takes no more.
fn main(rt: HostRuntime) {
    for (name, network, plan) in CASES {
        let _ = rt.println(name);
        plancheck_files::run(&rt, network, plan);
    }
}

// The plan check: the call `check_plan`, and the judging of a plan on a network that has passed,
// for other calls.
#![tactic(auto)]

ghost use Rattle.std.specs.Prelude.{◌≡◌, length};
ghost use Rattle.text_reader.specs.Lines.{lines};
ghost use Rattle.text_reader.specs.Padding.{PaddingIgnored};
ghost use Rattle.model.specs.Hold.{plan_of, EmptyHolds};
ghost use Rattle.model.specs.Calls.{check_plan, ledger_after};
ghost use Rattle.model.specs.Guarantees.{Promises};
ghost use Rattle.network.specs.Loading.{StartLoaded};
ghost use Rattle.plan_check.specs.Plan.{PlanGot};

use base_search::{Reason, Refusal};
use model::Totals;
use network::{Room, Start};
use network_tables::{NetworkTables, row_start};

// Judges a plan on a network that has passed: the ledger's length, then the steps. `start` moves on
// with the steps. The four parameters are not a struct: two are read and two are written, and each
// caller has them apart. Their types do not say that the tables are loaded, since that speaks of
// the start too, which changes.
pub fn judge_loaded(
    plan: &[u8],
    tables: &NetworkTables,
    start: &mut Start,
    ledger: &mut [u32],
) -> Result<Totals, Refusal>
    requires { StartLoaded tables.now start.old }
    ensures { PlanGot tables.now.text.now plan.now ledger.old result ledger.new }
{
    let counts = tables.reading.counts;
    if ledger.len() < row_start(counts.steps + 1, counts.links) {
        return Err(Reason::Ledger.refusal(0, 0));
    }
    plan_steps::run_steps(plan, tables, start, ledger)
}

// Check a plan: refusals 1 to 6, 8 to 18, and 25 to 30. A refusal writes only row 0 and the rows of
// steps that had passed.
pub fn check_plan(network: &[u8], plan: &[u8], ledger: &mut [u32]) -> Result<Totals, Refusal>
    ensures value { result ≡ check_plan (lines network.now) (plan_of network.now plan.now) (length ledger.old) }
    ensures ledger_after { ledger.new ≡ ledger_after (lines network.now) (plan_of network.now plan.now) ledger.old }
    ensures promises { Promises (lines network.now) (plan_of network.now plan.now) ledger.old ledger.new result }
    ensures empty_holds { EmptyHolds network.now plan.now ledger.old ledger.new result }
    ensures padding_ignored { PaddingIgnored network.now (λ padded_network. PaddingIgnored plan.now (λ padded_plan. PlanGot padded_network padded_plan ledger.old result ledger.new)) }
{
    let mut start = Start::default();
    let mut room = Room::default();
    let tables = network::read_start(network, &mut start, &mut room)?;
    judge_loaded(plan, &tables, &mut start, ledger)
}

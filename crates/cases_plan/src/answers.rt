// What the library answers to a question, and whether that is what was stored.
ghost use Rattle.std.specs.Prelude.{◌≡◌};
ghost use Rattle.cases_plan.specs.Compare.{answer_to, ledger_to, second_ledger_to, buffer_to, reported_to, as_stored};

use crate::call::Call;
use crate::checksum::checksum;
use crate::outcome::Outcome;
use crate::stored::Reported;
use cases_files::agreement::agrees;

// The texts of a case; the second is a sheet or a second plan.
#[derive(Clone, Copy)]
pub struct Texts<'a> {
    pub network: &'a [u8],
    pub plan: &'a [u8],
    pub second: &'a [u8],
}

// A call, and the boundary and the link that it is asked of.
#[derive(Clone, Copy)]
pub struct Question {
    pub call: Call,
    pub boundary: u32,
    pub link: u32,
}

// What is asked of a case's texts, by its number from 0, and what is stored of the answer.
#[derive(Clone, Copy)]
pub struct Case {
    pub number: u32,
    pub question: Question,
    pub stored: Reported,
}

// What the library answers to a question, and the ledgers and the buffer that it leaves.
fn answer_to(
    texts: Texts<'_>,
    ledger: &mut [u32],
    second_ledger: &mut [u32],
    buffer: &mut [u8],
    question: Question,
) -> Outcome
    ensures value { result ≡ answer_to texts.entry ledger.old second_ledger.old buffer.old question }
    ensures ledger_after { ledger.new ≡ ledger_to texts.entry ledger.old question }
    ensures second_ledger_after { second_ledger.new ≡ second_ledger_to texts.entry ledger.old second_ledger.old question }
    ensures buffer_after { buffer.new ≡ buffer_to texts.entry ledger.old buffer.old question }
{
    let Texts {
        network,
        plan,
        second,
    } = texts;
    let Question { boundary, link, .. } = question;
    match question.call {
        Call::CheckNetwork => network::check_network(network).into(),
        Call::CheckPlan => plan_check::check_plan(network, plan, ledger).into(),
        Call::LinkState => plan_link_state::link_state(network, ledger, boundary, link).into(),
        Call::PlanFromListing => listing_call::plan_from_listing(network, plan, buffer).into(),
        Call::CarryOn => carry::carry_on(network, boundary, plan, ledger, buffer).into(),
        Call::CheckSheet => sheet_check::check_sheet(network, plan, second, ledger).into(),
        Call::PlanFromSheet => sheet_writer::plan_from_sheet(network, plan, buffer).into(),
        Call::ComparePlans => {
            plan_compare::compare_plans(network, plan, second, ledger, second_ledger).into()
        }
    }
}

// Judges a case by the library, with the ledgers and the buffer as they are before the call:
// whether the answer, and the checksum of what the call leaves, are those of the other
// implementation. If not, the case is printed.
pub fn judge(
    rt: &impl Print,
    texts: Texts<'_>,
    case: Case,
    ledger: &mut [u32],
    second_ledger: &mut [u32],
    buffer: &mut [u8],
) -> bool
    ensures { result ≡ as_stored (reported_to texts.entry ledger.old second_ledger.old buffer.old case.question) case.stored }
{
    let outcome = answer_to(texts, ledger, second_ledger, buffer, case.question);
    let given = Reported {
        outcome,
        checksum: checksum(ledger, second_ledger, buffer),
    };
    agrees(rt, case.number, &given, &case.stored, true)
}

// The C library: the calls over slices, each a pointer and a length, with answers by value.
// include/plancheck.h declares them. Each answer is a flat struct that begins with the same three
// numbers, as C has it, so that each conversion copies those of a refusal by itself.
#![tactic(auto)]

ghost use Rattle.std.specs.Prelude.{◌≡◌, length};
ghost use Rattle.base_search.specs.Checks.{◌then◌};
ghost use Rattle.text_reader.specs.Lines.{lines};
ghost use Rattle.text_reader.specs.Padding.{PaddingIgnored};
ghost use Rattle.model.specs.Table.{network_checks, plan_checks};
ghost use Rattle.model.specs.Hold.{plan_of, EmptyHolds};
ghost use Rattle.model.specs.Calls.{check_network, check_plan, ledger_after, state_checks, link_state};
ghost use Rattle.model.specs.Guarantees.{network_numbers, state_numbers, plan_numbers, Promises};
ghost use Rattle.traces.specs.Call.{step_checks, vehicles_numbers, step_vehicles, places_after};
ghost use Rattle.traces.specs.Guarantees.{StepKeeps};
ghost use Rattle.cells_lines.specs.Corridor.{corridor_checks};
ghost use Rattle.cells_call.specs.Call.{cells_numbers, run_cells, volumes_in, final_volumes, RunKeeps};
ghost use Rattle.listing_lines.specs.Entry.{entries};
ghost use Rattle.listing_call.specs.Listing as Listing;
ghost use Rattle.listing_call.specs.Listing.{listing_numbers, plan_from_listing};
ghost use Rattle.listing_call.specs.ReadsBack.{PlanGot};
ghost use Rattle.network.specs.Counting.{count_network};
ghost use Rattle.model_carry.specs.Call.{planned_on, carry_numbers, carry_checks, carry_on};
ghost use Rattle.model_carry.specs.CarriesOn.{CarriedOn};
ghost use Rattle.carry.specs.Carrying.{CarryGot};
ghost use Rattle.model_sheet.specs.Cycle.{write_checks};
ghost use Rattle.model_sheet.specs.Calls.{sheet_numbers, sheet_plan_numbers, keep_checks, check_sheet, plan_from_sheet};
ghost use Rattle.model_sheet.specs.Promises.{SheetPromises, WritePromises};
ghost use Rattle.plan_compare.specs.Comparison.{compare_plans, second_ledger_after};
ghost use Rattle.plan_compare.specs.Promises.{ComparisonPromises, ComparisonGot};
ghost use Rattle.model_split.specs.Call.{split_numbers, split_checks, split_network};
ghost use Rattle.model_split.specs.Splits.{SplitInTwo, room_of};
ghost use Rattle.split.specs.Splitting.{texts, buffers, SplitGot};
ghost use Rattle.plancheck_c.specs.Results.{NumberTells, verdict_result, verdict_of, counts_result, version, plan_result, plan_answer_of, link_result, text_result, text_answer_of, comparison_result, comparison_answer_of, split_result, split_answer_of, cells_result, cells_answer_of};

use base_search::Refusal;
use cells_call::CellsRun;
use cells_steps::MAX_CELLS;
use model::{LinkState, Totals};
use model_split::Lengths;
use plan_compare::{Comparison, ComparisonRefusal};

// The answer of a network's check or of a step of vehicles; number 0: the network is valid, the
// vehicles have moved.
#[repr(C)]
#[derive(Clone, Copy, Default)]
pub struct NetworkResult {
    pub number: u32,
    pub line: u32,
    pub item: u32,
}

impl From<Result<(), Refusal>> for NetworkResult {
    ghost from_gives = { λ answer told. told ≡ verdict_result answer };

    fn from(answer: Result<(), Refusal>) -> NetworkResult {
        match answer {
            Ok(()) => NetworkResult::default(),
            Err(refusal) => NetworkResult {
                number: refusal.number,
                line: refusal.line,
                item: refusal.item,
            },
        }
    }
}

// What a network has; number 0: it is valid, with these counts.
#[repr(C)]
#[derive(Clone, Copy)]
pub struct CountsResult {
    pub number: u32,
    pub line: u32,
    pub item: u32,
    pub links: u32,
    pub signals: u32,
    pub movements: u32,
    pub steps: u32,
    pub trams: u32,
    pub past: u32,
}

// The version of the calls, of their answers and of the texts.
#[repr(C)]
#[derive(Clone, Copy)]
pub struct VersionResult {
    pub major: u32,
    pub minor: u32,
    pub patch: u32,
}

// The answer of a plan's check; number 0: the plan is accepted, with these totals.
#[repr(C)]
#[derive(Clone, Copy, Default)]
pub struct PlanResult {
    pub number: u32,
    pub line: u32,
    pub item: u32,
    pub admitted: u64,
    pub let_out: u64,
    pub inside: u64,
    pub doubled_time: u64,
}

impl From<Result<Totals, Refusal>> for PlanResult {
    ghost from_gives = { λ answer told. told ≡ plan_result answer };

    fn from(answer: Result<Totals, Refusal>) -> PlanResult {
        match answer {
            Ok(totals) => PlanResult {
                admitted: totals.admitted,
                let_out: totals.let_out,
                inside: totals.inside,
                doubled_time: totals.doubled_time,
                ..PlanResult::default()
            },
            Err(r) => PlanResult {
                number: r.number,
                line: r.line,
                item: r.item,
                ..PlanResult::default()
            },
        }
    }
}

// The state of a link; number 0: the link holds these volumes.
#[repr(C)]
#[derive(Clone, Copy, Default)]
pub struct LinkResult {
    pub number: u32,
    pub line: u32,
    pub item: u32,
    pub queued: u32,
    pub in_transit: u32,
}

impl From<Result<LinkState, Refusal>> for LinkResult {
    ghost from_gives = { λ answer told. told ≡ link_result answer };

    fn from(answer: Result<LinkState, Refusal>) -> LinkResult {
        match answer {
            Ok(state) => LinkResult {
                queued: state.queued,
                in_transit: state.in_transit,
                ..LinkResult::default()
            },
            Err(r) => LinkResult {
                number: r.number,
                line: r.line,
                item: r.item,
                ..LinkResult::default()
            },
        }
    }
}

// The answer of a call that writes a text; number 0: it is written, so many bytes.
#[repr(C)]
#[derive(Clone, Copy, Default)]
pub struct TextResult {
    pub number: u32,
    pub line: u32,
    pub item: u32,
    pub length: usize,
}

impl From<Result<usize, Refusal>> for TextResult {
    ghost from_gives = { λ answer told. told ≡ text_result answer };

    fn from(answer: Result<usize, Refusal>) -> TextResult {
        match answer {
            Ok(length) => TextResult {
                length,
                ..TextResult::default()
            },
            Err(r) => TextResult {
                number: r.number,
                line: r.line,
                item: r.item,
                ..TextResult::default()
            },
        }
    }
}

// The answer of a run of cells; number 0: so many cells, these totals, and the volumes after the
// last step, 0 past the cells.
#[repr(C)]
#[derive(Clone, Copy, Default)]
pub struct CellsResult {
    pub number: u32,
    pub line: u32,
    pub item: u32,
    pub cells: u32,
    pub flow_in: u64,
    pub flow_out: u64,
    pub volumes: [u32; MAX_CELLS],
}

impl From<Result<CellsRun, Refusal>> for CellsResult {
    ghost from_gives = { λ answer told. told ≡ cells_result answer (volumes_in answer) };

    fn from(answer: Result<CellsRun, Refusal>) -> CellsResult {
        match answer {
            Ok(run) => {
                // A variable of its own: the prover does not take an array directly out of another
                // struct.
                let volumes = run.volumes;
                CellsResult {
                    cells: run.cells,
                    flow_in: run.flow_in,
                    flow_out: run.flow_out,
                    volumes,
                    ..CellsResult::default()
                }
            }
            Err(r) => CellsResult {
                number: r.number,
                line: r.line,
                item: r.item,
                volumes: [0; MAX_CELLS],
                ..CellsResult::default()
            },
        }
    }
}

// The answer of a comparison of two plans; number 0: both are accepted, the first is ahead (order
// 1), behind (2), equal (3) or crossing (4), and `gap` is its doubled time minus the second's.
// Otherwise `plan` is the plan that is refused, 0 for the network.
#[repr(C)]
#[derive(Clone, Copy, Default)]
pub struct ComparisonResult {
    pub number: u32,
    pub line: u32,
    pub item: u32,
    pub plan: u32,
    pub order: u32,
    pub gap: i64,
}

impl From<Result<Comparison, ComparisonRefusal>> for ComparisonResult {
    ghost from_gives = { λ answer told. told ≡ comparison_result answer };

    fn from(answer: Result<Comparison, ComparisonRefusal>) -> ComparisonResult {
        match answer {
            Ok(comparison) => ComparisonResult {
                order: comparison.order.number(),
                gap: comparison.gap,
                ..ComparisonResult::default()
            },
            Err(refused) => {
                let r = refused.refusal();
                ComparisonResult {
                    number: r.number,
                    line: r.line,
                    item: r.item,
                    plan: refused.plan(),
                    ..ComparisonResult::default()
                }
            }
        }
    }
}

// The answer of a split; number 0: the four texts are written, so many bytes each.
#[repr(C)]
#[derive(Clone, Copy, Default)]
pub struct SplitResult {
    pub number: u32,
    pub line: u32,
    pub item: u32,
    pub network_1: usize,
    pub plan_1: usize,
    pub network_2: usize,
    pub plan_2: usize,
}

impl From<Result<Lengths, Refusal>> for SplitResult {
    ghost from_gives = { λ answer told. told ≡ split_result answer };

    fn from(answer: Result<Lengths, Refusal>) -> SplitResult {
        match answer {
            Ok(lengths) => SplitResult {
                network_1: lengths.network_1,
                plan_1: lengths.plan_1,
                network_2: lengths.network_2,
                plan_2: lengths.plan_2,
                ..SplitResult::default()
            },
            Err(r) => SplitResult {
                number: r.number,
                line: r.line,
                item: r.item,
                ..SplitResult::default()
            },
        }
    }
}

#[unsafe(no_mangle)]
pub extern "C" fn plancheck_check_network(network: &[u8]) -> NetworkResult
    ensures value { result ≡ verdict_result (check_network (lines network.now)) }
    ensures number_tells { NumberTells (network_checks (lines network.now)) network_numbers result.number }
    ensures padding_ignored { PaddingIgnored network.now (λ padded. result ≡ verdict_result (check_network (lines padded))) }
{
    network::check_network(network).into()
}

#[unsafe(no_mangle)]
pub extern "C" fn plancheck_network_counts(network: &[u8]) -> CountsResult
    ensures value { result ≡ counts_result (count_network (lines network.now)) }
    ensures number_tells { NumberTells (network_checks (lines network.now)) network_numbers result.number }
    ensures padding_ignored { PaddingIgnored network.now (λ padded. result ≡ counts_result (count_network (lines padded))) }
{
    // Not a `From`: that can have no precondition on the counts, which fit by the promise of
    // `count_network`. Not `..CountsResult::default()` either: the proof of the two returns needs
    // whole literals.
    match network::count_network(network) {
        Ok(counts) => CountsResult {
            number: 0,
            line: 0,
            item: 0,
            links: counts.links as u32,
            signals: counts.signals as u32,
            movements: counts.movements as u32,
            steps: counts.steps as u32,
            trams: counts.trams as u32,
            past: counts.past as u32,
        },
        Err(r) => CountsResult {
            number: r.number,
            line: r.line,
            item: r.item,
            links: 0,
            signals: 0,
            movements: 0,
            steps: 0,
            trams: 0,
            past: 0,
        },
    }
}

#[unsafe(no_mangle)]
pub extern "C" fn plancheck_version() -> VersionResult
    ensures { result ≡ version }
{
    VersionResult {
        major: 1,
        minor: 0,
        patch: 0,
    }
}

#[unsafe(no_mangle)]
pub extern "C" fn plancheck_check_plan(
    network: &[u8],
    plan: &[u8],
    ledger: &mut [u32],
) -> PlanResult
    ensures value { result ≡ plan_result (check_plan (lines network.now) (plan_of network.now plan.now) (length ledger.old)) }
    ensures ledger_after { ledger.new ≡ ledger_after (lines network.now) (plan_of network.now plan.now) ledger.old }
    ensures promises { Promises (lines network.now) (plan_of network.now plan.now) ledger.old ledger.new (plan_answer_of result) }
    ensures empty_holds { EmptyHolds network.now plan.now ledger.old ledger.new (plan_answer_of result) }
    ensures number_tells { NumberTells (plan_checks (lines network.now) (plan_of network.now plan.now) (length ledger.old)) plan_numbers result.number }
    ensures padding_ignored { PaddingIgnored network.now (λ padded_network. PaddingIgnored plan.now (λ padded_plan. (result ≡ plan_result (check_plan (lines padded_network) (plan_of padded_network padded_plan) (length ledger.old))) × (ledger.new ≡ ledger_after (lines padded_network) (plan_of padded_network padded_plan) ledger.old))) }
{
    plan_check::check_plan(network, plan, ledger).into()
}

#[unsafe(no_mangle)]
pub extern "C" fn plancheck_check_sheet(
    network: &[u8],
    plan: &[u8],
    sheet: &[u8],
    ledger: &mut [u32],
) -> PlanResult
    ensures value { result ≡ plan_result (check_sheet (lines network.now) (lines sheet.now) (plan_of network.now plan.now) (length ledger.old)) }
    ensures sheet_promises { SheetPromises (lines network.now) (lines sheet.now) (plan_of network.now plan.now) ledger.old ledger.new (plan_answer_of result) }
    ensures number_tells { NumberTells (keep_checks (lines network.now) (lines sheet.now) (plan_of network.now plan.now) (length ledger.old)) sheet_numbers result.number }
    ensures padding_ignored { PaddingIgnored network.now (λ padded_network. PaddingIgnored plan.now (λ padded_plan. PaddingIgnored sheet.now (λ padded_sheet. SheetPromises (lines padded_network) (lines padded_sheet) (plan_of padded_network padded_plan) ledger.old ledger.new (plan_answer_of result)))) }
{
    sheet_check::check_sheet(network, plan, sheet, ledger).into()
}

#[unsafe(no_mangle)]
pub extern "C" fn plancheck_plan_from_sheet(
    network: &[u8],
    sheet: &[u8],
    plan: &mut [u8],
) -> TextResult
    ensures value { result ≡ text_result (plan_from_sheet (lines network.now) (lines sheet.now) (length plan.old)) }
    ensures write_promises { WritePromises (lines network.now) (lines sheet.now) plan.old (text_answer_of result) plan.new }
    ensures number_tells { NumberTells (write_checks (lines network.now) (lines sheet.now) (length plan.old)) sheet_plan_numbers result.number }
    ensures padding_ignored { PaddingIgnored network.now (λ padded_network. PaddingIgnored sheet.now (λ padded_sheet. WritePromises (lines padded_network) (lines padded_sheet) plan.old (text_answer_of result) plan.new)) }
{
    sheet_writer::plan_from_sheet(network, sheet, plan).into()
}

#[unsafe(no_mangle)]
pub extern "C" fn plancheck_link_state(
    network: &[u8],
    ledger: &[u32],
    boundary: u32,
    link: u32,
) -> LinkResult
    ensures value { result ≡ link_result (link_state (lines network.now) ledger.now boundary link) }
    ensures number_tells { NumberTells (state_checks (lines network.now) ledger.now boundary link) state_numbers result.number }
    ensures padding_ignored { PaddingIgnored network.now (λ padded. result ≡ link_result (link_state (lines padded) ledger.now boundary link)) }
{
    plan_link_state::link_state(network, ledger, boundary, link).into()
}

#[unsafe(no_mangle)]
pub extern "C" fn plancheck_plan_from_listing(
    network: &[u8],
    listing: &[u8],
    plan: &mut [u8],
) -> TextResult
    ensures value { result ≡ text_result (plan_from_listing (lines network.now) (entries listing.now) (length plan.old)) }
    ensures plan_got { PlanGot (lines network.now) (entries listing.now) plan.old (text_answer_of result) plan.new }
    ensures number_tells { NumberTells (Listing.write_checks (lines network.now) (entries listing.now) (length plan.old)) listing_numbers result.number }
    ensures padding_ignored { PaddingIgnored network.now (λ padded. PlanGot (lines padded) (entries listing.now) plan.old (text_answer_of result) plan.new) }
{
    listing_call::plan_from_listing(network, listing, plan).into()
}

#[unsafe(no_mangle)]
pub extern "C" fn plancheck_carry_on(
    network: &[u8],
    boundary: u32,
    plan: &[u8],
    ledger: &mut [u32],
    carried: &mut [u8],
) -> TextResult
    ensures value { result ≡ text_result (carry_on (lines network.now) (planned_on (lines network.now) boundary plan.now) boundary (length ledger.old) (length carried.old)) }
    ensures carried_on { CarriedOn (lines network.now) (planned_on (lines network.now) boundary plan.now) boundary ledger.old ledger.new carried.old carried.new (text_answer_of result) }
    ensures number_tells { NumberTells (carry_checks (lines network.now) (planned_on (lines network.now) boundary plan.now) boundary (length ledger.old) (length carried.old)) carry_numbers result.number }
    ensures padding_ignored { PaddingIgnored network.now (λ padded_network. PaddingIgnored plan.now (λ padded_plan. CarryGot padded_network padded_plan boundary ledger.old ledger.new carried.old carried.new (text_answer_of result))) }
{
    carry::carry_on(network, boundary, plan, ledger, carried).into()
}

#[unsafe(no_mangle)]
pub extern "C" fn plancheck_compare_plans(
    network: &[u8],
    first: &[u8],
    second: &[u8],
    first_ledger: &mut [u32],
    second_ledger: &mut [u32],
) -> ComparisonResult
    ensures value { result ≡ comparison_result (compare_plans (lines network.now) (plan_of network.now first.now) (plan_of network.now second.now) (length first_ledger.old) (length second_ledger.old)) }
    ensures first_ledger_after { first_ledger.new ≡ ledger_after (lines network.now) (plan_of network.now first.now) first_ledger.old }
    ensures second_ledger_after { second_ledger.new ≡ second_ledger_after (lines network.now) (plan_of network.now first.now) (plan_of network.now second.now) (length first_ledger.old) second_ledger.old }
    ensures comparison_promises { ComparisonPromises (lines network.now) (plan_of network.now first.now) (plan_of network.now second.now) (length first_ledger.old) (length second_ledger.old) (comparison_answer_of result) }
    ensures number_tells { NumberTells (plan_checks (lines network.now) (plan_of network.now first.now) (length first_ledger.old) then plan_checks (lines network.now) (plan_of network.now second.now) (length second_ledger.old)) plan_numbers result.number }
    ensures padding_ignored { PaddingIgnored network.now (λ padded_network. PaddingIgnored first.now (λ padded_first. PaddingIgnored second.now (λ padded_second. ComparisonGot padded_network padded_first padded_second first_ledger.old second_ledger.old (comparison_answer_of result) first_ledger.new second_ledger.new))) }
{
    plan_compare::compare_plans(network, first, second, first_ledger, second_ledger).into()
}

#[unsafe(no_mangle)]
pub extern "C" fn plancheck_split(
    network: &[u8],
    plan: &[u8],
    first_half: u32,
    network_1: &mut [u8],
    plan_1: &mut [u8],
    network_2: &mut [u8],
    plan_2: &mut [u8],
) -> SplitResult
    ensures value { result ≡ split_result (split_network (lines network.now) (plan_of network.now plan.now) first_half (room_of (buffers network_1.old plan_1.old network_2.old plan_2.old))) }
    ensures split_in_two { SplitInTwo (texts network.now plan.now) first_half (buffers network_1.old plan_1.old network_2.old plan_2.old) (buffers network_1.new plan_1.new network_2.new plan_2.new) (split_answer_of result) }
    ensures number_tells { NumberTells (split_checks (lines network.now) (plan_of network.now plan.now) first_half (room_of (buffers network_1.old plan_1.old network_2.old plan_2.old))) split_numbers result.number }
    ensures padding_ignored { PaddingIgnored network.now (λ padded_network. PaddingIgnored plan.now (λ padded_plan. SplitGot padded_network padded_plan first_half (buffers network_1.old plan_1.old network_2.old plan_2.old) (buffers network_1.new plan_1.new network_2.new plan_2.new) (split_answer_of result))) }
{
    split::split(
        network, plan, first_half, network_1, plan_1, network_2, plan_2,
    )
    .into()
}

#[unsafe(no_mangle)]
pub extern "C" fn plancheck_step_vehicles(
    places: &mut [f64],
    advances: &[f64],
    red_lines: &[f64],
    spacing: f64,
) -> NetworkResult
    ensures value { result ≡ verdict_result (step_vehicles places.old advances.now red_lines.now spacing) }
    ensures places_after { places.new ≡ places_after places.old advances.now red_lines.now spacing }
    ensures step_keeps { StepKeeps places.old advances.now red_lines.now spacing (verdict_of result) places.new }
    ensures number_tells { NumberTells (step_checks places.old advances.now red_lines.now spacing) vehicles_numbers result.number }
{
    traces::step_vehicles(places, advances, red_lines, spacing).into()
}

#[unsafe(no_mangle)]
pub extern "C" fn plancheck_run_cells(corridor: &[u8]) -> CellsResult
    ensures value { result ≡ cells_result (run_cells (lines corridor.now)) (final_volumes (lines corridor.now)) }
    ensures run_keeps { RunKeeps (lines corridor.now) (cells_answer_of result) }
    ensures number_tells { NumberTells (corridor_checks (lines corridor.now)) cells_numbers result.number }
    ensures padding_ignored { PaddingIgnored corridor.now (λ padded. result ≡ cells_result (run_cells (lines padded)) (final_volumes (lines padded))) }
{
    cells_call::run_cells(corridor).into()
}

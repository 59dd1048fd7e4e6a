// Runs a corridor in cells (T-12): the call `run_cells`.
#![tactic(auto)]

ghost use Rattle.std.specs.Prelude.{◌≡◌, IfOk};
ghost use Rattle.text_reader.specs.Lines.{lines};
ghost use Rattle.text_reader.specs.Padding.{PaddingIgnored};
ghost use Rattle.cells_call.specs.Call.{run_cells, final_volumes, RunKeeps};

use base_search::Refusal;
use cells_steps::{Cell, MAX_CELLS, MAX_DEMANDS};

// What a run gives: how many cells there are, the total flow in and out, and the final volumes, 0
// past the cells.
#[derive(Clone, Copy)]
pub struct CellsRun {
    pub cells: u32,
    pub flow_in: u64,
    pub flow_out: u64,
    pub volumes: [u32; MAX_CELLS],
}

// Runs the steps of a corridor text, one for each demand.
pub fn run_cells(text: &[u8]) -> Result<CellsRun, Refusal>
    ensures answer_value { result ≡ run_cells (lines text.now) }
    ensures volumes_value { IfOk result (λ run. run.volumes ≡ final_volumes (lines text.now)) }
    ensures run_keeps { RunKeeps (lines text.now) result }
    ensures padding_ignored { PaddingIgnored text.now (λ padded. result ≡ run_cells (lines padded)) }
{
    let mut cells = [Cell::default(); MAX_CELLS];
    let mut volumes = [0u32; MAX_CELLS];
    let mut demands = [0u32; MAX_DEMANDS];
    let corridor = cells_lines::load_corridor(text, &mut cells, &mut volumes, &mut demands)?;
    let passed = cells_steps::run_steps(
        &cells[..corridor.cells],
        corridor.exit,
        &demands[..corridor.steps],
        &mut volumes[..corridor.cells],
    );
    Ok(CellsRun {
        cells: corridor.cells as u32,
        flow_in: passed.flow_in,
        flow_out: passed.flow_out,
        volumes,
    })
}

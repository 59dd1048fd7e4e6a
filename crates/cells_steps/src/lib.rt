// The steps of a chain of cells over lent volumes (T-12). All flows of a step use the volumes
// before it.
#![tactic(auto)]

ghost use Rattle.std.specs.Prelude.{◌≡◌, ◌≤◌, length};
ghost use Rattle.cells_steps.specs.Steps.{chain_of, inflow, Ready};
ghost use Rattle.cells_steps.specs.Results.{Stepped, Ran};

pub const MAX_CELLS: usize = 64;

pub const MAX_DEMANDS: usize = 120;

// The limits of a cell. Its wave ratio is in thousandths.
#[derive(Clone, Copy, Default)]
pub struct Cell {
    pub flow_limit: u32,
    pub holding_limit: u32,
    pub wave_ratio: u32,
}

impl Cell {
    // What flows into the cell if it holds `volume` and `waiting` waits before it.
    fn inflow(self, waiting: u32, volume: u32) -> u32
        requires volume_bound { volume ≤ self.holding_limit }
        requires ratio_bound { self.wave_ratio ≤ 1000 }
        ensures { result ≡ inflow self waiting volume }
    {
        // The product needs 64 bits.
        let room = u64::from(self.wave_ratio) * u64::from(self.holding_limit - volume) / 1000;
        waiting.min(self.flow_limit).min(room as u32)
    }
}

// What flows into the first cell and out of the last.
#[derive(Clone, Copy)]
pub struct Passed<T> {
    pub flow_in: T,
    pub flow_out: T,
}

// One step, cell by cell. The flow out of a cell depends on its volume before the step, not on what
// has just entered it; it enters the next cell, or leaves by the exit.
fn step_cells(cells: &[Cell], exit: u32, demand: u32, volumes: &mut [u32]) -> Passed<u32>
    requires { Ready (chain_of cells.now exit) volumes.old }
    ensures { Stepped (chain_of cells.now exit) demand volumes.old result volumes.new }
{
    let first = cells[0].inflow(demand, volumes[0]);
    let mut entering = first;
    // By index: a turn reads the volume of the next cell, and writes that of its own.
    for i in 0..volumes.len() {
        let before = volumes[i];
        let filled = before + entering;
        let next = i + 1;
        let leaving = if next < cells.len() {
            cells[next].inflow(before, volumes[next])
        } else {
            before.min(exit)
        };
        volumes[i] = filled - leaving;
        entering = leaving;
    }
    Passed {
        flow_in: first,
        flow_out: entering,
    }
}

// A list of steps, one for each demand.
pub fn run_steps(cells: &[Cell], exit: u32, demands: &[u32], volumes: &mut [u32]) -> Passed<u64>
    requires ready { Ready (chain_of cells.now exit) volumes.old }
    requires demands_len_bound { length demands.now ≤ MAX_DEMANDS }
    ensures { Ran (chain_of cells.now exit) demands.now volumes.old result volumes.new }
{
    let mut total = Passed {
        flow_in: 0,
        flow_out: 0,
    };
    for demand in demands {
        let step = step_cells(cells, exit, *demand, volumes);
        total.flow_in += u64::from(step.flow_in);
        total.flow_out += u64::from(step.flow_out);
    }
    total
}

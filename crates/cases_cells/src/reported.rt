// The answer of a run in the stored form, which is described in
// reference/src/cases/corridor_file.rs.
ghost use Rattle.std.specs.Prelude.{◌≡◌, IfOk};
ghost use Rattle.std.specs.Io.KnownBytes.{Consumes};
ghost use Rattle.cells_call.specs.Call.{volumes_in};
ghost use Rattle.cases_cells.specs.Reported.{reported_of, reported_bytes};

use base_search::Refusal;
use cases_files::reading::{Malformed, read_array, read_u32, read_u64};
use cases_files::refusals::{Columns, read_refusal};
use cells_call::CellsRun;
use cells_steps::MAX_CELLS;
use std::fmt;
use std::fmt::Display;
use std::io::Read;

// The numbers of a run that are stored and printed: how many cells, flow in and flow out.
#[derive(Clone, Copy, PartialEq, Default)]
pub struct Flows {
    pub cells: u32,
    pub flow_in: u64,
    pub flow_out: u64,
}

// The answer without the volumes. No `Result`: a file may give a refusal flows too, and such a case
// must differ.
#[derive(Clone, Copy, PartialEq)]
pub struct Reported {
    pub refusal: Option<Refusal>,
    pub flows: Flows,
}

// Each number behind a tab, those of a refusal first; 0 where there is none.
impl Display for Reported {
    fn fmt<W: fmt::Write>(&self, f: &mut fmt::Formatter<W>) -> fmt::Result {
        let Flows {
            cells,
            flow_in,
            flow_out,
        } = self.flows;
        write!(f, "{}", Columns(self.refusal))?;
        write!(f, "\t{cells}\t{flow_in}\t{flow_out}")
    }
}

// The library's answer in this form; the flows of a refusal are 0.
impl From<Result<CellsRun, Refusal>> for Reported {
    ghost from_gives = { λ answer reported. reported ≡ reported_of answer };

    fn from(answer: Result<CellsRun, Refusal>) -> Reported {
        match answer {
            Ok(run) => Reported {
                refusal: None,
                flows: Flows {
                    cells: run.cells,
                    flow_in: run.flow_in,
                    flow_out: run.flow_out,
                },
            },
            Err(refusal) => Reported {
                refusal: Some(refusal),
                flows: Flows::default(),
            },
        }
    }
}

// The volumes of an answer; all 0 if it is a refusal.
pub fn volumes_in(answer: Result<CellsRun, Refusal>) -> [u32; MAX_CELLS]
    ensures { result ≡ volumes_in answer }
{
    match answer {
        Ok(run) => run.volumes,
        Err(_) => [0; MAX_CELLS],
    }
}

// Reads the stored answer, the flows of a refusal too.
pub fn read_reported<R: Read>(file: &mut R) -> Result<Reported, Malformed>
    ensures { IfOk result (λ reported. Consumes (R.remaining file.old) (R.remaining file.new) (reported_bytes reported)) }
{
    let bytes = read_array::<_, 32>(file)?;
    let mut numbers = bytes.as_slice();
    Ok(Reported {
        refusal: read_refusal(&mut numbers)?,
        flows: Flows {
            cells: read_u32(&mut numbers)?,
            flow_in: read_u64(&mut numbers)?,
            flow_out: read_u64(&mut numbers)?,
        },
    })
}

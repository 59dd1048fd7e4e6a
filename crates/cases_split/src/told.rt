// The answer of a split and its four texts in the stored form, which is described in
// reference/src/cases/split_file.rs.
ghost use Rattle.std.specs.Prelude.{◌≡◌, IfOk};
ghost use Rattle.std.specs.Io.KnownBytes.{Consumes};
ghost use Rattle.split.specs.Splitting.{buffers};
ghost use Rattle.cases_split.specs.Told.{lengths_of, left_as_told, lengths_bytes};

use base_search::Refusal;
use cases_files::reading::{Malformed, read_u32};
use model_split::Lengths;
use std::io::Read;

// The texts of the network and the plan that are split.
#[derive(Clone, Copy)]
pub struct Texts<'a> {
    pub network: &'a [u8],
    pub plan: &'a [u8],
}

// What was stored of a split, by its number from 0: the set of links, the refusal, and how long the
// texts are. No `Result`: a file may give a refused split texts too, and such a split must differ.
#[derive(Clone, Copy)]
pub struct Stored {
    pub number: u32,
    pub first_half: u32,
    pub refusal: Option<Refusal>,
    pub lengths: Lengths,
}

// The four buffers after a split, or what was stored of them, a room for each. `Lengths` is a type
// of its own: the names say more than one `Four<T>` would.
#[derive(Clone, Copy)]
pub struct Buffers<'a> {
    pub network_1: &'a [u8],
    pub plan_1: &'a [u8],
    pub network_2: &'a [u8],
    pub plan_2: &'a [u8],
}

// How long the texts are that were written; 0 if the call is refused.
pub fn lengths_of(answer: Result<Lengths, Refusal>) -> Lengths
    ensures { result ≡ lengths_of answer }
{
    match answer {
        Ok(lengths) => lengths,
        Err(_) => Lengths {
            network_1: 0,
            plan_1: 0,
            network_2: 0,
            plan_2: 0,
        },
    }
}

// Whether each buffer holds what was stored of it, and is no longer than the room of that.
pub fn are_as_told(left: Buffers<'_>, told: Buffers<'_>) -> bool
    ensures { result ≡ left_as_told (buffers left.entry.network_1.now left.entry.plan_1.now left.entry.network_2.now left.entry.plan_2.now) (buffers told.entry.network_1.now told.entry.plan_1.now told.entry.network_2.now told.entry.plan_2.now) }
{
    told.network_1.starts_with(left.network_1)
        && told.plan_1.starts_with(left.plan_1)
        && told.network_2.starts_with(left.network_2)
        && told.plan_2.starts_with(left.plan_2)
}

// The lengths of the buffers of a case.
pub fn read_lengths<R: Read>(file: &mut R) -> Result<Lengths, Malformed>
    ensures { IfOk result (λ lengths. Consumes (R.remaining file.old) (R.remaining file.new) (lengths_bytes lengths)) }
{
    Ok(Lengths {
        network_1: read_u32(file)? as usize,
        plan_1: read_u32(file)? as usize,
        network_2: read_u32(file)? as usize,
        plan_2: read_u32(file)? as usize,
    })
}

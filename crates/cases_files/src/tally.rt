// Counts the cases by their answers.
ghost use Rattle.std.specs.Prelude.{◌≡◌, ◌+◌, ◌%◌, ◌^◌, ◌<◌, ◌≤◌, length, slice_index, slice_set, ◌==◌};
ghost use Rattle.std.specs.List.{position_or_len};
ghost use Rattle.cases_files.specs.Tally.{place_of};

use base_search::Refusal;

// Counts one case. There are fewer than 2^32 cases, so no count wraps.
pub fn add_one(counts: &mut [u64], place: usize)
    ensures { place < length counts.old → counts.new ≡ slice_set counts.old place ((slice_index counts.old place + 1) % 2 ^ 64) }
{
    // Not `get_mut`: a proof knows nothing of an element that is written through it.
    if place < counts.len() {
        counts[place] = counts[place].wrapping_add(1);
    }
}

// The index of a number in a list; the list's length if it is not there.
fn index_of(numbers: &[u32], number: u32) -> usize
    ensures within { result ≤ length numbers.now }
    ensures value { result ≡ position_or_len (λ known. known == number) numbers.now }
{
    let index = numbers.iter().position(|known| *known == number);
    index.unwrap_or(numbers.len())
}

// Which counter a case has: the first if it agrees and nothing is refused; that of its refusal's
// number if it agrees; the last if it differs or was refused with another number.
pub fn place_of(numbers: &[u32], refusal: Option<Refusal>, same: bool) -> usize
    ensures { result ≡ place_of numbers.now refusal same }
{
    let different = numbers.len() + 1;
    match refusal {
        _ if !same => different,
        None => 0,
        Some(refusal) => 1 + index_of(numbers, refusal.number),
    }
}

// Prints the counts, a line each. A failed write is ignored; no contract can say what an output
// takes.
pub fn print_counts(rt: &impl Print, names: &[&str], counts: &[u64]) {
    for (name, count) in names.iter().zip(counts) {
        let _ = println!(rt; "{name}\t{count}");
    }
}

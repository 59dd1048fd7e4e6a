// The checksum of two ledgers and a buffer: FNV-1a of 64 bits over the numbers in order, each as
// four bytes, the lowest first, then over the bytes.
ghost use Rattle.std.specs.Prelude.{◌≡◌, fold};
ghost use Rattle.cases_plan.specs.Checksum.{with_byte, with_number, checksum_of};

const START: u64 = 14695981039346656037;

const PRIME: u64 = 1099511628211;

// The sum with one byte more.
fn with_byte(sum: u64, byte: u8) -> u64
    ensures { result ≡ with_byte sum byte }
{
    (sum ^ u64::from(byte)).wrapping_mul(PRIME)
}

// The sum with the bytes of a buffer more.
fn with_bytes(start: u64, bytes: &[u8]) -> u64
    ensures { result ≡ fold with_byte start bytes.now }
{
    bytes.iter().fold(start, |sum, byte| with_byte(sum, *byte))
}

// The sum with the four bytes of a number more.
fn with_number(sum: u64, number: u32) -> u64
    ensures { result ≡ with_number sum number }
{
    with_bytes(sum, &number.to_le_bytes())
}

// The sum with the numbers of a ledger more.
fn with_numbers(start: u64, numbers: &[u32]) -> u64
    ensures { result ≡ fold with_number start numbers.now }
{
    numbers
        .iter()
        .fold(start, |sum, number| with_number(sum, *number))
}

// The checksum of two ledgers and a buffer; that of fewer where one is empty.
pub fn checksum(ledger: &[u32], second_ledger: &[u32], buffer: &[u8]) -> u64
    ensures { result ≡ checksum_of ledger.now second_ledger.now buffer.now }
{
    let first_sum = with_numbers(START, ledger);
    with_bytes(with_numbers(first_sum, second_ledger), buffer)
}

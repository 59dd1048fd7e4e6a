// Reads the parts that the stored forms have in common: numbers, the lowest byte first, and texts.
ghost use Rattle.std.specs.Prelude.{◌++◌, length, IfOk};
ghost use Rattle.std.specs.Int.{w32, w64, to_le_bytes};
ghost use Rattle.std.specs.Io.KnownBytes.{Consumes};
ghost use Rattle.cases_files.specs.Reading.{GivesEach};

use std::io;
use std::io::Read;

// A file that ends too early, can't be read, or breaks its form.
#[derive(Clone, Copy, Debug)]
pub struct Malformed;

impl From<io::Error> for Malformed {
    fn from(_error: io::Error) -> Malformed {
        Malformed
    }
}

// The next bytes, as many as the array has. Each read of a file is a call of the system, so numbers
// side by side are read as one array, and then one by one from its slice, which is a reader too.
pub fn read_array<R: Read, const N: usize>(file: &mut R) -> Result<[u8; N], Malformed>
    ensures { IfOk result (λ bytes. Consumes (R.remaining file.old) (R.remaining file.new) bytes) }
{
    let mut bytes = [0; N];
    file.read_exact(&mut bytes)?;
    Ok(bytes)
}

pub fn read_u32<R: Read>(file: &mut R) -> Result<u32, Malformed>
    ensures { IfOk result (λ n. Consumes (R.remaining file.old) (R.remaining file.new) (to_le_bytes w32 n)) }
{
    Ok(u32::from_le_bytes(read_array(file)?))
}

pub fn read_u64<R: Read>(file: &mut R) -> Result<u64, Malformed>
    ensures { IfOk result (λ n. Consumes (R.remaining file.old) (R.remaining file.new) (to_le_bytes w64 n)) }
{
    Ok(u64::from_le_bytes(read_array(file)?))
}

// Fills a slice from the file, an item at a time.
pub fn read_each<R: Read, T: Drop, F: Fn(&mut R) -> Result<T, Malformed>>(
    file: &mut R,
    items: &mut [T],
    read_item: F,
) -> Result<(), Malformed>
    requires { F.IsAlwaysCallable read_item }
    ensures { IfOk result (λ _. GivesEach (F.post read_item) file.old items.new file.new) }
{
    for item in items {
        *item = read_item(file)?;
    }
    Ok(())
}

// Reads a length and a text of that length, to the start of a room that must be large enough.
pub fn read_text<'a, R: Read>(file: &mut R, room: &'a mut [u8]) -> Result<&'a [u8], Malformed>
    ensures { IfOk result (λ text. Consumes (R.remaining file.old) (R.remaining file.new) (to_le_bytes w32 (length text.now) ++ text.now)) }
{
    let size = read_u32(file)? as usize;
    let text = room.get_mut(..size).ok_or(Malformed)?;
    file.read_exact(text)?;
    Ok(text)
}

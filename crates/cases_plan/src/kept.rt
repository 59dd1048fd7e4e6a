// What a case may take over from the case before.
ghost use Rattle.std.specs.Prelude.{◌≡◌, None, IfOk};
ghost use Rattle.cases_plan.specs.Kept.{kept_in, GoesOn};

use cases_files::reading::{Malformed, read_u32};
use std::io::Read;

// In place of a length: the same text or numbers as in the case before.
const SAME: u32 = u32::MAX;

// A text or numbers, at the start of a room for the longest; none before the first case. The length
// stands beside the room: there is no heap for a `Vec`, and a slice cut to it would have no room
// for a longer one.
#[derive(Drop)]
pub struct Kept<'a, T> {
    room: &'a mut [T],
    length: Option<usize>,
}

impl<'a, T> Kept<'a, T> {
    pub fn new(room: &'a mut [T]) -> Self
        ensures empty { kept_in result.room.now result.length ≡ None }
        ensures room { result.room.now ≡ room.entry.now }
    {
        Kept { room, length: None }
    }

    // Reads what a case gives, after its length, by a function; or keeps what the case before had.
    pub fn read<R: Read, F: FnOnce(&mut R, &mut [T]) -> Result<(), Malformed>>(
        &mut self,
        file: &mut R,
        read_items: F,
    ) -> Result<&[T], Malformed>
        requires { F.IsAlwaysCallable read_items }
        ensures { IfOk result (λ items. GoesOn R.remaining (F.post read_items) (kept_in self.old.room.now self.old.length) file.old file.new items.now) }
    {
        let given = read_u32(file)?;
        if given == SAME {
            let length = self.length.ok_or(Malformed)?;
            return self.room.get(..length).ok_or(Malformed);
        }
        let length = given as usize;
        if self.room.len() < length {
            return Err(Malformed);
        }
        read_items(file, &mut self.room[..length])?;
        self.length = Some(length);
        Ok(&self.room[..length])
    }
}

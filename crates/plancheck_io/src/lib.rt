// Reads a whole file into a lent buffer. Nothing can say what a file holds: of a reader whose bytes
// are known, it is promised that all of them were read, and of any other only how much of the
// buffer was filled.
#![tactic(auto)]

ghost use Rattle.std.specs.Prelude.{length};
ghost use Rattle.plancheck_io.specs.Read.{Within, IsWhole};

use std::fs::File;
use std::io::Read;
use std::rt::Files;

// Reads an open file to its end; returns how many bytes there were. None if it can't be read, or if
// it fills the buffer: then its end was not reached.
pub fn read_open<R: Read>(file: &mut R, buffer: &mut [u8]) -> Option<usize>
    ensures within { Within (length buffer.old) result }
    ensures whole { IsWhole (R.remaining file.old) buffer.new result }
{
    let mut done = 0;
    // A `while`: a read may give fewer bytes than fit, so that no count says where the file ends.
    while done < buffer.len() {
        let count = file.read(&mut buffer[done..]).ok()?;
        if count == 0 {
            return Some(done);
        }
        done += count;
    }
    None
}

// Reads the file at a path; returns how many bytes it has. None also if it can't be opened.
pub fn read_file(files: &impl Files, path: &str, buffer: &mut [u8]) -> Option<usize>
    ensures { Within (length buffer.old) result }
{
    let mut file = File::open(files, path).ok()?;
    read_open(&mut file, buffer)
}

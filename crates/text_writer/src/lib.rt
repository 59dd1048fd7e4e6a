// Writes tab-separated records, which `text_reader` reads back: without leading zeros, into room
// for just the text; the bytes after it are kept.
#![tactic(auto)]

ghost use Rattle.std.specs.Prelude.{◌≡◌, ℕ, ◌+◌, ◌*◌, ◌≤◌, [], ◌∷◌, length};
ghost use Rattle.text_writer.specs.Records.{numeral, field_text, field_texts, record_text};
ghost use Rattle.text_writer.specs.Writing.{Wrote, HasRoom, Writes};

// How many digits a number has in decimal: 0 has one, as 1 has.
#[tactic(auto, using(crate::proofs::Laws::numeral_count))]
fn digit_count(value: u64) -> usize
    ensures count { result ≡ length (numeral 19 value) }
    ensures few { result ≤ 20 }
{
    // Most numbers that are written have one digit; only longer ones need a logarithm.
    if value < 10 {
        return 1;
    }
    1 + value.ilog10() as usize
}

// Copies numbers of 32 bits as numbers of 64 bits, from which a record is written.
pub fn widen(numbers: &[u32], wide: &mut [u64])
    requires { length numbers.now ≡ length wide.old }
    ensures { wide.new ≡ numbers.now }
{
    for (k, number) in numbers.iter().enumerate() {
        wide[k] = u64::from(*number);
    }
}

// A lent buffer, and the place where the next byte is written. Not an `Output` of network_writer,
// which also takes lines for which there is no room: here there is always room.
#[derive(Drop)]
struct Cursor<'a> {
    out: &'a mut [u8],
    at: usize,
}

impl Cursor<'_> {
    fn write_byte(&mut self, byte: u8)
        requires { HasRoom (byte ∷ []) self.old }
        ensures { Writes (byte ∷ []) self.old self.new }
    {
        self.out[self.at] = byte;
        self.at += 1;
    }

    // Writes a number in decimal, from the last digit to the first.
    fn write_number(&mut self, value: u64)
        requires { HasRoom (numeral 19 value) self.old }
        ensures { Writes (numeral 19 value) self.old self.new }
    {
        let end = self.at + digit_count(value);
        let mut rest = value;
        // By index: a proof knows nothing of an element that is written through `iter_mut().rev()`.
        for place in (self.at..end).rev() {
            self.out[place] = b'0' + (rest % 10) as u8;
            rest /= 10;
        }
        self.at = end;
    }

    // Writes a tab and a number.
    #[tactic(auto, unfolding(crate::specs::Records::field_text))]
    fn write_field(&mut self, value: u64)
        requires { HasRoom (field_text value) self.old }
        ensures { Writes (field_text value) self.old self.new }
    {
        self.write_byte(b'\t');
        self.write_number(value);
    }
}

// Writes a record: a letter, the numbers, each after a tab, and a line feed. Buffer and place are
// two parameters, though a `Cursor` has both: the contract speaks of the bytes alone, and
// network_writer and plancheck_report rely on that.
#[tactic(auto, using(crate::proofs::Laws::record_is))]
pub fn write_record(out: &mut [u8], at: usize, letter: u8, numbers: &[u64]) -> usize
    requires { at + length (record_text letter numbers.now) ≤ length out.old }
    ensures { Wrote (record_text letter numbers.now) at out.old out.new result }
{
    let mut cursor = Cursor { out, at };
    cursor.write_byte(letter);
    for number in numbers {
        cursor.write_field(*number);
    }
    cursor.write_byte(b'\n');
    cursor.at
}

// How long a record of these numbers is, whatever its letter.
pub fn record_length(numbers: &[u64]) -> usize
    requires { 2 + 21 * length numbers.now ≤ 18_446_744_073_709_551_615 }
    ensures { (letter : ℕ) → result ≡ length (record_text letter numbers.now) }
{
    2 + numbers
        .iter()
        .map(|number| 1 + digit_count(*number))
        .sum::<usize>()
}

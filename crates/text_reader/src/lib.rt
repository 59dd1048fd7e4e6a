// Reads tab-separated records: numbers, lines and the end of a text, by places.
#![tactic(auto)]

ghost use Rattle.std.specs.Prelude.{◌≡◌, ◌+◌, ◌-◌, ◌*◌, ◌≤◌, ◌<◌, length, get_or, [], eqb, SomeIff};
ghost use Rattle.text_reader.specs.Field.{digit, largest};
ghost use Rattle.text_reader.specs.Lines.{starts_as};
ghost use Rattle.text_reader.specs.Reading.{line_at, leading_as, field_at, separator, rest_at, DigitsRead, starts_with, tab_before_sentinel, tabbed_at, EndsAs, ended_by_line_feed, record_at, at_end, Got, GotNumbers, GotNumbersAs};
ghost use Rattle.text_reader.specs.Passing.{block_size, separator_weight, separators, Passing, FieldsPassed, stays_in_line, InLine, LineEnds, line_number};

// How many digits a field has at most.
const MAX_DIGITS: usize = 10;

// How many bytes are passed at once on the way to a number of a line.
const BLOCK: usize = 16;

// What a line feed counts among the separators of a block, where a tab counts 1: a block with as
// many tabs is passed byte by byte.
const LINE_FEED: u8 = 15;

// The digit 0, as a byte of a text.
const ZERO: u32 = 48;

// The number of a field, and the place where that field ends.
#[derive(Clone, Copy)]
struct FieldNumber {
    value: u32,
    next: usize,
}

// How far fields are passed: a place, and how many more are to be.
#[derive(Clone, Copy)]
struct Passed {
    place: usize,
    left: usize,
}

// A number of a line, and the place of the next line.
#[derive(Clone, Copy)]
pub struct LineNumber {
    pub value: u32,
    pub next: usize,
}

// The number of the field after a tab, and which byte ends that field. Not an `Option`: if the byte
// after a number is tested again for the next one, the largest plan took 4.9 % more instructions.
#[derive(Clone, Copy)]
enum Ended {
    ByTab(FieldNumber),
    ByLineFeed(FieldNumber),
    Neither,
}

// How the numbers that were read end: they are the last of their line, with the place of the next
// line; more follows them; or one is missing. `line_at` refuses the last two, `head_at` only the
// last.
#[derive(Clone, Copy)]
enum Numbers {
    Last(usize),
    More,
    Missing,
}

// On 32 bits: with `is_ascii_digit` of the byte the largest plan took 5 to 8 % more instructions.
fn is_digit(b: u32) -> bool
    ensures { result ≡ digit b }
{
    (ZERO..=57).contains(&b)
}

fn is_separator(b: u8) -> bool
    ensures { result ≡ separator b }
{
    b == b'\t' || b == b'\n'
}

// Whether a field ends at a place, or none starts there.
fn ends_at(text: &[u8], at: usize) -> bool
    ensures { result ≡ eqb (length (field_at text.now at)) 0 }
{
    match text.get(at) {
        Some(&b) => is_separator(b),
        None => true,
    }
}

// A number with one digit more at its right, where that fits 32 bits.
fn shifted(value: u32, b: u32) -> Option<u32>
    requires { (48 ≤ b) × (b ≤ 57) }
    ensures { SomeIff result (value * 10 + (b - 48) ≤ largest) (value * 10 + (b - 48)) }
{
    value.checked_mul(10)?.checked_add(b - ZERO)
}

// The number whose digits start at a place, and the place where its field ends: each place is
// compared with the end of the text. Ten turns at most, which the compiler unrolls: it finds that
// only a tenth digit can exceed 32 bits. Inlined, for check_plan's speed (docs/MEASUREMENTS.md).
#[inline(always)]
fn digits_from(text: &[u8], from: usize) -> Option<FieldNumber>
    requires { from ≤ length text.now }
    ensures { result ≡ rest_at 10 0 text.now from }
{
    let mut value: u32 = 0;
    for (k, &byte) in text[from..].iter().take(MAX_DIGITS).enumerate() {
        if is_separator(byte) {
            return Some(FieldNumber {
                value,
                next: from + k,
            });
        }
        let b = u32::from(byte);
        if !is_digit(b) {
            return None;
        }
        // More digits never make a number smaller, so none is read after it exceeds 32 bits.
        value = shifted(value, b)?;
    }
    let next = text.len().min(from + MAX_DIGITS);
    if !ends_at(text, next) {
        return None;
    }
    Some(FieldNumber { value, next })
}

// The number of the field after a tab, and the place where that field ends. Inlined, for
// check_plan's speed (docs/MEASUREMENTS.md).
#[inline(always)]
fn tabbed_at(text: &[u8], at: usize) -> Option<FieldNumber>
    ensures { result ≡ tabbed_at text.now at }
{
    if text.get(at) != Some(&b'\t') {
        return None;
    }
    let start = at + 1;
    if ends_at(text, start) {
        return None;
    }
    digits_from(text, start)
}

// Reads the numbers after a place where a field ends, in any text. Not inlined, for check_plan's
// speed (docs/MEASUREMENTS.md).
#[inline(never)]
fn guarded_numbers_at(text: &[u8], at: usize, out: &mut [u32]) -> Numbers
    requires { field_at text.now at ≡ [] }
    ensures { GotNumbers text.now at out.old result out.new }
{
    let mut i = at;
    for number in out.iter_mut() {
        let Some(found) = tabbed_at(text, i) else {
            return Numbers::Missing;
        };
        *number = found.value;
        i = found.next;
    }
    if text.get(i) == Some(&b'\n') {
        Numbers::Last(i + 1)
    } else {
        Numbers::More
    }
}

// The number of the digits at a place, ten at most, and the place after them, in a text that ends
// with a line feed. The line feed is the sentinel: the last byte is no digit, so no place is
// compared with the end. Each of the three functions that rely on it requires it: a struct for such
// a text would be taken apart in each of them. By index: with an iterator over the rest, which
// looks for its end at each digit, the largest plan took 24 % more instructions. The compiler
// unrolls the loop and finds that only a tenth digit can exceed 32 bits.
fn sentinel_digits_from(text: &[u8], from: usize) -> Option<FieldNumber>
    requires from_in_bounds { from < length text.now }
    requires text_value { get_or text.now (length text.now - 1) 0 ≡ 10 }
    ensures { DigitsRead text.now from result }
{
    let mut value: u32 = 0;
    for k in 0..MAX_DIGITS {
        let i = from + k;
        let b = u32::from(text[i]);
        if !is_digit(b) {
            return Some(FieldNumber { value, next: i });
        }
        value = shifted(value, b)?;
    }
    Some(FieldNumber {
        value,
        next: from + MAX_DIGITS,
    })
}

// The number after the tab at a place, and what ends it: a tab, after which the next number is read
// without another test, or a line feed.
fn sentinel_tabbed_at(text: &[u8], at: usize) -> Ended
    requires at_value { get_or text.now at 0 ≡ 9 }
    requires text_value { get_or text.now (length text.now - 1) 0 ≡ 10 }
    ensures { EndsAs text.now (tabbed_at text.now at) result }
{
    let start = at + 1;
    let Some(number) = sentinel_digits_from(text, start) else {
        return Ended::Neither;
    };
    let next = number.next;
    if next == start {
        return Ended::Neither;
    }
    match text[next] {
        b'\t' => Ended::ByTab(number),
        b'\n' => Ended::ByLineFeed(number),
        _ => Ended::Neither,
    }
}

// A line feed ends a number: that is the last of its line, if it was the last that was asked for,
// or one is missing.
fn ended_by_line_feed(next: usize, was_last: bool) -> Numbers
    ensures { result ≡ ended_by_line_feed next was_last }
{
    if was_last {
        Numbers::Last(next)
    } else {
        Numbers::Missing
    }
}

// Reads the numbers after a tab in a text that a line feed ends. Not inlined, for check_plan's
// speed (docs/MEASUREMENTS.md).
#[inline(never)]
fn sentinel_numbers_at(text: &[u8], at: usize, out: &mut [u32]) -> Numbers
    requires at_value { field_at text.now at ≡ [] }
    requires at_value_2 { get_or text.now at 0 ≡ 9 }
    requires text_value { get_or text.now (length text.now - 1) 0 ≡ 10 }
    ensures { GotNumbers text.now at out.old result out.new }
{
    let count = out.len();
    let mut i = at;
    for (k, number) in out.iter_mut().enumerate() {
        match sentinel_tabbed_at(text, i) {
            Ended::ByTab(found) => {
                *number = found.value;
                i = found.next;
            }
            Ended::ByLineFeed(found) => {
                *number = found.value;
                return ended_by_line_feed(found.next + 1, k + 1 == count);
            }
            Ended::Neither => return Numbers::Missing,
        }
    }
    Numbers::More
}

// Whether a tab stands at a place, and a line feed ends the text.
fn tab_before_sentinel(text: &[u8], at: usize) -> bool
    ensures { result ≡ tab_before_sentinel text.now at }
{
    text.get(at) == Some(&b'\t') && text.last() == Some(&b'\n')
}

// Whether a letter stands at a place. A tab or a line feed is no letter.
fn starts_with(text: &[u8], at: usize, letter: u8) -> bool
    ensures { result ≡ starts_with letter text.now at }
{
    text.get(at) == Some(&letter) && !is_separator(letter)
}

// Reads the numbers of the line of this letter at a place.
fn numbers_at(text: &[u8], at: usize, letter: u8, out: &mut [u32]) -> Numbers
    ensures { GotNumbersAs letter text.now at out.old result out.new }
{
    if !starts_with(text, at, letter) {
        return Numbers::Missing;
    }
    let end = at + 1;
    if tab_before_sentinel(text, end) {
        return sentinel_numbers_at(text, end, out);
    }
    if !ends_at(text, end) {
        return Numbers::Missing;
    }
    guarded_numbers_at(text, end, out)
}

// Reads the line of this letter at a place, whose numbers fill `out`.
pub fn line_at(text: &[u8], at: usize, letter: u8, out: &mut [u32]) -> Option<usize>
    ensures { Got (record_at letter (length out.old) text.now at)
        (leading_as letter (length out.old) (line_at text.now at))
        out.old result out.new }
{
    match numbers_at(text, at, letter, out) {
        Numbers::Last(next) => Some(next),
        Numbers::More | Numbers::Missing => None,
    }
}

// Reads the beginning of the line of this letter at a place: the numbers that fill `out`, whatever
// follows them.
pub fn head_at(text: &[u8], at: usize, letter: u8, out: &mut [u32]) -> bool
    ensures { Got (starts_as letter (length out.old) (line_at text.now at))
        (leading_as letter (length out.old) (line_at text.now at))
        out.old result out.new }
{
    !matches!(numbers_at(text, at, letter, out), Numbers::Missing)
}

// A byte among the separators of a block.
fn separator_weight(b: u8) -> u8
    ensures { result ≡ separator_weight b }
{
    match b {
        b'\t' => 1,
        b'\n' => LINE_FEED,
        _ => 0,
    }
}

// The separators of the block at a place. By index, and without a test of a single byte: the
// compiler adds up all bytes of the block at once.
fn separators_in(text: &[u8], at: usize) -> u8
    requires { at + block_size ≤ length text.now }
    ensures { result ≡ separators text.now at block_size }
{
    let mut sum: u8 = 0;
    for k in 0..BLOCK {
        sum += separator_weight(text[at + k]);
    }
    sum
}

// Passes `n` fields of a line by whole blocks, as long as these have no line feed and no more tabs
// than are left to be passed.
fn past_blocks(text: &[u8], at: usize, n: usize) -> Passed
    requires { at ≤ length text.now }
    ensures { Passing text.now at n result }
{
    let mut place = at;
    let mut left = n;
    while BLOCK <= text.len() - place {
        let sum = separators_in(text, place);
        if (LINE_FEED <= sum) | (left < sum as usize) {
            break;
        }
        left -= sum as usize;
        place += BLOCK;
    }
    Passed { place, left }
}

// The place behind `n` fields of a line, or where its last one ends.
fn past_fields(text: &[u8], at: usize, n: usize) -> usize
    requires { at ≤ length text.now }
    ensures { FieldsPassed text.now at n result }
{
    let passed = past_blocks(text, at, n);
    let mut left = passed.left;
    let mut place = passed.place;
    while place < text.len() {
        let b = text[place];
        if is_separator(b) {
            if b == b'\n' || left == 0 {
                break;
            }
            left -= 1;
        }
        place += 1;
    }
    place
}

// Whether no line feed stands in the block at a place. By index, and to its end: the compiler looks
// at all bytes of the block at once.
fn stays_in_line(text: &[u8], at: usize) -> bool
    requires { at + block_size ≤ length text.now }
    ensures { result ≡ stays_in_line text.now at block_size }
{
    let mut stays = true;
    for k in 0..BLOCK {
        stays &= text[at + k] != b'\n';
    }
    stays
}

// Passes whole blocks without a line feed.
fn past_line_blocks(text: &[u8], at: usize) -> usize
    requires { at ≤ length text.now }
    ensures { InLine text.now at result }
{
    let mut place = at;
    while BLOCK <= text.len() - place && stays_in_line(text, place) {
        place += BLOCK;
    }
    place
}

// Where the line of a place ends: the place of its line feed, or the end of the text.
fn line_end(text: &[u8], at: usize) -> usize
    requires { at ≤ length text.now }
    ensures { LineEnds text.now at result }
{
    let mut place = past_line_blocks(text, at);
    while place < text.len() && text[place] != b'\n' {
        place += 1;
    }
    place
}

// Number `k` of the line at a place, from 0, or 0 where it has none; and the place of the next
// line. No other number is read: what stands before it and behind it is passed by blocks.
pub fn number_at(text: &[u8], at: usize, k: usize) -> LineNumber
    requires { at ≤ length text.now }
    ensures { result ≡ line_number text.now at k }
{
    let end = past_fields(text, at, k);
    let value = match tabbed_at(text, end) {
        Some(found) => found.value,
        None => 0,
    };
    LineNumber {
        value,
        next: line_end(text, end) + 1,
    }
}

pub fn is_end(text: &[u8], at: usize) -> bool
    ensures { result ≡ at_end text.now at }
{
    text.len() <= at
}

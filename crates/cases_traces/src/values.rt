// Values of the stored form, which are 64-bit floats by their bits. A NaN is one value, whatever
// its bits are: the toolchain fixes neither the value of a NaN's bits nor the bits of a NaN, so
// both are defined here.
ghost use Rattle.std.specs.Prelude.{◌≡◌, length, IfOk};
ghost use Rattle.std.specs.Float.{binary64};
ghost use Rattle.std.specs.List.{list_all, zip};
ghost use Rattle.std.specs.Float.Ieee.{of_bits, to_bits};
ghost use Rattle.cases_traces.specs.Values.{same_value, same_values, ValueRead};

use cases_files::reading::{Malformed, read_each, read_u64};
use std::io::Read;

// The bits of an infinity, and the weight of the sign: without the sign, a NaN's bits are a number
// above the former.
const INFINITY: u64 = 0x7ff0_0000_0000_0000;

const SIGN: u64 = 1 << 63;

// The bits that stand for every NaN.
const NAN: u64 = 0x7ff8_0000_0000_0000;

// The value of bits.
fn value_of(bits: u64) -> f64
    ensures { result ≡ of_bits binary64 bits }
{
    if INFINITY < bits % SIGN {
        f64::NAN
    } else {
        f64::from_bits(bits)
    }
}

// The bits of a value; the same ones for every NaN.
fn bits_of(value: f64) -> u64
    ensures { result ≡ to_bits binary64 value }
{
    if value.is_nan() { NAN } else { value.to_bits() }
}

// Whether two values are the same; zeros of either sign are not.
fn is_same(one: f64, other: f64) -> bool
    ensures { result ≡ same_value one other }
{
    bits_of(one) == bits_of(other)
}

// Whether every value is as stored, and there are as many.
pub fn are_same(values: &[f64], told: &[f64]) -> bool
    ensures { result ≡ same_values values.now told.now }
{
    values.len() == told.len() && all_same(values, told)
}

// Whether the values are the same one by one, up to the end of the shorter list. A function of its
// own: after the `&&` of `are_same`, `search` does not prove it.
fn all_same(values: &[f64], told: &[f64]) -> bool
    ensures { result ≡ list_all (λ p. same_value p.0 p.1) (zip values.now told.now) }
{
    values
        .iter()
        .zip(told)
        .all(|(value, stored)| is_same(*value, *stored))
}

pub fn read_value<R: Read>(file: &mut R) -> Result<f64, Malformed>
    ensures { IfOk result (λ value. ValueRead (R.remaining file.old) (R.remaining file.new) value) }
{
    Ok(value_of(read_u64(file)?))
}

// Reads `count` values to the start of a room that must be large enough.
pub fn read_values<'a>(
    file: &mut impl Read,
    room: &'a mut [f64],
    count: u32,
) -> Result<&'a mut [f64], Malformed>
    ensures { IfOk result (λ values. length values.now ≡ count) }
{
    let values = room.get_mut(..count as usize).ok_or(Malformed)?;
    read_each(file, values, read_value)?;
    Ok(values)
}

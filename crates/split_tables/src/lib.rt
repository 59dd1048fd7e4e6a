// The tables of a network's two halves (T-14): the new number of each link, signal and movement in
// a half, from 1, and 0 for what is not in it.
#![tactic(auto)]

ghost use Rattle.std.specs.Prelude.{◌≡◌, ℕ, ◌/◌, ◌^◌, ◌≤◌, ◌<◌, Bool, length};
ghost use Rattle.model.specs.Network.{max_links, max_signals, max_movements};
ghost use Rattle.model_split.specs.Call.{in_set};
ghost use Rattle.model_split.specs.Numbering.{rank};
ghost use Rattle.split_tables.specs.Tables.{is_in, is_inside, is_border, LinksNamed};
ghost use Rattle.split_tables.specs.Items.{Asks, Gives, Numbered};
ghost use Rattle.split_tables.specs.Halves.{outside_has, HalfTold, HalvesAsked, HalvesNumbered};

use model::Signal;
use network_tables::{Link, MAX_LINKS, MAX_MOVEMENTS, MAX_SIGNALS, Movement, NetworkTables};

// What is split: a network's tables with its text, its signals before the plan, and the text of a
// plan. All are lent, each with its own lifetime: no table is copied.
#[derive(Clone, Copy)]
pub struct Whole<'p, 't, 's> {
    pub plan: &'p [u8],
    pub tables: NetworkTables<'t>,
    pub signals: &'s [Signal],
}

// One half: the new number of each link, signal and movement of the whole network. 0 stands for
// what is not in the half: an `Option<u32>` takes 8 bytes, and with tables twice as large `split`
// takes more than 8 KiB of stack.
#[derive(Clone, Copy, Default)]
pub struct HalfTables {
    pub links: [u32; MAX_LINKS],
    pub signals: [u32; MAX_SIGNALS],
    pub movements: [u32; MAX_MOVEMENTS],
}

// Both halves, and what is left of the set of the first half's links above the last link.
#[derive(Clone, Copy, Default)]
pub struct Halves {
    pub first: HalfTables,
    pub second: HalfTables,
    pub above: u32,
}

// Whether a movement is inside the half: both its links have a number there. Its type does not say
// that it names links, since it is read before it is judged.
fn is_inside(movement: Movement, numbers: &[u32; MAX_LINKS]) -> bool
    requires { LinksNamed movement }
    ensures { result ≡ is_inside movement numbers.now }
{
    let from = movement.from as usize;
    let to = movement.to as usize;
    numbers[from - 1] != 0 && numbers[to - 1] != 0
}

// Whether it is a border movement: just one of its links has a number there.
pub fn is_border(movement: Movement, numbers: &[u32; MAX_LINKS]) -> bool
    requires { LinksNamed movement }
    ensures { result ≡ is_border movement numbers.now }
{
    let from = movement.from as usize;
    let to = movement.to as usize;
    (numbers[from - 1] != 0) != (numbers[to - 1] != 0)
}

// How many of the items have a number in the half.
pub fn count_in(numbers: &[u32]) -> usize
    ensures { (result ≡ rank (is_in numbers.now) (length numbers.now)) × (result ≤ length numbers.now) }
{
    numbers.iter().filter(|number| **number != 0).count()
}

// Numbers from 1, in their old order, those of the first `count` items that are in a half. By
// index, which the test takes; the table has room for more items.
fn numbers_where<const N: usize, F: Fn(usize) -> bool>(count: usize, is_in: F) -> [u32; N]
    requires few { (count ≤ N) × (count ≤ max_movements) }
    requires asks { Asks (F.pre is_in) count }
    ensures { (test : ℕ → Bool) → Gives (F.post is_in) count test → Numbered test count result }
{
    let mut numbers = [0; N];
    let mut last = 0;
    for k in 0..count {
        if is_in(k) {
            last += 1;
            numbers[k] = last;
        }
    }
    numbers
}

// The half that has these links and signals, and the movements between its links.
fn number_half<L: Fn(usize) -> bool, S: Fn(usize) -> bool>(
    tables: &NetworkTables,
    has_link: L,
    has_signal: S,
) -> HalfTables
    requires ends { HalvesAsked tables.now }
    requires links { Asks (L.pre has_link) tables.now.reading.counts.links }
    requires signals { Asks (S.pre has_signal) tables.now.reading.counts.signals }
    ensures { HalfTold tables.now (L.post has_link) (S.post has_signal) result }
{
    let counts = tables.reading.counts;
    let links = numbers_where(counts.links, has_link);
    let inside = |j| is_inside(tables.movements[j], &links);
    HalfTables {
        links,
        signals: numbers_where(counts.signals, has_signal),
        movements: numbers_where(counts.movements, inside),
    }
}

// Whether a set has link `i`, by its bit. Not `step_signals::opens`, which counts phases from 1 and
// takes phase 0 with phase 1. Here and below `i` must be below `max_links`, as at
// `network_tables::demand`.
fn in_set(set: u32, i: usize) -> bool
    requires { i < max_links }
    ensures { result ≡ in_set set i }
{
    (set >> i) % 2 == 1
}

// Whether a link that is not in a set has signal `r`.
fn outside_has(set: u32, links: &[Link], r: usize) -> bool
    requires { (length links.now ≤ max_links) × (r < max_signals) }
    ensures { result ≡ outside_has set links.now r }
{
    links.iter().enumerate().any(|(i, link)| !in_set(set, i) & (link.signal as usize == r + 1))
}

// Numbers both halves of a network by the set of links in the first. A signal with a link in the
// second half goes there. Not inlined, and filled in place, so that `split` keeps within its 8 KiB
// of stack (docs/MEASUREMENTS.md).
#[inline(never)]
pub fn number_halves(set: u32, tables: &NetworkTables, halves: &mut Halves)
    requires { HalvesAsked tables.now }
    ensures above { halves.new.above ≡ set / 2 ^ tables.now.reading.counts.links }
    ensures numbered { HalvesNumbered set tables.now halves.new }
{
    let counts = tables.reading.counts;
    let links = tables.links;
    let in_first = |i| in_set(set, i);
    let stays = |r| !outside_has(set, links, r);
    halves.first = number_half(tables, in_first, stays);
    let in_second = |i| !in_set(set, i);
    let leaves = |r| outside_has(set, links, r);
    halves.second = number_half(tables, in_second, leaves);
    halves.above = set >> counts.links;
}

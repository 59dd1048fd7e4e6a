// The `Q` and `M` lines of a network text and the sums of the shares: refusals 1, 4 and 5.
#![tactic(auto)]

ghost use Rattle.std.specs.Prelude.{◌≡◌, ◌<◌, ◌≤◌, length};
ghost use Rattle.base_search.specs.Checks.{each, verdict};
ghost use Rattle.text_reader.specs.Lines.{lines};
ghost use Rattle.network_tables.specs.Tables.{Judged};
ghost use Rattle.network_tables.specs.Blocks.{block_checks, link_block, movement_block};
ghost use Rattle.network_links.specs.Links.{valid_mask_in, valid_link_in, FewPhases};
ghost use Rattle.network_links.specs.Movements.{pair_rises_in, valid_movement_in, share_sum_in, share_checks_in, LastMovement, BadShares, AddAsked, Added, SumsAsked, ShareSums};
ghost use Rattle.network_links.specs.Stages.{LinksAsked, LinksHeld, MovementsAsked, MovementsHeld, SharesAsked};

use base_search::{Reason, Refusal, checked};
use model::Signal;
use network_tables::{Counts, Link, MAX_LINKS, Movement, Reading, WHOLE_SHARE, read_rows};

// The greatest capacity and travel time of a link.
const MAX_CAPACITY: u32 = 2_000_000_000;

const MAX_TRAVEL_TIME: u32 = 3600;

// The greatest exit rate of a link, and rate of a movement.
const MAX_RATE: u32 = 10_000;

// Refusal 4: a link without a signal has no phase; one with a signal has a phase, and none above
// the signal's number of phases.
fn valid_mask(mask: u32, signal: usize, signals: &[Signal]) -> bool
    requires { (FewPhases signals.now) × (signal ≤ length signals.now) }
    ensures { result ≡ valid_mask_in mask signal signals.now }
{
    if signal == 0 {
        return mask == 0;
    }
    let last = signals[signal - 1].phases;
    (1 <= mask) & (mask < 1 << last)
}

// Refusal 4, a link among the network's signals.
fn valid_link(link: Link, signals: &[Signal]) -> bool
    requires { FewPhases signals.now }
    ensures { result ≡ valid_link_in link signals.now }
{
    let signal = link.signal as usize;
    if signals.len() < signal {
        return false;
    }
    (link.capacity <= MAX_CAPACITY)
        & (1..=MAX_TRAVEL_TIME).contains(&link.travel_time)
        & (link.exit_rate <= MAX_RATE)
        & valid_mask(link.phase_mask, signal, signals)
        & (link.standing <= link.capacity)
}

// The `Q` lines: each line's form (refusal 1), then its values (refusal 4).
pub fn read_links(
    text: &[u8],
    reading: Reading,
    signals: &[Signal],
    links: &mut [Link],
) -> Result<Reading, Refusal>
    requires { LinksAsked text.now reading signals.now links.old }
    ensures { Judged (block_checks (link_block (lines text.now))) (LinksHeld text.now links.new) result }
{
    let counts = reading.counts;
    let first = counts.link_line(0) + 1;
    let signals = &signals[..counts.signals];
    let judge = |links: &[Link], i: usize| {
        let valid = valid_link(links[i], signals);
        checked(valid, Reason::Link, first + i, i + 1)
    };
    let next = read_rows(text, reading.next, b'Q', first, counts.links, links, judge)?;
    Ok(reading.moved_to(next))
}

// Refusal 5: the pair (from, to) of movement `j` is above that of the movement before. Written out,
// since `search` does not prove a comparison of tuples.
fn pair_rises(movements: &[Movement], j: usize) -> bool
    requires { j < length movements.now }
    ensures { result ≡ pair_rises_in movements.now j }
{
    if j == 0 {
        return true;
    }
    let before = movements[j - 1];
    let here = movements[j];
    (before.from < here.from) | (before.from == here.from) & (before.to < here.to)
}

// Refusal 5, movement `j`, by its row and the one before.
fn valid_movement(movements: &[Movement], links: usize, j: usize) -> bool
    requires { j < length movements.now }
    ensures { result ≡ valid_movement_in movements.now links j }
{
    let from = movements[j].from as usize;
    let to = movements[j].to as usize;
    let movement = movements[j];
    (1..=links).contains(&from)
        & (1..=links).contains(&to)
        & (from != to)
        & (1..=MAX_RATE).contains(&movement.rate)
        & (1..=WHOLE_SHARE).contains(&movement.share)
        & pair_rises(movements, j)
}

// The `M` lines: each line's form (refusal 1), then its values (refusal 5).
pub fn read_movements(
    text: &[u8],
    reading: Reading,
    movements: &mut [Movement],
) -> Result<Reading, Refusal>
    requires { MovementsAsked text.now reading movements.old }
    ensures { Judged (block_checks (movement_block (lines text.now))) (MovementsHeld text.now movements.new) result }
{
    let counts = reading.counts;
    let first = counts.movement_line(0) + 1;
    let judge = |movements: &[Movement], j: usize| {
        let valid = valid_movement(movements, counts.links, j);
        checked(valid, Reason::Movement, first + j, j + 1)
    };
    let next = read_rows(
        text,
        reading.next,
        b'M',
        first,
        counts.movements,
        movements,
        judge,
    )?;
    Ok(reading.moved_to(next))
}

// The last movement that leaves a link, numbered from 1.
fn last_movement(movements: &[Movement], link: usize) -> Option<usize>
    ensures { LastMovement movements.now link result }
{
    movements
        .iter()
        .rposition(|movement| movement.from as usize == link)
}

// Adds the share of a movement to the sum of the link that it leaves, numbered from 1.
fn add_share(from: usize, share: u32, sums: &mut [u64])
    requires { AddAsked share sums.old }
    ensures { Added from share sums.old sums.new }
{
    if (1..=MAX_LINKS).contains(&from) {
        sums[from - 1] += u64::from(share);
    }
}

// The sum of the shares of the movements that leave each link, in one pass.
fn add_shares(movements: &[Movement], sums: &mut [u64])
    requires { SumsAsked movements.now sums.old }
    ensures { ShareSums movements.now (length movements.now) sums.new }
{
    for &movement in movements {
        add_share(movement.from as usize, movement.share, sums);
    }
}

// Refusal 5: the last movement of a link whose shares don't sum to the whole.
fn bad_shares(movements: &[Movement], link: usize, sum: u64) -> Option<usize>
    requires { sum ≡ share_sum_in movements.now (length movements.now) link }
    ensures { BadShares movements.now link result }
{
    if sum == u64::from(WHOLE_SHARE) {
        return None;
    }
    last_movement(movements, link)
}

// Refusal 5 after all `M` lines: the shares by rising link, reported at the link's last movement.
// Inlined, for check_plan's speed (docs/MEASUREMENTS.md).
#[inline(always)]
pub fn check_shares(movements: &[Movement], counts: Counts) -> Result<(), Refusal>
    requires { SharesAsked movements.now counts }
    ensures { result ≡ verdict (each counts.links (share_checks_in movements.now counts)) }
{
    let mut sums = [0u64; MAX_LINKS];
    add_shares(movements, &mut sums);
    for (i, &sum) in sums[..counts.links].iter().enumerate() {
        if let Some(last) = bad_shares(movements, i + 1, sum) {
            return Err(Reason::Movement.refusal(counts.movement_line(last) + 1, last + 1));
        }
    }
    Ok(())
}

// Time-distance traces: vehicles along a street, in metres as 64-bit floats. `step_vehicles` moves
// them by one step. Each sum and difference is rounded once.
#![tactic(auto)]

ghost use Rattle.std.specs.Prelude.{◌≡◌, length};
ghost use Rattle.std.specs.List.{list_all};
ghost use Rattle.base_search.specs.Checks.{checked};
ghost use Rattle.base_laws.specs.Indexed.{list};
ghost use Rattle.traces.specs.Step.{nearer, cut_to, line_for, place_moved_to, place_after};
ghost use Rattle.traces.specs.Call.{valid_place, valid_distance, valid_counts, valid_values, step_vehicles, places_after};
ghost use Rattle.traces.specs.Guarantees.{StepKeeps};

use base_search::{Reason, Refusal, checked};

// The most vehicles of a step, and its most red lines.
const MAX_VEHICLES: usize = 64;

const MAX_RED_LINES: usize = 64;

// A million metres.
const MILLION: f64 = 1_000_000.0;

// A vehicle: its place before the step, and how far it would advance.
#[derive(Clone, Copy)]
pub struct Vehicle {
    pub place: f64,
    pub advance: f64,
}

// What may stop a vehicle: nothing, the leader's last place (one spacing behind it), or a red line
// at or ahead of it.
#[derive(Clone, Copy)]
pub enum Obstacle {
    OpenRoad,
    LeaderPlace(f64),
    RedLine(f64),
}

// A target, cut to a stop that is nearer.
#[tactic(auto, unfolding(crate::specs::Step::nearer))]
fn cut_at(target: f64, stop: f64) -> f64
    ensures { result ≡ nearer target stop }
{
    // Not `f64::min`, which may give either of two zeros, and a number for a NaN.
    if stop < target { stop } else { target }
}

// A target, cut to an obstacle.
#[tactic(auto, unfolding(crate::specs::Step::cut_to))]
fn cut_to(obstacle: Obstacle, spacing: f64, target: f64) -> f64
    ensures { result ≡ cut_to spacing obstacle target }
{
    match obstacle {
        Obstacle::OpenRoad => target,
        Obstacle::LeaderPlace(leader) => cut_at(target, leader - spacing),
        Obstacle::RedLine(line) => cut_at(target, line),
    }
}

// A red line as an obstacle: one behind the vehicle is none.
#[tactic(auto, unfolding(crate::specs::Step::line_for))]
fn line_for(place: f64, line: f64) -> Obstacle
    ensures { result ≡ line_for place line }
{
    if place <= line {
        Obstacle::RedLine(line)
    } else {
        Obstacle::OpenRoad
    }
}

// Where a vehicle stands after the step.
#[tactic(auto, unfolding(crate::specs::Step::place_moved_to, crate::specs::Step::target_of, crate::specs::Step::cut_to_lines, crate::specs::Step::furthest))]
fn move_one(vehicle: Vehicle, ahead: Obstacle, red_lines: &[f64], spacing: f64) -> f64
    ensures { result ≡ place_moved_to spacing vehicle ahead red_lines.now }
{
    let place = vehicle.place;
    let start = cut_to(ahead, spacing, place + vehicle.advance);
    let target = red_lines.iter().fold(start, |target, line| {
        cut_to(line_for(place, *line), spacing, target)
    });
    // Not `f64::max`, for the same reason as in `cut_at`.
    if place < target { target } else { place }
}

// Moves the vehicles, one after the other. A leader's last place is kept before it moves.
fn move_all(places: &mut [f64], advances: &[f64], red_lines: &[f64], spacing: f64)
    requires { length advances.now ≡ length places.old }
    ensures { places.new ≡ list (length places.old) (place_after places.old advances.now red_lines.now spacing) }
{
    let mut ahead = Obstacle::OpenRoad;
    // Not a `zip` with the advances: a proof knows nothing of an element that is written through
    // it.
    for (i, place) in places.iter_mut().enumerate() {
        let vehicle = Vehicle {
            place: *place,
            advance: advances[i],
        };
        *place = move_one(vehicle, ahead, red_lines, spacing);
        ahead = Obstacle::LeaderPlace(vehicle.place);
    }
}

// Whether a place or a line is finite and not beyond a million metres either way. A NaN and an
// infinity fail a comparison.
fn valid_place(x: f64) -> bool
    ensures { result ≡ valid_place x }
{
    (-MILLION..=MILLION).contains(&x)
}

// Whether an advance or a spacing is valid as a place is, and not negative.
#[tactic(auto, unfolding(crate::specs::Call::valid_distance))]
fn valid_distance(x: f64) -> bool
    ensures { result ≡ valid_distance x }
{
    valid_place(x) && !(x < 0.0)
}

// This and the next are functions, since `search` does not prove a chain of `all` in
// `check_values`.
fn valid_places(values: &[f64]) -> bool
    ensures { result ≡ list_all valid_place values.now }
{
    values.iter().copied().all(valid_place)
}

fn valid_distances(values: &[f64]) -> bool
    ensures { result ≡ list_all valid_distance values.now }
{
    values.iter().copied().all(valid_distance)
}

// Refusal 39, unless there are at most 64 vehicles and 64 lines, and one advance for each vehicle.
#[tactic(auto, unfolding(base_search::specs::Checks::checked, crate::specs::Call::valid_counts))]
fn check_counts(places: &[f64], advances: &[f64], red_lines: &[f64]) -> Result<(), Refusal>
    ensures { result ≡ checked (valid_counts places.now advances.now red_lines.now) 39 0 0 }
{
    let matched = advances.len() == places.len();
    let few = places.len() <= MAX_VEHICLES && red_lines.len() <= MAX_RED_LINES;
    checked(few && matched, Reason::VehicleCounts, 0, 0)
}

// Refusal 38, unless every place, advance and line and the spacing is valid.
#[tactic(auto, unfolding(base_search::specs::Checks::checked, crate::specs::Call::valid_values))]
fn check_values(
    places: &[f64],
    advances: &[f64],
    red_lines: &[f64],
    spacing: f64,
) -> Result<(), Refusal>
    ensures { result ≡ checked (valid_values places.now advances.now red_lines.now spacing) 38 0 0 }
{
    let valid_vehicles = valid_places(places) && valid_distances(advances);
    let valid_street = valid_places(red_lines) && valid_distance(spacing);
    checked(valid_vehicles && valid_street, Reason::VehicleValue, 0, 0)
}

// One step. The places are changed where nothing is refused, and kept where something is.
pub fn step_vehicles(
    places: &mut [f64],
    advances: &[f64],
    red_lines: &[f64],
    spacing: f64,
) -> Result<(), Refusal>
    ensures value { result ≡ step_vehicles places.old advances.now red_lines.now spacing }
    ensures places_after { places.new ≡ places_after places.old advances.now red_lines.now spacing }
    ensures step_keeps { StepKeeps places.old advances.now red_lines.now spacing result places.new }
{
    check_counts(places, advances, red_lines)?;
    check_values(places, advances, red_lines, spacing)?;
    move_all(places, advances, red_lines, spacing);
    Ok(())
}

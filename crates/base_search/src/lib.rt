// Refusals, and checks in order: the verdict is the refusal of the first check that is broken. The
// definition is in specs/, its laws are in proofs/: by them the calls and the labelled search of
// step_check are proved.
#![tactic(auto)]

ghost use Rattle.std.specs.Prelude.{◌≡◌, ◌<◌};
ghost use Rattle.base_search.specs.Checks.{refusal, checked};
ghost use Rattle.base_search.specs.Reasons.{reason_number};

// Why something is refused: the check that is broken. The rules of a step have enums of their own,
// in their crates.
#[derive(Clone, Copy, PartialEq, Eq)]
pub enum Reason {
    NetworkForm,
    Counts,
    Signal,
    Link,
    Movement,
    Step,
    Ledger,
    PlanForm,
    StateBoundary,
    StateLink,
    StateLedger,
    ListingLine,
    ListingVolume,
    PlanRoom,
    Tram,
    Past,
    CarryBoundary,
    CarriedRoom,
    SheetLine,
    SheetRun,
    SheetCycle,
    CorridorLine,
    CellStart,
    VehicleValue,
    VehicleCounts,
    SplitNetwork,
    SplitSignals,
    SplitRoom,
}

impl Reason {
    // The number in answers. A `match`, not discriminants: with these, the wrong program that gives
    // two reasons one number would not compile, and so would test no proof.
    pub fn number(self) -> u32
        ensures { result ≡ reason_number self }
    {
        match self {
            Reason::NetworkForm => 1,
            Reason::Counts => 2,
            Reason::Signal => 3,
            Reason::Link => 4,
            Reason::Movement => 5,
            Reason::Step => 6,
            Reason::Ledger => 8,
            Reason::PlanForm => 9,
            Reason::StateBoundary => 19,
            Reason::StateLink => 20,
            Reason::StateLedger => 21,
            Reason::ListingLine => 22,
            Reason::ListingVolume => 23,
            Reason::PlanRoom => 24,
            Reason::Tram => 28,
            Reason::Past => 30,
            Reason::CarryBoundary => 31,
            Reason::CarriedRoom => 32,
            Reason::SheetLine => 33,
            Reason::SheetRun => 34,
            Reason::SheetCycle => 35,
            Reason::CorridorLine => 36,
            Reason::CellStart => 37,
            Reason::VehicleValue => 38,
            Reason::VehicleCounts => 39,
            Reason::SplitNetwork => 40,
            Reason::SplitSignals => 41,
            Reason::SplitRoom => 42,
        }
    }

    // The refusal for this reason, at a line and an item.
    pub fn refusal(self, line: usize, item: usize) -> Refusal
        requires { (line < 4294967296) × (item < 4294967296) }
        ensures { result ≡ refusal (reason_number self) line item }
    {
        Refusal::new(self.number(), line, item)
    }
}

// A refusal: the number of the broken check, and the line and the item that it names, 0 for none.
// Line and item come from places in tables and have 32 bits in answers: `new` requires that they
// fit. The number is not a `Reason`: C callers and stored cases read a number, and the rules of a
// step, whose enums are in crates that use this one, have numbers too.
#[derive(Clone, Copy, PartialEq, Eq)]
pub struct Refusal {
    pub number: u32,
    pub line: u32,
    pub item: u32,
}

impl Refusal {
    pub fn new(number: u32, line: usize, item: usize) -> Self
        requires { (line < 4294967296) × (item < 4294967296) }
        ensures { result ≡ refusal number line item }
    {
        Self {
            number,
            line: line as u32,
            item: item as u32,
        }
    }
}

// Ok if a check holds; otherwise the refusal for this reason at this line and item.
pub fn checked(holds: bool, reason: Reason, line: usize, item: usize) -> Result<(), Refusal>
    requires { (line < 4294967296) × (item < 4294967296) }
    ensures { result ≡ checked holds (reason_number reason) line item }
{
    if holds {
        Ok(())
    } else {
        Err(reason.refusal(line, item))
    }
}

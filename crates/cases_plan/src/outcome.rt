// What a call gives, in the stored form.
ghost use Rattle.std.specs.Prelude.{◌≡◌};
ghost use Rattle.cases_plan.specs.Outcome.{refused_outcome, network_outcome, plan_outcome, link_outcome, text_outcome, kind_number, comparison_outcome};

use base_search::Refusal;
use model::{LinkState, Totals};
use plan_compare::{Comparison, ComparisonRefusal};
use std::fmt;
use std::fmt::Display;

// The kinds of outcomes, by their numbers in the stored form.
#[derive(Clone, Copy)]
pub enum Kind {
    NetworkAccepted,
    PlanAccepted,
    State,
    Refused,
    Written,
    Compared,
}

// The numbers are the totals, queued and in transit, the refusal's number, line, item and plan, the
// text's length, or order and gap; 0 where there is none. The kind is a number, so that a stored
// answer of a kind that no call gives can be printed.
#[derive(Clone, Copy, PartialEq)]
pub struct Outcome {
    pub kind: u32,
    pub first: u64,
    pub second: u64,
    pub third: u64,
    pub fourth: u64,
}

impl Display for Outcome {
    fn fmt<W: fmt::Write>(&self, f: &mut fmt::Formatter<W>) -> fmt::Result {
        write!(f, "\t{}\t{}\t{}", self.kind, self.first, self.second)?;
        write!(f, "\t{}\t{}", self.third, self.fourth)
    }
}

// The outcome of a kind that has no more than two numbers.
fn of_two(kind: Kind, first: u64, second: u64) -> Outcome
    ensures { result ≡ record { kind = kind_number kind; first = first; second = second; third = 0; fourth = 0 } }
{
    Outcome {
        kind: kind as u32,
        first,
        second,
        third: 0,
        fourth: 0,
    }
}

impl From<Refusal> for Outcome {
    ghost from_gives = { λ refusal outcome. outcome ≡ refused_outcome refusal };

    fn from(refusal: Refusal) -> Outcome {
        Outcome {
            kind: Kind::Refused as u32,
            first: u64::from(refusal.number),
            second: u64::from(refusal.line),
            third: u64::from(refusal.item),
            fourth: 0,
        }
    }
}

impl From<Result<(), Refusal>> for Outcome {
    ghost from_gives = { λ verdict outcome. outcome ≡ network_outcome verdict };

    fn from(verdict: Result<(), Refusal>) -> Outcome {
        match verdict {
            Ok(()) => of_two(Kind::NetworkAccepted, 0, 0),
            Err(refusal) => Outcome::from(refusal),
        }
    }
}

impl From<Result<Totals, Refusal>> for Outcome {
    ghost from_gives = { λ answer outcome. outcome ≡ plan_outcome answer };

    fn from(answer: Result<Totals, Refusal>) -> Outcome {
        match answer {
            Ok(totals) => Outcome {
                kind: Kind::PlanAccepted as u32,
                first: totals.admitted,
                second: totals.let_out,
                third: totals.inside,
                fourth: totals.doubled_time,
            },
            Err(refusal) => Outcome::from(refusal),
        }
    }
}

impl From<Result<LinkState, Refusal>> for Outcome {
    ghost from_gives = { λ answer outcome. outcome ≡ link_outcome answer };

    fn from(answer: Result<LinkState, Refusal>) -> Outcome {
        match answer {
            Ok(state) => of_two(
                Kind::State,
                u64::from(state.queued),
                u64::from(state.in_transit),
            ),
            Err(refusal) => Outcome::from(refusal),
        }
    }
}

impl From<Result<usize, Refusal>> for Outcome {
    ghost from_gives = { λ answer outcome. outcome ≡ text_outcome answer };

    fn from(answer: Result<usize, Refusal>) -> Outcome {
        match answer {
            Ok(length) => of_two(Kind::Written, length as u64, 0),
            Err(refusal) => Outcome::from(refusal),
        }
    }
}

impl From<Result<Comparison, ComparisonRefusal>> for Outcome {
    ghost from_gives = { λ answer outcome. outcome ≡ comparison_outcome answer };

    fn from(answer: Result<Comparison, ComparisonRefusal>) -> Outcome {
        match answer {
            Ok(Comparison { order, gap }) => {
                let number = u64::from(order.number());
                of_two(Kind::Compared, number, gap.cast_unsigned())
            }
            Err(not_compared) => Outcome {
                fourth: u64::from(not_compared.plan()),
                ..Outcome::from(not_compared.refusal())
            },
        }
    }
}

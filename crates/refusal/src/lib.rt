// The seventeen refusals, eleven of them with the place they tell of: a crate finds one, and `?` hands it on to the call.
#![tactic(auto)]

ghost use Rattle.std.specs.Prelude.{◌≡◌, ◌++◌, codes, decimal, Some};
ghost use Rattle.refusal.specs.Refusals.{number_of, place_of, NoneOf};

use std::fmt;

// Why a call is refused. Each case that can stand at more than one place tells where.
#[derive(Clone, Copy, PartialEq, Eq)]
pub enum Refusal {
    // the offset of a record whose length is missing, under 2 or past the end
    BrokenRecord(usize),
    // the offset of a record of another kind or length than due; 0 where labels that are offered are not as many as due
    OtherRecord(usize),
    // the number of contexts is outside 5 to 200
    ContextCount,
    // the lowest context whose ring has an entry that is no other context
    BadEntry(usize),
    // the lowest context whose ring repeats an entry
    RepeatedEntry(usize),
    // the lowest context with an unreturned entry
    OneSidedEntry(usize),
    // the number of entries is not 6n - 14
    EntryTotal,
    // the lowest border context whose ring is not as the border asks
    BadBorder(usize),
    // the lowest context that a dart of no face leaves
    BadFace(usize),
    // the lowest context that breaks the label rules
    BadLabels(usize),
    // no placement keeps the compass rules
    NoPlacement,
    // the chart record is not the chart
    OtherChart,
    // the sheet's stage is too early
    TooEarly,
    // the sweep is stuck
    SweepStuck,
    // the index of the first pair that is no inner edge, or was named before; or the count of whole pairs
    BadPair(usize),
    // the bytes that a short buffer would need
    ShortBuffer(usize),
    // the number of contexts, where one is asked for that is not below it
    NoSuchContext(usize),
}

impl Refusal {
    // The refusal's number, 1 to 17.
    pub fn number(self) -> u8
        ensures { result ≡ number_of self }
    {
        match self {
            Refusal::BrokenRecord(_) => 1,
            Refusal::OtherRecord(_) => 2,
            Refusal::ContextCount => 3,
            Refusal::BadEntry(_) => 4,
            Refusal::RepeatedEntry(_) => 5,
            Refusal::OneSidedEntry(_) => 6,
            Refusal::EntryTotal => 7,
            Refusal::BadBorder(_) => 8,
            Refusal::BadFace(_) => 9,
            Refusal::BadLabels(_) => 10,
            Refusal::NoPlacement => 11,
            Refusal::OtherChart => 12,
            Refusal::TooEarly => 13,
            Refusal::SweepStuck => 14,
            Refusal::BadPair(_) => 15,
            Refusal::ShortBuffer(_) => 16,
            Refusal::NoSuchContext(_) => 17,
        }
    }

    // The refusal's place; 0 where it has no other.
    pub fn place(self) -> usize
        ensures { result ≡ place_of self }
    {
        match self {
            Refusal::BrokenRecord(at) => at,
            Refusal::OtherRecord(at) => at,
            Refusal::ContextCount => 0,
            Refusal::BadEntry(at) => at,
            Refusal::RepeatedEntry(at) => at,
            Refusal::OneSidedEntry(at) => at,
            Refusal::EntryTotal => 0,
            Refusal::BadBorder(at) => at,
            Refusal::BadFace(at) => at,
            Refusal::BadLabels(at) => at,
            Refusal::NoPlacement => 0,
            Refusal::OtherChart => 0,
            Refusal::TooEarly => 0,
            Refusal::SweepStuck => 0,
            Refusal::BadPair(at) => at,
            Refusal::ShortBuffer(at) => at,
            Refusal::NoSuchContext(at) => at,
        }
    }
}

// No number below n passes a test; or the refusal of the lowest that does.
pub fn none_of<T: Fn(usize) -> bool, R: FnOnce(usize) -> Refusal>(
    n: usize,
    test: T,
    refuse: R,
) -> Result<(), Refusal>
    requires tests { T.IsAlwaysCallable test }
    requires refusals { R.IsAlwaysCallable refuse }
    ensures { NoneOf (T.post test) (R.post refuse) n result }
{
    match (0..n).find(|u| test(*u)) {
        Some(u) => Err(refuse(u)),
        None => Ok(()),
    }
}

// A refusal as it is written: its number and its place.
impl fmt::Display for Refusal {
    ghost output = { λ r. Some (codes "refused " ++ decimal (number_of r) ++ codes " at " ++ decimal (place_of r)) };

    fn fmt<W: fmt::Write>(&self, f: &mut fmt::Formatter<W>) -> fmt::Result {
        let number = self.number();
        let place = self.place();
        write!(f, "refused {number} at {place}")
    }
}

// The rings of a lent file, judged where they stand: rules 4, 5 and 6.
#![tactic(auto)]

mod located;

ghost use Rattle.std.specs.Prelude.{◌≡◌};
ghost use Rattle.model.specs.Outcome.{rule};
ghost use Rattle.model.specs.Plan.{bad_entry, bad_repeat, unreturned};
ghost use Rattle.refusal.specs.Refusals.{outcome_of};
ghost use Rattle.file_rings.specs.Plans.{plan_of_file};

use file_rings::FileRings;
use refusal::Refusal;

// 4: has u's ring an entry that is not below n, or is u itself?
fn bad_entry(rings: &FileRings, u: usize) -> bool
    ensures { result ≡ bad_entry (plan_of_file rings.now) u }
{
    (0..rings.size_of(u)).any(|i| {
        let v = rings.neighbour_at(u, i);
        rings.n <= v || v == u
    })
}

// Does u's ring repeat an entry? Each entry is looked for among those after it.
fn repeats_at(rings: &FileRings, u: usize) -> bool
    ensures { result ≡ bad_repeat (plan_of_file rings.now) u }
{
    (0..rings.size_of(u)).any(|i| rings.is_from(u, rings.neighbour_at(u, i), i + 1))
}

// 5: does u's ring repeat an entry? Each neighbour below 256 is marked; a ring that names another is searched.
fn bad_repeat(rings: &FileRings, u: usize) -> bool
    ensures { result ≡ bad_repeat (plan_of_file rings.now) u }
{
    let e = rings.size_of(u);
    let mut marks = [false; 256];
    for i in 0..e {
        let v = rings.neighbour_at(u, i);
        if 256 <= v {
            return repeats_at(rings, u);
        }
        if marks[v] {
            return true;
        }
        marks[v] = true;
    }
    false
}

// 4: each ring's entries are other contexts; refused at the lowest context whose ring has another entry.
pub fn rule4(rings: &FileRings) -> Result<(), Refusal>
    ensures { outcome_of result ≡ rule 4 rings.now.n (bad_entry (plan_of_file rings.now)) }
{
    refusal::none_of(rings.n, |u| bad_entry(rings, u), Refusal::BadEntry)
}

// 5: no ring repeats an entry; refused at the lowest context whose ring does.
pub fn rule5(rings: &FileRings) -> Result<(), Refusal>
    ensures { outcome_of result ≡ rule 5 rings.now.n (bad_repeat (plan_of_file rings.now)) }
{
    refusal::none_of(rings.n, |u| bad_repeat(rings, u), Refusal::RepeatedEntry)
}

// 6: each entry is returned; refused at the lowest context with one that is not. A table for few contexts is small.
pub fn rule6(rings: &FileRings) -> Result<(), Refusal>
    ensures { outcome_of result ≡ rule 6 rings.now.n (unreturned (plan_of_file rings.now)) }
{
    if rings.n <= rings::FEW_CONTEXTS {
        located::each_returned::<4000>(rings)
    } else if rings.n <= rings::SOME_CONTEXTS {
        located::each_returned::<12000>(rings)
    } else {
        located::each_returned::<40000>(rings)
    }
}

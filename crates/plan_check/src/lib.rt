// Is a plan in flat arrays sound, by its table of successors? A yes says that it keeps the rules 4, 5, 6, 8 and 9; a no says nothing.
#![tactic(auto)]

ghost use Rattle.std.specs.Prelude.{◌≡◌, true, ◌≤◌, ◌<◌, ◌^◌, map};
ghost use Rattle.lists.specs.Folds.{some_within};
ghost use Rattle.model.specs.Plan.{neighbour};
ghost use Rattle.rings.specs.Tables.{plan_of, table_of};
ghost use Rattle.ring_successors.specs.Successors.{note_rings};
ghost use Rattle.plan_check.specs.Sound.{unconfirmed, some_unconfirmed, has_unconfirmed, confirmed, sound};

use rings::{Rings, Table};
use std::ops::Range;

// By a table of successors, is the dart from u to v in doubt, where w stands before v in u's ring?
fn is_unconfirmed(table: &[u8], u: usize, w: usize, v: usize) -> bool
    requires { (u < 2 ^ 16) × (w < 2 ^ 16) × (v < 2 ^ 16) }
    ensures { result ≡ unconfirmed table.now u w v }
{
    if u == v {
        return true;
    }
    if arrays::number_at(table, 200 * v + u) == w + 1 {
        return false;
    }
    !faces::is_outer(u, v)
}

// By a table of successors, is some dart from u to these entries in doubt, where w stands before them in u's ring?
fn some_unconfirmed(table: &[u8], u: usize, w: usize, entries: &[u16]) -> bool
    requires { (u < 2 ^ 16) × (w < 2 ^ 16) }
    ensures { result ≡ some_unconfirmed table.now u w (map neighbour entries.now) }
{
    let mut before = w;
    for i in 0..entries.len() {
        let v = rings::neighbour_of(usize::from(entries[i]));
        if is_unconfirmed(table, u, before, v) {
            return true;
        }
        before = v;
    }
    false
}

// By a table of successors, is some dart that leaves u in doubt?
fn has_unconfirmed(table: &[u8], rings: &Rings, u: usize) -> bool
    requires { u < 200 }
    ensures { result ≡ has_unconfirmed table.now (plan_of rings.now) u }
{
    let Range { start, end } = rings.span(u);
    let mut before = rings::neighbour_of(arrays::number_at(rings.entries, end.saturating_sub(1)));
    if let Some(entries) = rings.entries.get(start..end) {
        return some_unconfirmed(table, u, before, entries);
    }
    for i in start..end {
        let v = rings::neighbour_of(arrays::number_at(rings.entries, i));
        if is_unconfirmed(table, u, before, v) {
            return true;
        }
        before = v;
    }
    false
}

// By a table of successors, is some dart in doubt?
fn any_unconfirmed(table: &[u8], rings: &Rings) -> bool
    requires { rings.now.n ≤ 200 }
    ensures { result ≡ some_within (has_unconfirmed table.now (plan_of rings.now)) 0 rings.now.n }
{
    for u in 0..rings.n {
        if has_unconfirmed(table, rings, u) {
            return true;
        }
    }
    false
}

// By the table of successors that is made of a table of zeros, has every entry a cell of its own, and is no dart in doubt?
fn is_confirmed(table: &mut [u8], rings: &Rings) -> bool
    requires { rings.now.n ≤ 200 }
    ensures { result ≡ confirmed (note_rings (plan_of rings.now) (table.old, true)) (plan_of rings.now) }
{
    ring_successors::fill(table, rings) && !any_unconfirmed(table, rings)
}

// Is the plan that the rings hold sound? A small plan has a small table.
fn is_sound_from(rings: &Rings) -> bool
    ensures { result ≡ sound (plan_of rings.now) }
{
    if 200 < rings.n {
        return false;
    }
    if faces::rule8(rings).is_err() {
        return false;
    }
    if rings.n <= rings::FEW_CONTEXTS {
        let mut table = [0u8; 4000];
        return is_confirmed(&mut table, rings);
    }
    if rings.n <= rings::SOME_CONTEXTS {
        let mut table = [0u8; 12000];
        return is_confirmed(&mut table, rings);
    }
    let mut table = [0u8; 40000];
    is_confirmed(&mut table, rings)
}

// Is the plan sound?
pub fn is_sound(plan: &Table) -> bool
    ensures { result ≡ sound (table_of plan.now) }
{
    let starts = rings::starts_of(plan.sizes);
    is_sound_from(&plan.rings(&starts))
}

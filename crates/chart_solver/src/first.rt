// The first pass: numbers raised from 0 in an order in which each constraint comes after those on its lower number, so that where constraints make no circle one pass settles all numbers. Any order is right.
ghost use Rattle.std.specs.Prelude.{◌<◌, ◌≤◌};
ghost use Rattle.chart_solver.specs.Relaxing.{RaisedIn};

use crate::{Constraint, System};

// The order of the first pass: the constraints in chains by their lower numbers, and the numbers that wait for no constraint. A cell of a chain holds one more than a constraint's index, or 0 for none.
#[derive(Drop)]
struct Order<const N: usize> {
    // the first constraint from each number
    pub first: [u16; 200],
    // the constraint after each
    pub next: [u16; N],
    // for how many constraints each number still waits
    pub waits: [u16; 200],
    // the numbers that wait for none, as they are taken
    pub ready: [u16; 200],
}

impl<const N: usize> Order<N> {
    // Puts constraint k before those that stand in chains so far.
    fn chain(&mut self, k: usize, constraint: &Constraint)
        requires { k < 1188 }
    {
        let low = usize::from(constraint.low);
        let high = usize::from(constraint.high);
        arrays::put(&mut self.next, k, arrays::at(&self.first, low));
        arrays::put(&mut self.first, low, (k + 1) as u16);
        let wait = arrays::at(&self.waits, high).wrapping_add(1);
        arrays::put(&mut self.waits, high, wait);
    }

    // Chains the constraints, the first 1188 at most.
    fn chain_all(&mut self, constraints: &[Constraint]) {
        for k in (0..constraints.len().min(1188)).rev() {
            self.chain(k, &constraints[k]);
        }
    }

    // Puts a number behind those that are ready, so many. How many there are then: one more where it waits for no constraint.
    fn join(&mut self, count: usize, number: u16, wait: u16) -> usize {
        arrays::put(&mut self.ready, count, number);
        count.wrapping_add(usize::from(wait == 0))
    }

    // The numbers below n, the first 200 at most, that no constraint is on are ready. How many there are.
    fn line_up(&mut self, n: usize) -> usize {
        let mut count = 0;
        for u in 0..n.min(200) {
            let wait = arrays::at(&self.waits, u);
            count = self.join(count, u as u16, wait);
        }
        count
    }

    // Lets a number wait for one constraint less: it is ready where that was the last.
    fn release(&mut self, count: usize, number: u16) -> usize {
        let at = usize::from(number);
        let wait = arrays::at(&self.waits, at).wrapping_sub(1);
        arrays::put(&mut self.waits, at, wait);
        self.join(count, number, wait)
    }

    // Takes constraints in so many steps at most, beginning with those of the numbers that are ready, so many.
    fn follow(&mut self, system: &System, at: &mut [u16; 200], ready: usize, steps: usize)
        requires { RaisedIn system.now at.old }
        ensures { RaisedIn system.now at.new }
    {
        let mut count = ready;
        let mut taken = 0;
        let mut cell: usize = 0;
        for _ in 0..steps {
            if taken > count {
                return;
            }
            let k = cell.wrapping_sub(1);
            if let Some(constraint) = system.constraints.get(k) {
                system.lift(at, k);
                count = self.release(count, constraint.high);
            }
            cell = arrays::number_at(&self.next, k);
            if cell == 0 {
                cell = arrays::number_at(&self.first, arrays::number_at(&self.ready, taken));
                taken = taken.wrapping_add(1);
            }
        }
    }
}

// Raises numbers in the first pass, with room for N constraints in chains. The first two constraints, a tie, wait for each other, and are taken last.
fn ordered<const N: usize>(system: &System, at: &mut [u16; 200])
    requires room { N ≤ 1188 }
    requires raised { RaisedIn system.now at.old }
    ensures { RaisedIn system.now at.new }
{
    let mut order = Order::<N> {
        first: [0; 200],
        next: [0; N],
        waits: [0; 200],
        ready: [0; 200],
    };
    order.chain_all(system.constraints);
    let ready = order.line_up(system.n);
    let steps = system.constraints.len().min(1188) + 200;
    order.follow(system, at, ready, steps);
    system.lift(at, 0);
    system.lift(at, 1);
}

// Raises numbers in the first pass. Few constraints take short chains, which are sooner made.
pub(crate) fn first_pass(system: &System, at: &mut [u16; 200])
    requires { RaisedIn system.now at.old }
    ensures { RaisedIn system.now at.new }
{
    if system.constraints.len() <= 128 {
        ordered::<128>(system, at);
    } else {
        ordered::<1188>(system, at);
    }
}

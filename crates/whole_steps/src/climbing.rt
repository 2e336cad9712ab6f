//! Steps along slopes that are turned away from what the step before undid (Camerini, Fratta and Maffioli, Mathematical
//! Programming Study 3, 1975): they come nearer to the best bound than smoothed ones, and tell nothing of shares.
ghost use Rattle.std.specs.Prelude.{◌≡◌, length};

use crate::WholeSteps;
use dual_steps::customer::{Customer, FLAT, between, recall_values};

// How much of the old direction stays, where it doesn't lead back.
const STAYS: f64 = 0.5;

// After so many steps without a gain they go on from the best duals, shorter by this factor.
const MISSES: u32 = 8;

const SHORTER: f64 = 0.7;

// Steps end where they have become so short.
const LEAST: f64 = 0.001;

impl WholeSteps {
    /// Takes turned steps from the best duals towards a bound of `target` millionths, up to so many.
    pub fn climb(&mut self, target: f64, steps: u32)
        ensures { self.new ≡ self.old }
    {
        let mut length = 1.0;
        let mut missed = MISSES;
        for _step in 0..steps {
            if self.progress.reaches(target) || length < LEAST {
                return;
            }
            if missed >= MISSES {
                self.go_back();
                missed = 0;
            }
            let squares = turn(&mut self.customers);
            if squares < FLAT {
                return;
            }
            let stride = length * (target - self.progress.last_bound()) / squares;
            step_on(&mut self.customers, stride);
            self.evaluate();
            if self.keep_better() {
                missed = 0;
                continue;
            }
            missed = missed.saturating_add(1);
            if missed >= MISSES {
                length *= SHORTER;
            }
        }
    }

    // Goes back to the best duals, without a direction.
    fn go_back(&mut self)
        ensures { self.new ≡ self.old }
    {
        recall_values(&mut self.customers);
        forget(&mut self.customers);
        self.evaluate();
    }
}

fn forget(customers: &mut [Customer])
    ensures { length customers.new ≡ length customers.old }
{
    for j in 0..customers.len() {
        customers[j].kept = 0.0;
    }
}

// Turns the direction. The answer is the sum of its squares.
fn turn(customers: &mut [Customer]) -> f64
    ensures { length customers.new ≡ length customers.old }
{
    let stays = share_that_stays(customers);
    let mut squares = 0.0;
    for j in 0..customers.len() {
        let turned = customers[j].slope + stays * customers[j].kept;
        customers[j].kept = turned;
        squares += turned * turned;
    }
    squares
}

fn share_that_stays(customers: &[Customer]) -> f64 {
    let mut mixed = 0.0;
    let mut squares = 0.0;
    for j in 0..customers.len() {
        mixed += customers[j].slope * customers[j].kept;
        squares += customers[j].kept * customers[j].kept;
    }
    if mixed >= 0.0 || squares < FLAT {
        return STAYS;
    }
    (-1.5 * mixed / squares).min(1.0)
}

fn step_on(customers: &mut [Customer], stride: f64)
    ensures { length customers.new ≡ length customers.old }
{
    for j in 0..customers.len() {
        let one = customers[j];
        customers[j].value = between(one.value + stride * one.kept, one.least, one.most);
    }
}

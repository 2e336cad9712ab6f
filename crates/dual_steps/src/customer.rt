//! What steps know of each customer, and sums over all of them.
ghost use Rattle.std.specs.Prelude.{◌≡◌, ◌<◌, length};

/// The numbers of a customer, in millionths.
#[derive(Clone, Copy)]
pub struct Customer {
    /// The dual that is evaluated.
    pub value: f64,
    /// How many lanes it pays: the cheapest ones.
    pub paid: usize,
    /// The dual of the best evaluation.
    pub best: f64,
    /// By how much the bound rises with the dual: 1 less the number of sites that it pays.
    pub slope: f64,
    /// The slopes of earlier evaluations, smoothed.
    pub smooth: f64,
    /// The direction of a step to a known cost, or a dual that is kept meanwhile.
    pub kept: f64,
    /// The least dual that makes sense, and the greatest.
    pub least: f64,
    pub most: f64,
    /// The same with the plan that is referred to.
    pub low: f64,
    pub high: f64,
}

/// A customer whose duals make sense between these two.
pub fn customer_between(least: f64, most: f64) -> Customer {
    Customer {
        value: least,
        paid: 0,
        best: least,
        slope: 1.0,
        smooth: 1.0,
        kept: 0.0,
        least,
        most,
        low: least,
        high: most,
    }
}

/// Puts a number between two others.
pub fn between(x: f64, low: f64, high: f64) -> f64 {
    if x < low {
        low
    } else if high < x {
        high
    } else {
        x
    }
}

/// Takes the duals that are evaluated as the best.
pub fn keep_values(customers: &mut [Customer])
    ensures { length customers.new ≡ length customers.old }
{
    for j in 0..customers.len() {
        customers[j].best = customers[j].value;
    }
}

/// Goes back to the best duals.
pub fn recall_values(customers: &mut [Customer])
    ensures { length customers.new ≡ length customers.old }
{
    for j in 0..customers.len() {
        customers[j].value = customers[j].best;
    }
}

/// Takes the duals that were kept as the best.
pub(crate) fn recall_kept(customers: &mut [Customer])
    ensures { length customers.new ≡ length customers.old }
{
    for j in 0..customers.len() {
        customers[j].best = customers[j].kept;
    }
}

/// Goes back to the best duals, put between those that the plan suggests.
pub fn recall_within(customers: &mut [Customer])
    ensures { length customers.new ≡ length customers.old }
{
    for j in 0..customers.len() {
        let one = customers[j];
        customers[j].value = between(one.best, one.low, one.high);
        customers[j].kept = 0.0;
    }
}

/// The least sum of squares of slopes that counts.
pub const FLAT: f64 = 0.000001;

/// Takes the slopes as the smoothed ones.
pub fn restart_smooth(customers: &mut [Customer])
    ensures { length customers.new ≡ length customers.old }
{
    for j in 0..customers.len() {
        customers[j].smooth = customers[j].slope;
    }
}

/// Takes these as the smoothed slopes, by place.
pub(crate) fn resume_smooth(slopes: &[f64], customers: &mut [Customer])
    ensures { length customers.new ≡ length customers.old }
{
    for j in 0..customers.len() {
        if j < slopes.len() {
            customers[j].smooth = slopes[j];
        }
    }
}

/// Writes down the smoothed slopes, by place.
pub(crate) fn fill_smooth(customers: &[Customer], slopes: &mut [f64])
    ensures { length slopes.new ≡ length slopes.old }
{
    for j in 0..slopes.len() {
        if j < customers.len() {
            slopes[j] = customers[j].smooth;
        }
    }
}

/// Sums of products of slopes and smoothed slopes.
#[derive(Clone, Copy)]
pub struct Products {
    pub smooth: f64,
    pub mixed: f64,
    pub slope: f64,
}

pub fn slope_products(customers: &[Customer]) -> Products {
    let mut smooth = 0.0;
    let mut mixed = 0.0;
    let mut slope = 0.0;
    for j in 0..customers.len() {
        let one = customers[j];
        smooth += one.smooth * one.smooth;
        mixed += one.smooth * one.slope;
        slope += one.slope * one.slope;
    }
    Products {
        smooth,
        mixed,
        slope,
    }
}

/// The sum of the squares of the smoothed slopes; where they are near 0 the last slopes are taken as these.
pub fn smooth_norm(customers: &mut [Customer]) -> f64
    ensures { length customers.new ≡ length customers.old }
{
    let norm = slope_products(customers).smooth;
    if norm >= FLAT {
        return norm;
    }
    restart_smooth(customers);
    slope_products(customers).smooth
}

/// The weight of new slopes with which the mix is shortest, within a tenth of the greatest.
pub fn mixing_weight(sums: Products, most: f64) -> f64 {
    let apart = sums.smooth - 2.0 * sums.mixed + sums.slope;
    if apart < FLAT {
        return most;
    }
    ((sums.smooth - sums.mixed) / apart)
        .max(most / 10.0)
        .min(most)
}

/// Steps from the best duals along the smoothed slopes.
pub fn step_smoothly(customers: &mut [Customer], stride: f64)
    ensures { length customers.new ≡ length customers.old }
{
    for j in 0..customers.len() {
        let one = customers[j];
        customers[j].value = between(one.best + stride * one.smooth, one.least, one.most);
    }
}

/// Mixes so much of the slopes into the smoothed ones.
pub fn smooth_slopes(customers: &mut [Customer], weight: f64)
    ensures { length customers.new ≡ length customers.old }
{
    for j in 0..customers.len() {
        let one = customers[j];
        customers[j].smooth = one.smooth + weight * (one.slope - one.smooth);
    }
}

/// Turns the direction towards the slopes, away from what the last step undid. The answer is the sum of
/// the squares of the new direction.
pub fn turn(customers: &mut [Customer]) -> f64
    ensures { length customers.new ≡ length customers.old }
{
    let back = back_share(customers);
    let mut squares = 0.0;
    for j in 0..customers.len() {
        let one = customers[j];
        let turned = one.slope + back * one.kept;
        customers[j].kept = turned;
        squares += turned * turned;
    }
    squares
}

// How much of the old direction stays.
fn back_share(customers: &[Customer]) -> f64 {
    let mut mixed = 0.0;
    let mut squares = 0.0;
    for j in 0..customers.len() {
        let one = customers[j];
        mixed += one.slope * one.kept;
        squares += one.kept * one.kept;
    }
    if squares < FLAT || mixed > 0.0 {
        return 0.0;
    }
    -1.5 * mixed / squares
}

/// Steps from the duals along the direction.
pub fn step_ahead(customers: &mut [Customer], stride: f64)
    ensures { length customers.new ≡ length customers.old }
{
    for j in 0..customers.len() {
        let one = customers[j];
        customers[j].value = between(one.value + stride * one.kept, one.low, one.high);
    }
}

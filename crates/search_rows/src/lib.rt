//! Rows over the crates that judge, raise duals and seek plans: what is found on small instances. There is
//! nothing here but tests, which in a crate of their own are proved without those crates.
#![tactic(auto)]

#[cfg(test)]
mod adjustments;
#[cfg(test)]
mod ascents;
#[cfg(test)]
mod assignments;
#[cfg(test)]
mod judging;
#[cfg(test)]
mod plans;
#[cfg(test)]
mod prices;
#[cfg(test)]
mod reports;
#[cfg(test)]
mod sets;
#[cfg(test)]
mod steps;
#[cfg(test)]
mod walks;

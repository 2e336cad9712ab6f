//! The terms of warehouse location: instances, plans, what is feasible and optimal, boxes of
//! decisions and their dual bounds, trees of boxes and certificates. The definitions are in `specs/`;
//! here are the plain types that they speak of, the limits, and the laws that hold of the definitions
//! alone.
#![tactic(auto)]

mod claim;
mod decision;
mod form;
mod ids;
mod laws;
mod limits;
mod split;
mod status;
mod trees;

pub use claim::Claim;
pub use decision::Decision;
pub use form::LeafForm;
pub use ids::{CustId, SiteId};
pub use laws::weak_duality;
pub use limits::{
    MAX_AMOUNT, MAX_COST, MAX_CUSTOMERS, MAX_ID, MAX_LANES, MAX_MULTIPLIER, MAX_SCALE, MAX_SITES,
    MAX_TAME, MAX_UNITS, MAX_VALUE,
};
pub use split::Split;
pub use status::SiteStatus;
pub use trees::{acceptance, covering, tree_shows};

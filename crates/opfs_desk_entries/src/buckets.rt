//! estimate, and a persist that makes a bucket persistent, under the turn. An estimate only tells; the change of a persist is kept
//! back in memory, and is committed with the next content, eviction or end, or with the 64th that is kept back.
mod entering;
mod estimating;
mod granting;

pub use estimating::act_estimate;
pub use granting::act_persist;

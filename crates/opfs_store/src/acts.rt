//! What one shared call does: what it asks of its caller, and what it leaves. The store under the agents serves it, and
//! the agents make it.
mod acted;
mod store;

pub use acted::{Acted, AwaitState, Gift};
pub use store::Store;

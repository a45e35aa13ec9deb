//! Shared calls that neither store anything nor use the pages of a row.
mod modes;
mod next;
mod refused;
mod telling;
mod told;

pub use modes::act_persisted;
pub use next::act_next;
pub use refused::act_refused;
pub use telling::{tell, telling_laws};
pub use told::act_done;

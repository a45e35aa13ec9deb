//! Whole calls on the pages of an open row: what they put is planned and read, gets blocks, and is written; and the working
//! copy that they leave.
mod after;
mod call;
mod content;
mod find;
mod leave;
mod opening;
mod plan;
mod reads;

pub use after::{after_flush, after_size, after_write};
pub use call::{Planned, plan_call};
pub use content::collect_blocks;
pub use find::find_blocks;
pub use leave::{bring_near, page_after};
pub use opening::open_row;
pub use plan::plan_put;
pub use reads::{read_handle, read_row};

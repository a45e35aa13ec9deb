//! One JSON text as an image: what bytes read as, and an image that stands for it.
mod fault;
mod following;
mod forms;
mod laying;
mod members;
mod planning;
mod reading;
mod rows;
mod stop;
mod sums;
mod top;
mod units;

pub use laying::lay;
pub use reading::read_dump;
pub use stop::LayStop;

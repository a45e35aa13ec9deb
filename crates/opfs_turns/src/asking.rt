//! How an agent asks: calls under the turn, and calls that need only what is the agent's own, over any store that serves
//! shared calls.
mod asking;
mod keeping;
mod stop;

pub use asking::{
    answer, ask, ask_bytes, ask_done, ask_estimate, ask_flag, ask_length, ask_past, ask_row,
    ask_work,
};
pub use keeping::{keep_call, keep_refusal};
pub use stop::Stop;

//! A shared call over the parts of the shared store, whatever it is: it is judged, made ready, and acted by the function of its kind.
mod acting;
mod calling;
mod kinds;

pub(crate) use calling::cancel;
pub use calling::{AskedCall, act_call};

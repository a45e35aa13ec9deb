//! Calls that store a row's content: the close of a stream, and the flush and the close of an access handle that may write.
mod leaving;
mod pages;
mod storing;

pub use storing::act_content;

// Lines of hexadecimal digits, the frames that they stand for, and the requests and replies in frames.
#![tactic(auto)]

mod digits;
pub mod examples;
pub mod fault;
pub mod frame;
mod kinds;
pub mod line;
mod message;
pub mod reader;
pub mod reply;
pub mod request;
mod rows;
#[cfg(test)]
mod tests;
pub mod writer;

pub use fault::{FrameFault, Layer, LineFault};
pub use frame::Frame;
pub use line::{Line, characters};
pub use reader::{read_reply, read_request};
pub use reply::{Reply, ReplyKind, refusal};
pub use request::{Request, RequestKind};
pub use writer::{write_reply, write_request};

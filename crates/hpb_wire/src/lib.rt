//! Lines of text: reading requests, writing responses, and the line for a terminal beside a refusal, with the number
//! that would do.
#![tactic(auto)]

mod byte_map;
mod cut;
mod decimal;
mod line;
mod number;
mod pieces;
mod reading;
mod reasons;
mod refusals;
mod response;
mod room;
mod senders;
mod text;
mod views;
mod word;
mod writing;

pub use line::{FrontRequest, parse_front, parse_line};
pub use reasons::{Reason, reason_of};
pub use response::Response;
pub use text::{RESPONSE_BYTES, ResponseText};
pub use views::{node, show, who};

#[cfg(test)]
mod tests;

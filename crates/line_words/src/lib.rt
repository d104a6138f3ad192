//! Lines of text, their words, and the numbers and bytes that words spell.
//!
//! ```
//! let (name, fields) = cut_word(b"submit 3 6869")?;                // None: the line has one word
//! let (queue, payload) = cut_word(fields)?;
//! assert!(is_word(name, "submit") && number(queue) == Some(3));
//! let payload = bytes(alloc, payload)?;                            // b"hi"; None: it isn't hex
//! ```
#![tactic(auto)]

mod digits;
mod laws;
mod lines;
mod places;
mod reading;

pub use digits::decode_pairs;
pub use laws::numbers;
pub use lines::{LineFault, bytes, cut_line, line_numbered, push_bytes};
pub use reading::{cut_word, first_word, is_word, number};

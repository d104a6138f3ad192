//! A node that is asked by lines of text and answers by lines. A session is a value: it is fed with bytes, however they are cut, and its
//! text is what is to be written.
//!
//! ```
//! let mut session = Session::new(alloc, id, nodes, disk, TimerSettings::measured(50), seed);
//! session.feed(b"recover\nsubmit 3 68")?;                          // answers the first line, and keeps the rest
//! session.feed(b"69\n")?;
//! output.write_all(session.text())?;                               // what changed, and a closing line for each: ok 1, ok 2 id 0
//! session.clear();
//! ```
#![tactic(auto)]

mod asked;
mod call_outcome;
mod changes;
mod closing;
mod due;
mod fired;
mod laws;
mod sealing_keys;
mod seals;
mod sending;
mod session;
mod showing;
mod timers;
mod unread;

pub use asked::{Asked, Unsealed, read_line};
pub use laws::{
    any_clearing, any_cutting, any_taking, at_once_is_fed, begins_anywhere, begun_history,
    device_where_failed, exhausted_where_none_left, lives_follow, no_stamp_twice, one_history,
    opened_alone, own_life_alone, sends_sealed, stops_where_failed, taken_rises, told_life_alone,
};
pub use seals::Seal;
pub use session::Session;

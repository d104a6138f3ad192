//! The words in which texts tell of a node: its phase, its group, its messages, what it was asked and why it refused; each is added to what
//! stands there.
//!
//! ```
//! push_text(&mut text, phase_word(vector.group_state.phase))?;     // Normal
//! push_group_part(&mut text, &vector)?;                            //  coord 2 group 2:7
//! push_text(&mut text, kind_word(message.body()))?;                // ReadyAck
//! push_ids(&mut text, vector.members())?;                          // 0,1,2; a dash for none
//! ```
#![tactic(auto)]

mod words;

pub use words::{
    event_word, kind_word, phase_word, push_answer, push_core_fault, push_group, push_group_part,
    push_id, push_ids, push_named, push_truth, push_work_of,
};

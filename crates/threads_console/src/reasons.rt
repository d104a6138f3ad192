//! What is wrong with plans that can't be read, as standard error says it.

ghost use Rattle.std.specs.Prelude.{◌≡◌, ◌≤◌, ◌++◌, IfOk, MatchOption, None, OnOk, Some, codes, decimal, drop};
ghost use Rattle.group_task.specs.declared.node.TheConstants.{NODES};
ghost use Rattle.line_words.specs.Lines.{lines_of};
ghost use Rattle.line_words.specs.Words.{first_word, words_of};
ghost use Rattle.console_text.specs.Ends.{printout_of, refused};
ghost use Rattle.console_text.specs.Reasons.{line_head};
ghost use Rattle.threads_console.specs.Reasons.{flaw_at, no_such, order_flaw, order_form, script_flaw, timer_flaw, turn_flaw, worker_flaw};

use crate::fields::member;
use crate::lines::Lines;
use crate::reading::capacity;
use console_text::{CommandError, bad_line, line_reason, push_text, push_unknown};
use line_words::{cut_word, first_word, is_word, line_numbered};
use node_core::Timer;
use schedule::cluster_size;
use std::alloc::{AllocError, Global};

/// What is printed for plans of which the line of this number can't be read, where it is known that it is the first such line.
pub fn bad_plans(alloc: Global, input: &[u8], number: u64) -> Result<CommandError, AllocError>
    ensures printed { IfOk result (λ explained. printout_of explained.printout ≡ refused (codes "bad line " ++ decimal number)) }
    ensures why { IfOk result (λ explained. explained.why.items ≡ line_head number ++ flaw_at number (lines_of input.now)) }
{
    let mut why = line_reason(alloc, number)?;
    let mut lines = Lines::new(input);
    push_flaw(&mut why, &mut lines, line_numbered(input, number))?;
    Ok(CommandError {
        printout: bad_line(alloc, number)?,
        why,
    })
}

/// Adds what is wrong with plans of these lines, of which this one is the first that can't be read.
fn push_flaw(text: &mut Vec<u8>, lines: &mut Lines<'_>, line: &[u8]) -> Result<(), AllocError>
    ensures { OnOk result (text.new.items ≡ text.old.items ++ script_flaw lines.old.lines line.now) }
{
    let Ok((_, first)) = lines.next() else {
        return push_text(text, "there is no line cluster NODES SLOTS");
    };
    let Some(cluster) = cluster_size(first) else {
        return push_text(text, "not of the form cluster NODES SLOTS");
    };
    let Ok((_, second)) = lines.next() else {
        return push_text(text, "there is no line links CAPACITY");
    };
    match capacity(second) {
        Some(_) => push_turn_flaw(text, cluster.nodes, line),
        None => push_text(text, "not of the form links CAPACITY"),
    }
}

/// Adds what is wrong with a line that is no turn in a cluster of so many nodes.
fn push_turn_flaw(text: &mut Vec<u8>, nodes: u8, line: &[u8]) -> Result<(), AllocError>
    requires { nodes ≤ NODES }
    ensures { OnOk result (text.new.items ≡ text.old.items ++ turn_flaw nodes (words_of line.now)) }
{
    let node = first_word(line);
    if member(nodes, node).is_none() {
        return push_no_such(text, "node", node);
    }
    match cut_word(line) {
        Some((_, more)) => push_worker_flaw(text, first_word(more), second_word(more)),
        None => push_no_such(text, "worker", &[]),
    }
}

/// The second word of a line. An empty one stands for one that isn't there.
fn second_word(line: &[u8]) -> &[u8]
    ensures { result.now ≡ first_word (drop 1 (words_of line.now)) }
{
    match cut_word(line) {
        Some((_, more)) => first_word(more),
        None => &[],
    }
}

/// Adds what is wrong with a turn of the worker of this name, with this word behind it.
fn push_worker_flaw(text: &mut Vec<u8>, worker: &[u8], word: &[u8]) -> Result<(), AllocError>
    ensures { OnOk result (text.new.items ≡ text.old.items ++ worker_flaw worker.now word.now) }
{
    if is_word(worker, "intake") {
        push_text(text, "not of the form N intake J, where J is another node")
    } else if is_word(worker, "clock") {
        push_timer_flaw(text, word)
    } else if is_word(worker, "operator") {
        push_order_flaw(text, word)
    } else {
        push_no_such(text, "worker", worker)
    }
}

fn push_timer_flaw(text: &mut Vec<u8>, name: &[u8]) -> Result<(), AllocError>
    ensures { OnOk result (text.new.items ≡ text.old.items ++ timer_flaw name.now) }
{
    match Timer::from_word(name) {
        Some(_) => push_text(text, "not of the form N clock TIMER"),
        None => push_no_such(text, "timer", name),
    }
}

fn push_order_flaw(text: &mut Vec<u8>, name: &[u8]) -> Result<(), AllocError>
    ensures { OnOk result (text.new.items ≡ text.old.items ++ order_flaw name.now (order_form name.now)) }
{
    match order_form(name) {
        Some(form) => {
            push_text(text, "not of the form ")?;
            push_text(text, form)
        }
        None => push_no_such(text, "order", name),
    }
}

/// How an order of this name is written.
fn order_form(name: &[u8]) -> Option<&'static str>
    ensures { MatchOption result (order_form name.now ≡ None) (λ form. order_form name.now ≡ Some form.now) }
{
    if is_word(name, "submit") {
        Some("N operator submit QUEUE HEX [P]")
    } else if is_word(name, "finish") {
        Some("N operator finish ORIGIN ID")
    } else if is_word(name, "arm") {
        Some("N operator arm K")
    } else if is_word(name, "crash") {
        Some("N operator crash [HEX]")
    } else if is_word(name, "recover") {
        Some("N operator recover")
    } else {
        None
    }
}

/// Adds that nothing of this kind is named by the word. An empty one stands for one that isn't there.
fn push_no_such(text: &mut Vec<u8>, kind: &str, word: &[u8]) -> Result<(), AllocError>
    ensures { OnOk result (text.new.items ≡ text.old.items ++ no_such kind.now word.now) }
{
    if word.is_empty() {
        push_text(text, "no ")?;
        push_text(text, kind)?;
        return push_text(text, " is named");
    }
    push_text(text, "no such ")?;
    push_text(text, kind)?;
    push_unknown(text, ": ", word)
}

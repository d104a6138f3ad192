//! The command line of the program `invite`, and the commands of a node: `format` makes its file, and `node` serves it over that, lines in and
//! lines out. The other commands are those of `invite_console`, `store_console`, `trace_console` and `threads_console`, over
//! standard input and output.
//!
//! It stands apart from the program, since a program is proved over the code of all that it reaches, and a library over the interfaces
//! of what it uses.
#![tactic(auto)]

mod asking;
mod commands;
mod invocation;
mod keys;
mod label;
mod labelled;
mod lease_label;
mod lease_store;
mod leasing;
mod making;
mod mistake;
mod obeying;
mod parsing;
mod performing;
mod reading;
mod readying;
mod reasons;
mod serving;
mod status;
mod watching;

use commands::command;
use console_text::Sink;
use obeying::carry_out;
use parsing::read_words;
use reasons::{Reason, explain};
use status::UNREADABLE;
use std::fs::File;
use std::io;
use std::io::ErrorKind;
use std::process::ExitCode;
use std::sync::Wait;
use std::thread::Threads;

/// Runs the command that the words of the command line name, and answers the exit status. `threads` starts the threads of the
/// command `threads`.
pub fn run<T: Threads + Wait + Sync>(rt: &HostRuntime, threads: &T) -> ExitCode {
    match obey(rt, threads) {
        Ok(status) => ExitCode::from(status),
        Err(error) => failed(rt, &error),
    }
}

/// Want of memory is printed as the commands print it, and any other error on standard error.
fn failed(rt: &HostRuntime, error: &io::Error) -> ExitCode {
    if error.kind() == ErrorKind::OutOfMemory {
        let _ = rt.println("no memory");
        let _ = explain(&mut rt.stderr(), Reason::NoMemory);
    } else {
        let _ = eprintln!(rt; "invite: {error}");
    }
    ExitCode::FAILURE
}

/// Runs the command, and answers its exit status. The command line is judged before any input is read.
fn obey<T: Threads + Wait + Sync>(rt: &HostRuntime, threads: &T) -> io::Result<u8> {
    let _held = [null(rt)?, null(rt)?, null(rt)?];
    let Some(words) = words(rt)? else {
        return Ok(UNREADABLE);
    };
    let command = command(rt.alloc())?;
    match read_words(rt.alloc(), command, words.as_slice(), &mut rt.stdout())? {
        Ok(invocation) => carry_out(
            rt,
            threads,
            rt.alloc(),
            &invocation,
            &mut rt.stdin(),
            &mut Sink::new(rt.stdout()),
            &mut rt.stderr(),
        ),
        Err(status) => Ok(status),
    }
}

/// Takes the number of a standard stream that the caller left closed, if there is one: a file that was opened in its place would be read as
/// the input, or written over by the output. Here an input ends at once, and a write fails.
fn null(rt: &HostRuntime) -> io::Result<File> {
    File::open(rt, "/dev/null")
}

/// The words of the command line. Where one of them isn't UTF-8, says so.
fn words(rt: &HostRuntime) -> io::Result<Option<Vec<String>>> {
    match std::env::args(rt) {
        Ok(words) => Ok(Some(words.collect(rt.alloc())?)),
        Err(error) if error.kind() == ErrorKind::InvalidData => {
            rt.println(
                "error: a word of the command line isn't UTF-8\n\nFor more information, try '--help'.",
            )?;
            Ok(None)
        }
        Err(error) => Err(error),
    }
}

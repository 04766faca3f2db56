// What is told where a table would be read from a terminal.
use crate::words::{Words, words_of};
use std::alloc::Global;
use std::io::IsTerminal;
use vx_sql_lines::told_table;

/// Whether the word at a place is a statement that asks a table of the standard input.
fn asks_input(alloc: Global, words: &[String], place: usize) -> bool {
    let Some(statement) = words.get(place) else {
        return false;
    };
    match told_table(alloc, statement.as_str()) {
        Ok(name) => name.as_str() == "stdin",
        Err(_) => false,
    }
}

/// Whether words of a request take it from the standard input.
fn begin_a_request(words: &[String]) -> bool {
    match words {
        [] => false,
        [word, ..] => match word.as_str() {
            "scan" | "explain" | "file" | "top" => true,
            _ => false,
        },
    }
}

/// Whether words take the standard input.
fn take_input(alloc: Global, words: &[String]) -> bool {
    match words_of(words) {
        Words::Writing => true,
        Words::Statements => asks_input(alloc, words, 1),
        Words::Explaining => asks_input(alloc, words, 2),
        Words::Requests => begin_a_request(words),
        Words::Listing | Words::Help | Words::Version => false,
    }
}

/// Tells on standard error that the standard input is a terminal, where words take it. A line that can't be written changes nothing.
pub(crate) fn tell_terminal(rt: &HostRuntime, words: &[String]) {
    if rt.stdin().is_terminal() && take_input(rt.alloc(), words) {
        let _ = eprintln!(rt; "vx: standard input is this terminal; Ctrl-D ends it");
    }
}

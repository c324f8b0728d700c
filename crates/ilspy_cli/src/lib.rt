//! The command line: what the program does with its words.
//!
//! ```text
//! words ─ asked: a request ─ take_all: the bytes of its files ─ a status and a text ─ put_all
//! ```
//!
//! [`run`] is all of it. What it comes to is one definition for all commands, `IsDue` of `specs/Outcome.antt`: the usage, the
//! line of the first file that wasn't given, or what is due for the bytes of the request's files.
//!
//! # To add a command
//!
//! Say, `compare` with the files `LEFT` and `RIGHT`. Each step is a line beside those of the other commands.
//!
//! 1. `words.rt`: the variants `Command::Compare` and `Request::Compare { left, right }`, and their arms in `of_word`, `word`,
//!    `names`, `request` and `files`, with the limits.
//! 2. `answer.rt`: the arm of `answer_request`, which hands `contents[0]` and `contents[1]` to the function that does the work.
//! 3. `specs/Words.antt`: the lines of `word_of`, `names_of`, `command_of` and `texts_of`; `specs/Files.antt`: that of
//!    `files_of`; `specs/Outcome.antt`: that of `IsRequestDue`, which cites what is due for the bytes. This is what has to be
//!    believed of the command.
//! 4. `proofs/`: the lines of `command_at` and `request_at` (`OneRequest`), that its form is simple (`FormFacts`), and that one
//!    text is due for its bytes (`one_of_request` of `OneDue`).
//!
//! The clauses of `run` stay as they are.
#![tactic(auto)]

mod answer;
mod due;
mod escape;
mod lines;
mod process;
mod program;
mod put;
mod shown;
mod status;
mod taking;
mod words;

pub use due::one_due;
pub use process::{process_words, run_process};
pub use program::run;
pub use status::Status;

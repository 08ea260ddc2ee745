//! The words of the program `sby`: what they ask, and the work folders of what they ask.
#![tactic(auto)]

mod asked;
mod command;
mod folder;
mod form;
mod kind;
mod request;
mod words;

pub use asked::{Asked, GenWords, JudgeWords, TaskWords};
pub use folder::{files_have_one_stem, folder_of, stem_of};
pub use kind::stream_kind;
pub use words::{asked_of, plain_words_are_asked, words_have_one_request};

//! The tokens of RTLIL text.
#![tactic(auto)]

mod lexer;
mod scan;

pub use lexer::{LexFault, Lexer, Token, first_tokens_agree, one_list_of_tokens};

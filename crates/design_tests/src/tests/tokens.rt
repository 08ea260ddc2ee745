// Tokens and where they start.

use rtlil_lex::Lexer;
use std::test::*;

#[test]
fn names_strings_and_words(rt: HostRuntime) {
    let mut lexer = Lexer::new(b"wire \\a#b # c\n\"x \\\" #\" 1'0#end");
    for (start, word) in [(0, "wire"), (5, "\\a#b"), (14, "\"x \\\" #\""), (23, "1'0")] {
        match lexer.next() {
            Ok(Some(token)) => {
                assert_eq!(rt; token.start, start);
                assert_eq!(rt; token.text, word.as_bytes());
            }
            _ => panic!(rt; "a token is there"),
        }
    }
    assert!(rt; matches!(lexer.next(), Ok(None)));
}

#[test]
fn unfinished_string(rt: HostRuntime) {
    let mut lexer = Lexer::new(b" \"a");
    match lexer.next() {
        Err(fault) => assert_eq!(rt; fault.byte, 1),
        Ok(_) => panic!(rt; "the string has no end"),
    }
}

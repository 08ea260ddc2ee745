// What texts are as files of pairs.

use crate::pairs::file_of;
use pair_reader::{PairFault, read_pair};
use std::alloc::Global;
use std::test::Fail;

// After each mark what a text is, and the text.
const TEXTS: &str = "\
pair=c bit 1 2 -3\nc bit 12 1 1\nc start -3\nc next 1\nc bad 2\np cnf 3 2\n1 0\n-2 3 0\n\
#pair=c start 1\nc next 1\nc bad -1\np cnf 1 0\n#pair=c start 1\nc next 1\nc bad -1\np cnf 1 1\n0\n\
#Header 0=#Header 33=c start 1\nc next 1\nc bad 1\np cnf x 0\n#Header 27=c start 1\nc next 1\nc bad 1\n\
#Literal 37=c start 1\nc next 1\nc bad 1\np cnf 1 1\n2 0\n#Count 41=c start 1\nc next 1\nc bad 1\np cnf 1 2\n1 0\n\
#Lines=p cnf 1 0\n#Lines=c start 1\nc next 1\np cnf 1 0\n#Lines=c next 1\nc start 1\nc bad 1\np cnf 1 0\n\
#Lines=c start 2\nc next 1\nc bad 1\np cnf 1 0\n#Lines=c start 1\nc next 0\nc bad 1\np cnf 1 0\n\
#Lines=c start 1\nc next 1\nc bad -0\np cnf 1 0\n#Lines=c start 1\nc next 1\nc bad 1\nc x\np cnf 1 0\n\
#Lines=c start 1\nc next 1\nc bad 1\np cnf  1 0\n#Lines=c start 1\nc next 1\nc bad 1\np cnf 1 0\
#Lines=c start 1\nc next 1\nc bad 1\np cnf 1 0\n\n#Lines=c start 1\nc next 1\nc bad 1\np cnf 1 1\n1\n0\n";

// A pair's file, and after each mark lines before it with which it is none.
const FILE: &str = "c start 1\nc next -1\nc bad 1\np cnf 2 1\n-1 2 0\n";

const LINES: &str = "\
c bit 01 1 1\n#c bit 0 1 1\n#c bit 2 1 1\nc bit 2 1 1\n#c bit 2 1 1\nc bit 1 1 1\n#c bit 2147483649 1 1\n#c bit 1 3 1\n\
#c bit 1 1 -3\n#c bit 1 0 1\n#c bit 1 +1 1\n#c bit 1 --1 1\n#c bit 1 1 -01\n#c bit  1 1 1\n#c bit 1 1  1\n#c bit 1 1 1 \n\
#c bit 1 1\n#c bit 1 1 1 1\n#c bit 1\t1 1\n#c bit 1 1 1\r\n#c bits 1 1 1\n#cbit 1 1 1\n#c bit -1 1 1\n#c\n#\n# ";

// What a text is. A pair has it as its file.
fn told(alloc: Global, text: &str) -> Result<String, Fail> {
    match read_pair(alloc, text.as_bytes())? {
        Ok(pair) => {
            let file = file_of(alloc, &pair)?;
            let same = file.as_slice() == text.as_bytes();
            let word = String::from_str(alloc, if same { "pair" } else { "another" })?;
            Ok(word)
        }
        Err(PairFault::Dimacs(fault)) => {
            let place = format!(in alloc; "{:?} {}", fault.kind, fault.byte)?;
            Ok(place)
        }
        Err(PairFault::Lines) => {
            let word = String::from_str(alloc, "Lines")?;
            Ok(word)
        }
    }
}

#[test]
fn texts_are_told(rt: HostRuntime) -> Result<(), Fail> {
    for row in TEXTS.split('#') {
        let (wanted, text) = row.split_once('=').unwrap_or((row, ""));
        assert_eq!(rt; told(rt.alloc(), text)?.as_str(), wanted);
    }
    Ok(())
}

#[test]
fn lines_are_refused(rt: HostRuntime) -> Result<(), Fail> {
    assert_eq!(rt; told(rt.alloc(), FILE)?.as_str(), "pair");
    for lines in LINES.split('#') {
        let text = format!(in rt.alloc(); "{lines}{FILE}")?;
        assert_eq!(rt; told(rt.alloc(), text.as_str())?.as_str(), "Lines");
    }
    Ok(())
}

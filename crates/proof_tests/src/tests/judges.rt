// Streams and outputs are judged, cut into two pieces at each place.

ghost use Rattle.std.specs.Prelude.{◌≤◌, ◌^◌};

use cert_judge::{Judge, Outcome, OutputJudge, StreamKind};
use cnf_form::{Formula, read_dimacs};
use std::alloc::{AllocError, Global};
use std::test::Fail;

// What is judged: whether a DRUP or LRAT stream or an engine's output, the most bytes that are taken, and the formula; and after each mark
// what is told, and the stream. A clause that is admitted tells nothing by itself.
const TABLES: [&str; 23] = [
    "drup 1000 p cnf 2 3\n1 0\n-1 2 0\n-2 0\n\
#refuted=0\n#refuted=c hello\n-1 0\n0\n#refuted=c hello\n-1 0\n0#refuted=0\n@@@ rubbish#refuted= \t\r\n0\
#unknown=s UNKNOWN\nx#unknown=s UNKNOWN#unknown=s UNKNOWN x\ns\ns UNKNOWN \n1#EarlyEnd 16=s UNSATISFIABLE\n#EarlyEnd 0=\
#EarlyEnd 4=c a\n#EarlyEnd 12=s UNKNOWN x\n#BadLine 0=x#BadLine 1=vv 0#EarlyEnd 13=c hello\n-1 0\n",
    "drup 1000 p cnf 2 2\n1 2 0\n-1 2 0\n\
#NotRup 4=c x\n0\n#NotRup 0=0 1#NotRup 12=2 0\nd 1 2 0\n-2 0\n#satisfied 2=v 1 2\nc x\nv -1 0\n#satisfied 2=v 2 0\
#NotSatisfying 1=v -2\nv 0\n#NotSatisfying 2=v 1 0 #BadLine 4=v 2\n1 0\n#BadLine 4=v 1\ns UNKNOWN\n#BadLine 3=1 2\n",
    "drup 1000 p cnf 1 1\n0\n\
#refuted=d 0\n0\n#BadLiteral 0=2 0\n#BadLiteral 1=-0#BadLiteral 1=01#LineTooLong 2=1 1 0\n#NotSatisfying 1=v 0\n",
    // Blank lines, and what is no literal or too much.
    "drup 1000 p cnf 12 0\n\
#EarlyEnd 11=\n c any\n\t\r\n#NotRup 9= 1 -1 0 \n0#EarlyEnd 9=d 1 -2 0\n#satisfied 1 3=v 1 -2\nc any\n\nv 3 0\n\
#BadLine 7=1 -1 0 2#EarlyEnd 9=12 -12 0\n#BadLiteral 1=13#BadLiteral 1=- 1 0",
    "drup 1000 p cnf 2 0\n\
#LineTooLong 5=1 -1 1 0\n#BadLiteral 0=3 0\n",
    "drup 1000 p cnf 0 0\n\
#BadLiteral 4=d 0\n-1 0\n#NotRup 0=0\n-1 0\n",
    "drup 4 p cnf 2 3\n1 0\n-1 2 0\n-2 0\n\
#TooLong 4=c x\n0\n",
    "drup 5 p cnf 2 3\n1 0\n-1 2 0\n-2 0\n\
#TooLong 5=c x\n0\n",
    "drup 6 p cnf 2 3\n1 0\n-1 2 0\n-2 0\n\
#refuted=c x\n0\n#refuted=c x\n0\nrubbish",
    "drup 3 p cnf 2 3\n1 0\n-1 2 0\n-2 0\n\
#EarlyEnd 3=c x",
    "drup 1000 p cnf 3 4\n1 2 0\n-1 2 0\n1 -2 0\n-1 -2 0\n\
#NotRup 0=0\n#EarlyEnd 4=2 0\n#refuted=2 0\n0\n#NotRup 8=d 2 1 0\n2 0\n#EarlyEnd 13=d 2 1 0\n-2 0\n",
    "drup 1000 p cnf 3 3\n1 2 0\n-1 2 0\n-2 3 0\n\
#EarlyEnd 4=3 0\n#NotRup 11=d 2 -1 2 0\n3 0\n#EarlyEnd 17=d 2 -1 2 0\n1 3 0\n",
    "drup 1000 p cnf 3 2\n1 0\n-1 2 0\n\
#EarlyEnd 13=d -1 2 0\n2 0\n",
    "drup 1000 p cnf 3 3\n1 0\n-1 2 0\n0\n\
#EarlyEnd 4=1 0\n#refuted=1 0\nd 0\n0\n",
    "drup 1000 p cnf 3 4\n1 2 1 0\n2 1 0\n1 -1 0\n-2 -2 1 0\n\
#EarlyEnd 31=2 -2 0\nd 1 2 0\n1 0\nd 1 0\n1 1 0\n",
    // Hints in their order; ids above all before them; and what is deleted.
    "lrat 1000 p cnf 3 4\n1 2 0\n-1 2 0\n1 -2 0\n-1 -2 0\n\
#NotHinted 0=5 2 0 1 0\n#NotHinted 12=5 2 0 1 2 0\n6 0 5 3 0\n#refuted=5 2 0 1 2 0\n6 0 5 3 4 0\n#NotHinted 0=5 0 0\n\
#NotHinted 0=5 0 1 2 3 4 0\n#NotHinted 0=5 2 0 3 4 0\n#refuted=5 2 0 3 1 4 2 0\n6 0 5 3 4 0\n#refuted=5 2 0 2 1 0\n6 0 5 3 4 0\n\
#refuted=5 2 2 1 0 1 0\n6 2 0 1 2 0\n7 0 6 3 4 0\n#refuted=5 -2 0 3 4 0\n6 0 5 1 2 0\n#refuted=5 1 -1 0 0\n6 2 0 1 2 0\n7 0 6 3 4 0\n\
#refuted=1099511627776 2 0 1 2 0\n1099511627777 0 1099511627776 3 4 0\n#BadHint 6=5 2 0 9 0\n#BadId 0=4 2 0 1 2 0\n\
#BadHint 14=4 d 1 0\n5 2 0 1 2 0\n#BadHint 22=4 d 1 0\n4 d 1 0\n5 2 0 1 2 0\n#NotHinted 8=4 d 1 0\n5 2 0 2 0\n",
    "lrat 1000 p cnf 2 2\n1 1 0\n-1 0\n\
#refuted=3 0 1 2 0\n",
    "lrat 1000 p cnf 1 1\n0\n\
#NotHinted 0=2 0 0\n#refuted=2 0 1 0\n",
    "output 1000 p cnf 2 2\n1 2 0\n-1 2 0\n\
#file=s UNSATISFIABLE\n#file=#file=0\n1 2 0\nd 1 0\n@#file=verbose 3\nsum 12\n vv\n#unknown=s UNKNOWN\
#unknown=read 2 clauses\ns UNKNOWN\nv 2 0\n#file=s UNKNOWN 1\nsUNKNOWN\n#satisfied 2=s SATISFIABLE\nv 2 0\
#satisfied 1 2=hello\nv 1\nworld\nvv\n0\n v 2 0\n@#NotSatisfying 1=v -2 0\n#EarlyEnd 1=v#EarlyEnd 6=@\nv 1\n#BadLiteral 4=v 2 x\n\
#LineTooLong 6=v 1 1 1 0\n#satisfied 2=v 2 0 1\n#satisfied 1 2=v 1\nsum\nv 2 0\n#EarlyEnd 5=v 1\ns",
    // Status lines amid values.
    "output 1000 p cnf 2 2\n1 2 0\n-1 2 0\n\
#satisfied 1 2=v 1\ns SATISFIABLE\nv 2 0\n#BadLine 13=v 1\ns UNKNOWN\nv 2 0\n#BadLine 17=v 1\n s  UNKNOWN \t\nv 2 0\n\
#EarlyEnd 13=v 1\ns UNKNOWN#satisfied 1 2=v 1\ns UNKNOWN x\ns\n s UNKNOWNS\ns UNKNOW\nsUNKNOWN\ns U NKNOWN\ns \ts UNKNOWN\nv 2 0\n\
#satisfied 1 2=v 1\nc\ns UNKNOWN\t v\n\nv 2 0\n#unknown=s \tUNKNOWN \r\nv 2 0\n#BadLine 17=v 1\nx\nv\ns UNKNOWN\nv 2 0\n",
    "output 4 p cnf 2 2\n1 2 0\n-1 2 0\n\
#TooLong 4=hello#TooLong 4=hi!\nv 2 0\n#TooLong 4=hi!\nv",
    "output 5 p cnf 2 2\n1 2 0\n-1 2 0\n\
#file=hello",
    "output 6 p cnf 2 2\n1 2 0\n-1 2 0\n\
#satisfied 2=v 2 0\nhello",
];

pub fn formula_of(alloc: Global, text: &str) -> Result<Formula, Fail> {
    match read_dimacs(alloc, text.as_bytes())? {
        Ok(formula) => Ok(formula),
        Err(_) => Err(Fail::from("no formula")),
    }
}

// The variables that are true.
fn told_values(alloc: Global, values: &[bool]) -> Result<String, AllocError> {
    let mut text = String::from_str(alloc, "satisfied")?;
    for (var, bit) in values.iter().enumerate() {
        if *bit {
            text.push_str(format!(in alloc; " {var}")?.as_str())?;
        }
    }
    Ok(text)
}

fn told(alloc: Global, outcome: Option<Outcome>, values: &[bool]) -> Result<String, AllocError> {
    match outcome {
        None => String::from_str(alloc, "file"),
        Some(Outcome::Refuted) => String::from_str(alloc, "refuted"),
        Some(Outcome::Satisfied) => told_values(alloc, values),
        Some(Outcome::Unknown) => String::from_str(alloc, "unknown"),
        Some(Outcome::Bad(bad)) => format!(in alloc; "{:?} {}", bad.kind, bad.at),
    }
}

fn outcome_of(
    judge: &mut Judge<Formula>,
    front: &[u8],
    back: &[u8],
) -> Result<Outcome, AllocError> {
    judge.feed(front)?;
    judge.feed(back)?;
    judge.end()
}

// What a stream in two pieces is judged as.
pub fn stream_told(
    alloc: Global,
    formula: &Formula,
    kind: StreamKind,
    most: u64,
    pieces: (&[u8], &[u8]),
) -> Result<String, AllocError>
    requires least { 1 ≤ most }
    requires limit { most ≤ 2 ^ 32 }
{
    let mut judge = Judge::new(alloc, formula.copy(alloc)?, kind, most)?;
    let outcome = outcome_of(&mut judge, pieces.0, pieces.1)?;
    told(alloc, Some(outcome), judge.values())
}

fn end_of(
    judge: &mut OutputJudge<Formula>,
    front: &[u8],
    back: &[u8],
) -> Result<Option<Outcome>, AllocError> {
    judge.feed(front)?;
    judge.feed(back)?;
    judge.end()
}

// What an output in two pieces is judged as.
fn output_told(
    alloc: Global,
    formula: &Formula,
    most: u64,
    pieces: (&[u8], &[u8]),
) -> Result<String, AllocError>
    requires least { 1 ≤ most }
    requires limit { most ≤ 2 ^ 32 }
{
    let mut judge = OutputJudge::new(alloc, formula.copy(alloc)?, most)?;
    let outcome = end_of(&mut judge, pieces.0, pieces.1)?;
    told(alloc, outcome, judge.values())
}

fn judged(
    alloc: Global,
    formula: &Formula,
    kind: Option<StreamKind>,
    most: u32,
    pieces: (&[u8], &[u8]),
) -> Result<String, AllocError> {
    let most = u64::from(most.max(1));
    match kind {
        Some(kind) => stream_told(alloc, formula, kind, most, pieces),
        None => output_told(alloc, formula, most, pieces),
    }
}

// Whether it is judged as this, however it is cut.
fn comes_to(
    alloc: Global,
    formula: &Formula,
    kind: Option<StreamKind>,
    most: u32,
    stream: &str,
    wanted: &str,
) -> Result<bool, AllocError> {
    for cut in 0..=stream.len() {
        let pieces = stream.as_bytes().split_at(cut.min(stream.len()));
        if judged(alloc, formula, kind, most, pieces)?.as_str() != wanted {
            return Ok(false);
        }
    }
    Ok(true)
}

fn kind_of(word: &str) -> Option<StreamKind> {
    match word {
        "drup" => Some(StreamKind::Drup),
        "lrat" => Some(StreamKind::Lrat),
        _ => None,
    }
}

// The first row of a table that doesn't hold.
fn wrong_row(alloc: Global, table: &'static str) -> Result<Option<&'static str>, Fail> {
    let (head, rows) = table.split_once('#').unwrap_or((table, ""));
    let (kind, head) = head.split_once(' ').unwrap_or((head, ""));
    let (most, formula) = head.split_once(' ').unwrap_or((head, ""));
    let most = most.parse::<u32>().unwrap_or(1);
    let formula = formula_of(alloc, formula)?;
    for row in rows.split('#') {
        let (wanted, stream) = row.split_once('=').unwrap_or((row, ""));
        if !comes_to(alloc, &formula, kind_of(kind), most, stream, wanted)? {
            return Ok(Some(row));
        }
    }
    Ok(None)
}

#[test]
fn streams_and_outputs_are_judged(rt: HostRuntime) -> Result<(), Fail> {
    for table in TABLES {
        assert_eq!(rt; wrong_row(rt.alloc(), table)?, None);
    }
    Ok(())
}

// 1, and each variable up to the last implies the next.
fn chain(alloc: Global, last: u32) -> Result<Formula, Fail> {
    let mut text = format!(in alloc; "p cnf {last} {last}\n1 0\n")?;
    for var in 1..last {
        text.push_str(format!(in alloc; "-{var} {} 0\n", var + 1)?.as_str())?;
    }
    formula_of(alloc, text.as_str())
}

#[test]
fn follows_a_chain(rt: HostRuntime) -> Result<(), Fail> {
    let formula = chain(rt.alloc(), 1000)?;
    assert!(rt;
        comes_to(
            rt.alloc(),
            &formula,
            Some(StreamKind::Drup),
            1000,
            "-1000 0\n",
            "NotRup 0"
        )?
    );
    assert!(rt;
        comes_to(
            rt.alloc(),
            &formula,
            Some(StreamKind::Drup),
            1000,
            "1000 0\n",
            "EarlyEnd 7"
        )?
    );
    Ok(())
}

// The last variable, by hints at all clauses of a chain.
fn hinted_line(alloc: Global, id: u64, last: u32) -> Result<String, AllocError> {
    let mut text = format!(in alloc; "{id} {last} 0")?;
    for hint in 1..=last {
        text.push_str(format!(in alloc; " {hint}")?.as_str())?;
    }
    text.push_str(" 0\n")?;
    Ok(text)
}

// What a hinted stream is judged as.
fn hinted_told(alloc: Global, formula: &Formula, text: &str) -> Result<String, AllocError> {
    stream_told(
        alloc,
        formula,
        StreamKind::Lrat,
        1 << 20,
        (text.as_bytes(), b""),
    )
}

#[test]
fn takes_two_hundred_hints_and_the_greatest_id(rt: HostRuntime) -> Result<(), Fail> {
    let alloc = rt.alloc();
    let formula = chain(alloc, 200)?;
    let mut text = hinted_line(alloc, (1 << 62) + 1, 200)?;
    text.push_str("9223372036854775807 200 0 4611686018427387905 0\n")?;
    let end = text.len();
    let wanted = format!(in alloc; "EarlyEnd {end}")?;
    assert_eq!(rt; hinted_told(alloc, &formula, text.as_str())?, wanted);
    text.push_str("9223372036854775808 200 0 1 0\n")?;
    let wanted = format!(in alloc; "BadLiteral {}", end.saturating_add(18))?;
    assert_eq!(rt; hinted_told(alloc, &formula, text.as_str())?, wanted);
    Ok(())
}

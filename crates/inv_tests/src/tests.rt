// Streams of invariants are judged, cut into two pieces at each place.

ghost use Rattle.std.specs.Prelude.{◌≤◌, ◌^◌};

use crate::pairs::pair_of;
use inv_judge::{InvJudge, InvOutcome};
use std::alloc::{AllocError, Global};
use std::test::Fail;

// The most bytes that are taken, and a pair's file; and after each mark what a stream is judged as, and the stream.
const TABLES: [&str; 11] = [
    // A bit that keeps its 0.
    "1000 c bit 1 2 2\nc start -2\nc next 1\nc bad 2\np cnf 2 1\n1 0\n\
#found=inv\n-1 0\nstart\nstep\nsafe\n0\n#found=inv\n-1 0\nstart\nstep\nsafe\n0#found=inv\n-1 0\nstart\nstep\nsafe\n0\n@@@ rubbish\
#found= inv\t\nc x\n\n -1 -1 0\r\nstart \ns\n  step\nsafe\nc y\n-1 0\n 0#found=s x\ninv\ns SATISFIABLE\n-1 0\ns\nstart\nstep\nsafe\n0\n\
#found=inv\n-1 0\nstart\nd -2 0\nd 1 2 0\nstep\nd -2 0\n-2 0\nsafe\nd 2 0\n0\n\
#EarlyEnd 0=#EarlyEnd 3=inv#EarlyEnd 25=inv\n-1 0\nstart\nstep\nsafe\n#EarlyEnd 24=inv\n-1 0\nstart\nstep\nsafe#EarlyEnd 26=inv\n-1 0\nstart\nstep\nsafe\n-\
#unknown=s UNKNOWN#unknown=inv\n-1 0\ns UNKNOWN\n@#unknown=inv\n-1 0\nstart\nstep\nsafe\ns UNKNOWN\n0\n\
#NotRup 15=inv\n-1 0\nstart\n2 0\n#NotRup 20=inv\nstart\nstep\nsafe\n0\n#NotRup 16=inv\n-1 0\nstart\n 0\n",
    // Parts out of order, and lines that no part has.
    "1000 c bit 1 2 2\nc start -2\nc next 1\nc bad 2\np cnf 2 1\n1 0\n\
#BadPart 0=0\n#BadPart 5=c x\n -1 0\n#BadPart 0=start\n#BadPart 4=inv\ninv\n#BadPart 4=inv\nstep\n#BadPart 11=inv\nstart\n safe\n#BadPart 15=inv\nstart\nstep\nstep\n\
#BadPart 20=inv\nstart\nstep\nsafe\ninv\n#BadPart 20=inv\nstart\nstep\nsafe\nsafe \n\
#BadLine 3=invx\n#BadLine 2=in\n#BadLine 4=inv x\n#BadLine 2=stop\n#BadLine 1=sx\n#BadLine 4=inv\nx\n#BadLine 0=x\n\
#BadLine 0=v 1 0\n#BadLine 4=inv\nv 1 0\n#BadLine 10=inv\nstart\nv 1 0\n#BadLine 0=d 1 0\n#BadLine 4=inv\nd 1 0\n#BadLine 8=inv\n1 0 1\n#BadLine 6=inv\n-1\n0\n",
    // Bits that have no literals, and words that are none.
    "1000 c bit 2 3 -2\nc start -3\nc next 1\nc bad 1\np cnf 3 1\n1 0\n\
#BadLiteral 4=inv\n1 0\n#BadLiteral 4=inv\n-1 0\n#BadLiteral 4=inv\n-2 1 0\n#BadLiteral 4=inv\n3 0\n#BadLiteral 4=inv\n4 0\n#BadLiteral 5=inv\n-4 0\n#BadLiteral 5=inv\n20 0\n\
#BadLiteral 5=inv\n- 2 0\n#LineTooLong 10=inv\n2 2 2 2 0\n#NotInvariant 20=inv\n-2 0\nstart\nstep\nsafe\n#NotInvariant 14=inv\n2 0\nstart\nstep\n",
    // A bit that turns; and the empty clause, which no start admits.
    "1000 c bit 1 2 -2\nc start -2\nc next 1\nc bad 2\np cnf 2 1\n1 0\n\
#NotInvariant 20=inv\n-1 0\nstart\nstep\nsafe\n0\n#NotInvariant 15=inv\n1 0\nstart\n step\nsafe\n0\n#NotInvariant 12=inv\n0\nstart\nstep\n#NotRup 12=inv\n0\nstart\n0\n\
#NotRup 15=inv\n-1 0\nstart\n2 0\nstep\n",
    // A bit that becomes an input: both cycles are assumed, or a certificate would be refused.
    "1000 c bit 1 2 3\nc start -2\nc next -3\nc bad 2\np cnf 3 2\n1 0\n-2 0\n\
#found=inv\n-1 0\nstart\nstep\nsafe\n0\n#found=inv\nstart\nstep\nsafe\n0\n#NotInvariant 14=inv\n1 0\nstart\nstep\n",
    // A bit that becomes 1 and may not: the second cycle isn't assumed where a run starts.
    "1000 c bit 1 2 1\nc start -2\nc next -1\nc bad -2\np cnf 2 2\n1 0\n-2 0\n\
#NotInvariant 14=inv\n1 0\nstart\nstep\nsafe\n0\n#NotRup 25=inv\n-1 0\nstart\nstep\nsafe\n0\n#NotRup 12=inv\n0\nstart\n-1 0\n",
    // What holds of a start alone isn't kept: the step would follow from it.
    "1000 c bit 1 2 3\nc start 4\nc next 1\nc bad 2\np cnf 4 3\n1 0\n-4 -2 0\n-4 -3 0\n\
#NotInvariant 20=inv\n-1 0\nstart\nstep\nsafe\n0\n#NotInvariant 28=inv\n-1 0\nstart\n-2 -3 0\nstep\nsafe\n0\n",
    // A lemma is needed where the invariant is to hold, and it isn't there once it is deleted, nor in the next part.
    "1000 c bit 1 2 5\nc start 1\nc next 1\nc bad -2\np cnf 7 9\n1 0\n2 3 4 0\n2 3 -4 0\n2 -3 4 0\n2 -3 -4 0\n5 6 7 0\n5 6 -7 0\n5 -6 7 0\n5 -6 -7 0\n\
#NotInvariant 14=inv\n1 0\nstart\nstep\n#NotInvariant 25=inv\n1 0\nstart\n2 3 0\nstep\nsafe\n#found=inv\n1 0\nstart\n2 3 0\nstep\n5 6 0\nsafe\n0\n\
#NotInvariant 28=inv\n1 0\nstart\n2 3 0\nd 3 2 0\nstep\n#NotRup 25=inv\n1 0\nstart\n2 3 0\nstep\n5 0\n",
    // As many bytes as are taken.
    "24 c bit 1 2 2\nc start -2\nc next 1\nc bad 2\np cnf 2 1\n1 0\n\
#TooLong 24=inv\n-1 0\nstart\nstep\nsafe\n0\n#EarlyEnd 24=inv\n-1 0\nstart\nstep\nsafe#BadLine 0=x#unknown=s UNKNOWN\ninv\n-1 0\nstart\nstep\n",
    "26 c bit 1 2 2\nc start -2\nc next 1\nc bad 2\np cnf 2 1\n1 0\n\
#found=inv\n-1 0\nstart\nstep\nsafe\n0#TooLong 26=inv\n-1 0\nstart\nstep\nsafe\n0\n",
    "27 c bit 1 2 2\nc start -2\nc next 1\nc bad 2\np cnf 2 1\n1 0\n\
#found=inv\n-1 0\nstart\nstep\nsafe\n0\n#found=inv\n-1 0\nstart\nstep\nsafe\n0\n@",
];

fn told(alloc: Global, outcome: InvOutcome) -> Result<String, AllocError> {
    match outcome {
        InvOutcome::Found => String::from_str(alloc, "found"),
        InvOutcome::Unknown => String::from_str(alloc, "unknown"),
        InvOutcome::Bad(bad) => format!(in alloc; "{:?} {}", bad.kind, bad.at),
    }
}

// What a stream in two pieces is judged as. The outcome of a piece is answered again by each later call.
fn outcome_of(judge: &mut InvJudge, front: &[u8], back: &[u8]) -> Result<InvOutcome, Fail> {
    let one = judge.feed(front)?;
    let two = judge.feed(back)?;
    let end = judge.end()?;
    if one.is_some() && one != two || two.is_some() && two != Some(end) {
        return Err(Fail::from("another outcome"));
    }
    Ok(end)
}

fn judged(alloc: Global, file: &str, most: u64, front: &[u8], back: &[u8]) -> Result<String, Fail>
    requires least { 1 ≤ most }
    requires limit { most ≤ 2 ^ 32 }
{
    let pair = pair_of(alloc, file)?;
    let mut judge = InvJudge::new(alloc, pair, most);
    let outcome = outcome_of(&mut judge, front, back)?;
    let text = told(alloc, outcome)?;
    Ok(text)
}

// Whether a stream is judged as this, however it is cut.
fn comes_to(
    alloc: Global,
    file: &str,
    most: u32,
    stream: &str,
    wanted: &str,
) -> Result<bool, Fail> {
    let most = u64::from(most.max(1));
    for cut in 0..=stream.len() {
        let (front, back) = stream.as_bytes().split_at(cut.min(stream.len()));
        if judged(alloc, file, most, front, back)?.as_str() != wanted {
            return Ok(false);
        }
    }
    Ok(true)
}

// The first row of a table that doesn't hold.
fn wrong_row(alloc: Global, table: &'static str) -> Result<Option<&'static str>, Fail> {
    let (head, rows) = table.split_once('#').unwrap_or((table, ""));
    let (most, file) = head.split_once(' ').unwrap_or((head, ""));
    let most = most.parse::<u32>().unwrap_or(1);
    for row in rows.split('#') {
        let (wanted, stream) = row.split_once('=').unwrap_or((row, ""));
        if !comes_to(alloc, file, most, stream, wanted)? {
            return Ok(Some(row));
        }
    }
    Ok(None)
}

#[test]
fn streams_are_judged(rt: HostRuntime) -> Result<(), Fail> {
    for table in TABLES {
        assert_eq!(rt; wrong_row(rt.alloc(), table)?, None);
    }
    Ok(())
}

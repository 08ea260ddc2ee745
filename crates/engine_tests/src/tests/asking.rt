// The words of the solver's program.

use cdcl_words::{read_serving, read_words};
use std::alloc::{AllocError, Global};
use std::test::Fail;

fn words(alloc: Global, text: &str) -> Result<Vec<String>, AllocError> {
    let mut words = Vec::new(alloc);
    for word in text.split(' ') {
        words.push(String::from_str(alloc, word)?)?;
    }
    Ok(words)
}

#[test]
fn reads_words(rt: HostRuntime) -> Result<(), Fail> {
    for (text, wanted) in [
        ("f.cnf", Some((false, None, "f.cnf"))),
        ("--conflicts", Some((false, None, "--conflicts"))),
        ("--conflicts 1 f.cnf", Some((false, Some(1), "f.cnf"))),
        (
            "--conflicts 1000000000 f",
            Some((false, Some(1_000_000_000), "f")),
        ),
        ("--hints", Some((false, None, "--hints"))),
        ("--hints f.cnf", Some((true, None, "f.cnf"))),
        ("--hints --hints", Some((true, None, "--hints"))),
        ("--hints --conflicts 7 f", Some((true, Some(7), "f"))),
        ("--hints --conflicts 0 f", None),
        ("--hints --hints f", None),
        ("--conflicts 7 --hints f", None),
        ("--conflicts 1000000001 f", None),
        ("--conflicts 0 f", None),
        ("--conflicts 01 f", None),
        ("--conflicts 1", None),
        ("--conflict 1 f", None),
        ("--conflicts 1 f g", None),
    ] {
        let words = words(rt.alloc(), text)?;
        let found = read_words(&words).map(|asked| (asked.hinted, asked.conflicts, asked.file));
        assert_eq!(rt; found, wanted, "{text}");
    }
    Ok(())
}

#[test]
fn reads_words_to_serve(rt: HostRuntime) -> Result<(), Fail> {
    for (text, wanted) in [
        ("--serve h:1 --count 1", Some(("h:1", 1))),
        (
            "--serve 127.0.0.1:65535 --count 1000000",
            Some(("127.0.0.1:65535", 1_000_000)),
        ),
        ("--serve [::1]:80 --count 7", Some(("[::1]:80", 7))),
        ("--serve a:b:9 --count 7", Some(("a:b:9", 7))),
        ("--serve h:0 --count 1", None),
        ("--serve h:65536 --count 1", None),
        ("--serve h:01 --count 1", None),
        ("--serve h: --count 1", None),
        ("--serve :80 --count 1", None),
        ("--serve h --count 1", None),
        ("--serve 80 --count 1", None),
        ("--serve h:1 --count 0", None),
        ("--serve h:1 --count 1000001", None),
        ("--serve h:1 --count", None),
        ("--serve h:1", None),
        ("--serve h:1 --counts 1", None),
        ("--count 1 --serve h:1", None),
        ("--serve h:1 --count 1 f", None),
        ("f.cnf", None),
    ] {
        let words = words(rt.alloc(), text)?;
        let found = read_serving(&words).map(|asked| (asked.address, asked.count));
        assert_eq!(rt; found, wanted, "{text}");
        if wanted.is_some() {
            assert!(rt; read_words(&words).is_none(), "{text}");
        }
    }
    Ok(())
}

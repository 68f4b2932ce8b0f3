//! Arguments, and what they choose. The answers come from outside.
use rst2pseudoxml_options::options;
use std::alloc::{AllocError, Global};
use std::process::Abort;
use std::test::Fail;

/// Lines of arguments, parted by single spaces, and what they choose: the three levels, title, info, tab width, line limit and source.
const CHOICES: &[(&str, &str)] = &[
    ("", "Warning Severe Never true true 8 10000 "),
    ("-r3 a", "Error Severe Never true true 8 10000 a"),
    ("-r 3 a", "Error Severe Never true true 8 10000 a"),
    ("-r=3 a", "Error Severe Never true true 8 10000 a"),
    ("--report=1 a", "Info Severe Never true true 8 10000 a"),
    ("--report info a", "Info Severe Never true true 8 10000 a"),
    ("-rwarning a", "Warning Severe Never true true 8 10000 a"),
    ("-r4 a", "Severe Severe Never true true 8 10000 a"),
    ("-rnone a", "Never Severe Never true true 8 10000 a"),
    ("-v a", "Info Severe Never true true 8 10000 a"),
    ("--verbose -- a", "Info Severe Never true true 8 10000 a"),
    ("a -q", "Never Severe Never true true 8 10000 a"),
    ("a --quiet --", "Never Severe Never true true 8 10000 a"),
    ("--strict a", "Warning Info Never true true 8 10000 a"),
    ("--strict -v a", "Info Info Never true true 8 10000 a"),
    ("--halt=5 ä", "Warning Never Never true true 8 10000 ä"),
    (
        "--halt severe a",
        "Warning Severe Never true true 8 10000 a",
    ),
    (
        "--exit-status=3 a",
        "Warning Severe Error true true 8 10000 a",
    ),
    (
        "--no-doc-title a",
        "Warning Severe Never false true 8 10000 a",
    ),
    (
        "--no-doc-info a",
        "Warning Severe Never true false 8 10000 a",
    ),
    (
        "--tab-width 1 a",
        "Warning Severe Never true true 1 10000 a",
    ),
    (
        "--tab-width=99 a",
        "Warning Severe Never true true 99 10000 a",
    ),
    (
        "--line-length-limit=1 a",
        "Warning Severe Never true true 8 1 a",
    ),
    (
        "-r info --halt 2 --exit-status=2 --no-doc-title a.rst --no-doc-info --tab-width=4 --line-length-limit 16777216",
        "Info Warning Warning false false 4 16777216 a.rst",
    ),
];

/// Lines of arguments that are refused, by the error text on them.
const REFUSED: &[(&str, &[&str])] = &[
    (
        "bad level",
        &[
            "--report=loud",
            "--report=",
            "-r=",
            "--halt ",
            "--halt=ERROR",
            "--exit-status=6",
            "--exit-status=0",
            "-r -",
            "-r-3",
            "-v --halt=loud",
            "--line-length-limit=0 --tab-width=0 --halt=loud -v -q",
        ],
    ),
    (
        "bad tab width",
        &[
            "--tab-width=0",
            "--tab-width=100",
            "--tab-width=08",
            "--tab-width=+8",
            "--tab-width=٣",
            "--tab-width ",
            "-v -q --line-length-limit=0 --tab-width=0",
        ],
    ),
    (
        "bad line limit",
        &[
            "--line-length-limit=16777217",
            "--line-length-limit=0",
            "--line-length-limit=010",
            "--line-length-limit=4294967297",
            "--line-length-limit=-1",
            "-v -q --line-length-limit=0",
        ],
    ),
    (
        "two levels",
        &[
            "-v -q",
            "-vq",
            "-vr 3",
            "-q --report=3",
            "--halt=2 --strict",
        ],
    ),
    (
        "bad arguments",
        &[
            "--nope",
            "--help",
            "--version",
            "-h",
            "-V",
            "--rep=3",
            "--Verbose",
            "-é",
            "-vx",
            "--report",
            "-r",
            "--report -v",
            "--halt -1",
            "--verbose=true",
            "-v=",
            "-v -v",
            "-vv",
            "--report=1 -r1",
            "--strict --strict",
            "--halt=1 --halt=2",
            "--tab-width=4 --tab-width=4",
            "--report=loud --nope",
            "-v -q --tab-width=0 -",
            "-- -",
            "-- -a",
            "-- --",
            "a b",
            "a -- b",
        ],
    ),
];

/// What the words choose, or the fault.
fn answer_to(alloc: Global, words: &[String]) -> Result<String, AllocError> {
    let (s, source) = match options(alloc, words) {
        Ok(answer) => answer,
        Err(fault) => return format!(in alloc; "{fault}"),
    };
    let source = source.as_ref().map_or("<stdin>", |text| text.as_str());
    format!(in alloc;
        "{:?} {:?} {:?} {} {} {} {} {source}",
        s.report, s.halt, s.exit, s.title, s.info, s.tab, s.limit
    )
}

/// Ends the test where a line doesn't choose what is wanted.
fn judge(rt: &impl Abort, alloc: Global, line: &str, want: &str) -> Result<(), Fail> {
    let mut words = Vec::new(alloc);
    for word in line.split(' ') {
        words.push(String::from_str(alloc, word)?)?;
    }
    let answer = answer_to(alloc, &words)?;
    assert_eq!(rt; answer.as_str(), want, "{line}");
    Ok(())
}

#[test]
fn chooses(rt: HostRuntime) -> Result<(), Fail> {
    let alloc = rt.alloc();
    let answer = answer_to(alloc, &[])?;
    let want = "Warning Severe Never true true 8 10000 <stdin>";
    assert_eq!(rt; answer.as_str(), want);
    for &(line, want) in CHOICES {
        judge(&rt, alloc, line, want)?;
    }
    Ok(())
}

#[test]
fn refuses(rt: HostRuntime) -> Result<(), Fail> {
    for &(want, lines) in REFUSED {
        for line in lines {
            judge(&rt, rt.alloc(), line, want)?;
        }
    }
    Ok(())
}

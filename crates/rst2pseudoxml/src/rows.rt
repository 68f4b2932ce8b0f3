//! Tables of inputs with what the program prints for each.
use rst_text::Counted;
use rst2pseudoxml_options::{Format, options};
use rst2pseudoxml_run::{Stop, report, run};
use std::alloc::Global;
use std::process::Abort;
use std::test::Fail;

/// Argument words, separated by spaces, an input, and what the program prints for it.
pub(super) struct Row {
    /// What the row demonstrates.
    pub(super) name: &'static str,
    pub(super) words: &'static str,
    pub(super) input: &'static str,
    pub(super) out: &'static str,
    pub(super) err: &'static str,
    pub(super) status: u8,
}

/// What a run writes, and its status.
#[derive(Drop)]
pub(super) struct Output {
    pub(super) out: Vec<u8>,
    pub(super) err: Vec<u8>,
    pub(super) status: u8,
}

/// The words in a text, separated by spaces.
fn words_of(alloc: Global, text: &str) -> Result<Vec<String>, Fail> {
    let mut words = Vec::new(alloc);
    for word in text.split_whitespace() {
        words.push(String::from_str(alloc, word)?)?;
    }
    Ok(words)
}

/// Texts joined, each repeated by its number.
pub(super) fn repeated_texts(alloc: Global, texts: &[(&str, usize)]) -> Result<String, Fail> {
    let mut all = String::new(alloc);
    for (text, times) in texts {
        for _ in 0..*times {
            all.push_str(text)?;
        }
    }
    Ok(all)
}

/// Runs over an input in memory, as the program does over standard input.
pub(super) fn output_of(alloc: Global, words: &str, input: &[u8]) -> Result<Output, Fail> {
    let words = words_of(alloc, words)?;
    let mut input = Counted::of(input);
    let mut out = Vec::new(alloc);
    let mut err = Vec::new(alloc);
    let status = {
        let mut out = Counted::of(&mut out);
        let mut err = Counted::of(&mut err);
        let stop = match options(alloc, words.as_slice()) {
            Ok((settings, _)) => Stop::Ran(run(
                alloc,
                &settings,
                Format::PseudoXml,
                "<stdin>",
                &mut input,
                &mut out,
                &mut err,
            )),
            Err(fault) => Stop::Options(fault),
        };
        report("rst2pseudoxml", &stop, &mut err)
    };
    Ok(Output { out, err, status })
}

/// Compares what is printed for each row's input with what the row expects.
pub(super) fn compare(alloc: Global, rows: &[Row], rt: &impl Abort) -> Result<(), Fail> {
    for row in rows {
        let Output { out, err, status } = output_of(alloc, row.words, row.input.as_bytes())?;
        let name = row.name;
        assert_eq!(rt; str::from_utf8(out.as_slice())?, row.out, "{name}");
        assert_eq!(rt; str::from_utf8(err.as_slice())?, row.err, "{name}");
        assert_eq!(rt; status, row.status, "{name}");
    }
    Ok(())
}

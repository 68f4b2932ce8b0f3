//! Each export once, over a document whose tree, JSON and messages are known.
use crate::answer::RstResult;
use crate::options::RstOptions;
use crate::{
    rst_abi_version, rst_json, rst_messages, rst_parse, rst_parse_records, rst_print, rst_records,
};
use std::test::Fail;

const OPTIONS: RstOptions = RstOptions {
    size: 16,
    report: 2,
    halt: 4,
    exit_status: 2,
    tab_width: 8,
    line_length_limit: 10_000,
    no_doc_title: 0,
    no_doc_info: 0,
    profile: 0,
    unused: 0,
};

const TEXT: &[u8] = b"A *b*\n\n*c\n";

const TREE: &str = "\
<document source=\"x\">
    <paragraph>
        A 
        <emphasis>
            b
    <paragraph>
        <problematic ids=\"problematic-1\" refid=\"system-message-1\">
            *
        c
    <system_message backrefs=\"problematic-1\" ids=\"system-message-1\" level=\"2\" line=\"3\" source=\"x\" type=\"WARNING\">
        <paragraph>
            Inline emphasis start-string without end-string.
";

const MESSAGES: &str = "x:3: (WARNING/2) Inline emphasis start-string without end-string.\n";

const JSON: &str = "[\"document\",0,{},[\"paragraph\",1,{},\"A \",[\"emphasis\",1,{},\"b\"]],\
[\"paragraph\",3,{},[\"problematic\",3,{\"ids\":[\"problematic-1\"],\"refid\":\"system-message-1\"},\"*\"],\"c\"],\
[\"system_message\",3,{\"backrefs\":[\"problematic-1\"],\"ids\":[\"system-message-1\"],\"level\":2,\"line\":3,\"type\":\"WARNING\"},\
[\"paragraph\",3,{},\"Inline emphasis start-string without end-string.\"]]]";

const NOTES: &str =
    "[{\"line\":3,\"level\":2,\"type\":\"WARNING\",\"text\":\"Inline emphasis start-string without end-string.\"}]";

/// `:t:`a`: b`, whose line is a field by the base.
const FIELD: &str = "[\"document\",0,{},[\"docinfo\",1,{},[\"field\",1,{\"classes\":[\"t-a\"]},\
[\"field_name\",1,{},\"t:\",[\"title_reference\",1,{},\"a\"]],[\"field_body\",1,{},[\"paragraph\",1,{},\"b\"]]]]]";

/// The same by the wider profile, where it begins with a role.
const PARAGRAPH: &str =
    "[\"document\",0,{},[\"paragraph\",1,{},[\"title_reference\",1,{},\"a\"],\": b\"]]";

/// The records of `a`: a document, a paragraph at line 1, and the text.
const RECORDS: &str = "\
\x55\0\0\0\0\0\0\0\x01\0\0\0\0\0\0\0\0\x08\0\0\0\0\0\0\0document\0\0\0\0\0\0\0\0\
\x2c\0\0\0\0\0\0\0\x01\x01\0\0\0\0\0\0\0\x09\0\0\0\0\0\0\0paragraph\0\0\0\0\0\0\0\0\
\x02\0\0\0\0\0\0\0\0a";

/// What is parsed of `:t:`a`: b` where the role is handed back.
const PARSED: &str = "[\"document\",0,{},[\"paragraph\",1,{},\
[\"handed\",1,{\"kind\":\"role\",\"name\":\"t\",\"xml:space\":\"preserve\"},\":t:`a`\"],\": b\"]]";

/// What a result holds before a call.
fn before() -> RstResult {
    RstResult {
        end: 9,
        status: 9,
        at: 9,
        length: 9,
        messages: 9,
    }
}

fn with_profile(profile: u8) -> RstOptions {
    RstOptions { profile, ..OPTIONS }
}

/// The start of a room.
fn text_in(room: &[u8], length: u64) -> Result<&str, Fail> {
    Ok(str::from_utf8(&room[..(length as usize).min(room.len())])?)
}

#[test]
fn version(rt: HostRuntime) {
    assert_eq!(rt; rst_abi_version(), 1);
}

#[test]
fn prints(rt: HostRuntime) -> Result<(), Fail> {
    let (mut tree, mut messages, mut answer) = ([7u8; 600], [7u8; 100], before());
    rst_print(
        rt.alloc(),
        TEXT,
        b"x",
        &OPTIONS,
        &mut tree,
        &mut messages,
        &mut answer,
    );
    assert_eq!(rt; answer.end, 0);
    assert_eq!(rt; answer.status, 12);
    assert_eq!(rt; text_in(&tree, answer.length)?, TREE);
    assert_eq!(rt; text_in(&messages, answer.messages)?, MESSAGES);
    Ok(())
}

#[test]
fn reads_by_the_profile(rt: HostRuntime) -> Result<(), Fail> {
    let text = b":t:`a`: b\n";
    let (mut json, mut answer) = ([7u8; 600], before());
    rst_json(rt.alloc(), text, &with_profile(0), &mut json, &mut answer);
    assert_eq!(rt; text_in(&json, answer.length)?, FIELD);
    rst_json(rt.alloc(), text, &with_profile(1), &mut json, &mut answer);
    assert_eq!(rt; text_in(&json, answer.length)?, PARAGRAPH);
    Ok(())
}

#[test]
fn refuses_another_profile(rt: HostRuntime) {
    let mut answer = before();
    rst_json(rt.alloc(), TEXT, &with_profile(2), &mut [], &mut answer);
    assert_eq!(rt; answer.end, 1);
}

#[test]
fn gives_json(rt: HostRuntime) -> Result<(), Fail> {
    let (mut json, mut answer) = ([7u8; 600], before());
    rst_json(rt.alloc(), TEXT, &OPTIONS, &mut json, &mut answer);
    assert_eq!(rt; text_in(&json, answer.length)?, JSON);
    assert_eq!(rt; answer.status, 12);
    Ok(())
}

#[test]
fn gives_records(rt: HostRuntime) -> Result<(), Fail> {
    let (mut records, mut answer) = ([7u8; 100], before());
    rst_records(rt.alloc(), b"a\n", &OPTIONS, &mut records, &mut answer);
    assert_eq!(rt; text_in(&records, answer.length)?, RECORDS);
    Ok(())
}

#[test]
fn hands_back(rt: HostRuntime) -> Result<(), Fail> {
    let (text, mut json, mut answer) = (b":t:`a`: b\n", [7u8; 600], before());
    let options = with_profile(1);
    rst_parse(rt.alloc(), text, b":t", &options, &mut json, &mut answer);
    assert_eq!(rt; text_in(&json, answer.length)?, PARSED);
    assert_eq!(rt; answer.status, 0);
    rst_parse(rt.alloc(), text, b"\xff", &options, &mut json, &mut answer);
    assert_eq!(rt; answer.end, 1);
    Ok(())
}

#[test]
fn gives_parsed_records(rt: HostRuntime) -> Result<(), Fail> {
    let (mut records, mut answer) = ([7u8; 100], before());
    rst_parse_records(rt.alloc(), b"a\n", b"", &OPTIONS, &mut records, &mut answer);
    assert_eq!(rt; text_in(&records, answer.length)?, RECORDS);
    Ok(())
}

#[test]
fn gives_messages(rt: HostRuntime) -> Result<(), Fail> {
    let (mut json, mut answer) = ([7u8; 600], before());
    rst_messages(rt.alloc(), TEXT, &OPTIONS, &mut json, &mut answer);
    assert_eq!(rt; text_in(&json, answer.length)?, NOTES);
    assert_eq!(rt; answer.messages, 0);
    Ok(())
}

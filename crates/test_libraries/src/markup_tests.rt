//! Directives, their options and messages, and the options of option lists.
ghost use Rattle.rst_text.specs.ViewBlock.{block_of};
ghost use Rattle.rst_markup_blocks.specs.Parts.{IsCall};

use rst_markup_blocks::{Explicit, Invocation, explicit, kind_of};
use rst_markup_directives::{
    Detail, Directive, DirectiveFault, Place, called, directive, message, target_value,
};
use rst_markup_lines::listed_options;
use rst_settings::Parts;
use rst_text::{Lines, Looks, View};
use std::alloc::{AllocError, Global};
use std::test::Fail;

/// The directive that is called at the first line of a view.
pub fn first_directive(
    alloc: Global,
    view: &View<'_>,
    call: &Invocation,
    place: Place,
    paragraph: bool,
) -> Result<Directive, AllocError>
    requires { IsCall (block_of view.now) 0 call.now }
{
    let mut looks = Looks::none();
    let name = called(alloc, view, 0, call, &mut looks)?;
    directive(
        alloc, name, view, 0, call.block, place, paragraph, &mut looks,
    )
}

/// Directives, and what they are.
const DIRECTIVES: &[(&str, &str)] = &[
    (
        ".. note:: a\n   :class: x y\n   :name: N  m\n\n   t\n\n   u",
        "Found { kind: Kind { element: Note, argument: Absent, options: Common, content: Blocks, allowed: Body }, argument: Absent, options: [Setting { option: Class, value: Classes([\"x\", \"y\"]) }, Setting { option: Name, value: Name(\"n m\") }], content: Content { first: Part { from: 0, to: 1, first_cut: 10, rest_cut: 3 }, second: Part { from: 4, to: 7, first_cut: 3, rest_cut: 3 } } }",
    ),
    (
        ".. image:: a b\n   c.png\n   :alt: A\n     B\n   :width: 50 %\n   :Scale: 050 %\n   :align: top\n   :target: `x y`_",
        "Found { kind: Kind { element: Image, argument: Uri, options: Image, content: Empty, allowed: Anywhere }, argument: Uri(\"abc.png\"), options: [Setting { option: Alt, value: Text(\"A\\nB\") }, Setting { option: Width, value: Measure(\"50%\") }, Setting { option: Scale, value: Number(50) }, Setting { option: Align, value: Place(Top) }, Setting { option: Target, value: Link { to: Name(\"x y\"), source: \"`x y`_\" } }], content: Content { first: Part { from: 0, to: 0, first_cut: 11, rest_cut: 3 }, second: Part { from: 8, to: 8, first_cut: 3, rest_cut: 3 } } }",
    ),
    (
        ".. tip:: a\n   :foo: 1",
        "Wrong { fault: Inside(UnknownOption(\"foo\")), source: Part { from: 0, to: 2, first_cut: 0, rest_cut: 0 } }",
    ),
];

#[test]
fn reads_directives(rt: HostRuntime) -> Result<(), Fail> {
    let alloc = rt.alloc();
    for &(text, want) in DIRECTIVES {
        let lines = Lines::of(alloc, text, 8, Parts::NONE)?;
        let view = View::whole(&lines);
        let mut looks = Looks::none();
        assert!(rt; 0 < view.len());
        assert!(rt; kind_of(&view, 0, &mut looks).is_explicit());
        match explicit(&view, 0, &mut looks) {
            Explicit::Directive(call) => {
                let found = first_directive(alloc, &view, &call, Place::Top, false)?;
                let got = format!(in alloc; "{found:?}")?;
                assert_eq!(rt; got.as_str(), want, "{text}");
            }
            _ => assert!(rt; false, "{text}"),
        }
    }
    Ok(())
}

#[test]
fn reads_targets(rt: HostRuntime) -> Result<(), Fail> {
    let alloc = rt.alloc();
    for &(text, want) in &[
        ("", "None"),
        ("x_", "Some(Name(\"x\"))"),
        ("`b c`_", "Some(Name(\"b c\"))"),
        ("http://x y\\_", "Some(Uri(\"http://xy_\"))"),
    ] {
        let target = target_value(alloc, text)?;
        let got = format!(in alloc; "{target:?}")?;
        assert_eq!(rt; got.as_str(), want, "{text}");
    }
    Ok(())
}

#[test]
fn says_what_is_wrong(rt: HostRuntime) -> Result<(), Fail> {
    let alloc = rt.alloc();
    let option = String::from_str(alloc, "foo")?;
    let fault = DirectiveFault::Inside(Detail::UnknownOption(option));
    let text = message(alloc, &fault, "Image")?;
    let want = "Error in \"Image\" directive:\nunknown option: \"foo\".";
    assert_eq!(rt; text.as_str(), want);
    let text = message(alloc, &DirectiveFault::NoContent, "tip")?;
    let want = "Content block expected for the \"tip\" directive; none found.";
    assert_eq!(rt; text.as_str(), want);
    Ok(())
}

#[test]
fn lists_options(rt: HostRuntime) -> Result<(), Fail> {
    let alloc = rt.alloc();
    for &(text, want) in &[
        ("a", "[]"),
        (
            "-a X, --bc=Y  d",
            "[ListedOption { string: Characters { from: 0, to: 2 }, argument: Some(ListedArgument { delimiter: Space, text: Characters { from: 3, to: 4 } }) }, ListedOption { string: Characters { from: 6, to: 10 }, argument: Some(ListedArgument { delimiter: Equals, text: Characters { from: 11, to: 12 } }) }]",
        ),
    ] {
        let options = listed_options(alloc, text)?;
        let got = format!(in alloc; "{options:?}")?;
        assert_eq!(rt; got.as_str(), want, "{text}");
    }
    Ok(())
}

//! The library for C: what the program prints for a text, its tree and its messages, in the caller's memory.
#![tactic(auto)]

ghost use Rattle.std.specs.Prelude.{◌≡◌, false, true};
ghost use Rattle.rst_c.specs.Answers.{c_result_of, form_wanted, messages_after, parse_wanted, print_wanted, tree_after, Answers, AnswersHanding};
ghost use Rattle.rst_c.specs.declared.document.Form.TheVariants.{DocumentJson, DocumentRecords, MessagesJson};

mod answer;
mod document;
mod options;
pub mod rows;

use answer::{RstResult, tell};
use document::{Form, formed, parsed, printed};
use options::RstOptions;
use std::alloc::Global;

/// The version of this interface.
#[unsafe(no_mangle)]
pub extern "C" fn rst_abi_version() -> u32
    ensures { result ≡ 1 }
{
    1
}

/// What the program prints for a text: standard output in one room, standard error in the other, each if it fits.
#[unsafe(no_mangle)]
pub extern "C" fn rst_print(
    alloc: Global,
    text: &[u8],
    source: &[u8],
    options: &RstOptions,
    tree: &mut [u8],
    messages: &mut [u8],
    answer: &mut RstResult,
)
    ensures { Answers options.now (λ settings. print_wanted settings source.now text.now)
        (λ made. (answer.new ≡ c_result_of made) × (tree.new ≡ tree_after made tree.old) × (messages.new ≡ messages_after made messages.old)) }
{
    let made = printed(alloc, text, source, options.settings());
    *answer = tell(&made, tree, messages);
}

/// The finished document of a text as JSON, if it fits.
#[unsafe(no_mangle)]
pub extern "C" fn rst_json(
    alloc: Global,
    text: &[u8],
    options: &RstOptions,
    json: &mut [u8],
    answer: &mut RstResult,
)
    ensures { Answers options.now (λ settings. form_wanted DocumentJson settings text.now)
        (λ made. (answer.new ≡ c_result_of made) × (json.new ≡ tree_after made json.old)) }
{
    let made = formed(alloc, text, options.settings(), Form::DocumentJson);
    *answer = tell(&made, json, &mut []);
}

/// The finished document of a text as records, if they fit.
#[unsafe(no_mangle)]
pub extern "C" fn rst_records(
    alloc: Global,
    text: &[u8],
    options: &RstOptions,
    records: &mut [u8],
    answer: &mut RstResult,
)
    ensures { Answers options.now (λ settings. form_wanted DocumentRecords settings text.now)
        (λ made. (answer.new ≡ c_result_of made) × (records.new ≡ tree_after made records.old)) }
{
    let made = formed(alloc, text, options.settings(), Form::DocumentRecords);
    *answer = tell(&made, records, &mut []);
}

/// What is parsed of a text as JSON, if it fits: the document before the transforms, in which directives and roles of these names are handed back.
#[unsafe(no_mangle)]
pub extern "C" fn rst_parse(
    alloc: Global,
    text: &[u8],
    names: &'static [u8],
    options: &RstOptions,
    json: &mut [u8],
    answer: &mut RstResult,
)
    ensures { AnswersHanding options.now names.now (λ settings. parse_wanted false settings text.now)
        (λ made. (answer.new ≡ c_result_of made) × (json.new ≡ tree_after made json.old)) }
{
    let made = parsed(alloc, text, options.settings_handing(names), false);
    *answer = tell(&made, json, &mut []);
}

/// The same as records.
#[unsafe(no_mangle)]
pub extern "C" fn rst_parse_records(
    alloc: Global,
    text: &[u8],
    names: &'static [u8],
    options: &RstOptions,
    records: &mut [u8],
    answer: &mut RstResult,
)
    ensures { AnswersHanding options.now names.now (λ settings. parse_wanted true settings text.now)
        (λ made. (answer.new ≡ c_result_of made) × (records.new ≡ tree_after made records.old)) }
{
    let made = parsed(alloc, text, options.settings_handing(names), true);
    *answer = tell(&made, records, &mut []);
}

/// The messages on a text as JSON, if they fit: those that are reported, in their order.
#[unsafe(no_mangle)]
pub extern "C" fn rst_messages(
    alloc: Global,
    text: &[u8],
    options: &RstOptions,
    json: &mut [u8],
    answer: &mut RstResult,
)
    ensures { Answers options.now (λ settings. form_wanted MessagesJson settings text.now)
        (λ made. (answer.new ≡ c_result_of made) × (json.new ≡ tree_after made json.old)) }
{
    let made = formed(alloc, text, options.settings(), Form::MessagesJson);
    *answer = tell(&made, json, &mut []);
}

#[cfg(test)]
mod tests;

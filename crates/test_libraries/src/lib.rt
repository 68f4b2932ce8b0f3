//! Tests of the libraries, through their public calls alone.
#![tactic(auto)]

#[cfg(test)]
mod blocks_tests;
#[cfg(test)]
mod inline_tests;
#[cfg(test)]
mod marked_tests;
#[cfg(test)]
mod markup_tests;
#[cfg(test)]
mod options_tests;
#[cfg(test)]
mod tables_tests;
#[cfg(test)]
mod transforms_tests;
#[cfg(test)]
mod tree_tests;

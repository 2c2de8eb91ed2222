//! Worked examples of the definitions that the contracts of the other crates cite.
#![tactic(auto)]

ghost use Rattle.examples.specs.Examples.{Examples};

/// Sizes, frames, answers and replacements come out as the examples have them.
pub fn examples_stand()
    ensures { Examples }
{}

// Tests of the journal words.
#![tactic(auto)]

#[cfg(test)]
mod tests;

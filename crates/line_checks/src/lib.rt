// Tests of lines: what every line does, and where it refuses.
#![tactic(auto)]

#[cfg(test)]
mod tests;

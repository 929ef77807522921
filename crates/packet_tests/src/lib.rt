// Tests of sealed packets: a known check value, single turned bits, and every load's length.
#![tactic(auto)]

#[cfg(test)]
mod tests;

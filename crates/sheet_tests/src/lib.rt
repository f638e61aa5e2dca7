// Tests of the sheet: what its check refuses and where, what is still lawful, and what it answers.
#![tactic(auto)]

#[cfg(test)]
mod answers;
#[cfg(test)]
mod fields;
#[cfg(test)]
mod sample;
#[cfg(test)]
mod scores;

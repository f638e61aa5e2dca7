// Tests of the readers: what each refuses and where, and what is still lawful.
#![tactic(auto)]

#[cfg(test)]
mod faces;
#[cfg(test)]
mod photographs;
#[cfg(test)]
mod refusals;

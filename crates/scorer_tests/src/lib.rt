// Tests of the scorers: what a printed scorer answers, and what a window and a lent scorer answer over it and over a sheet.
#![tactic(auto)]

#[cfg(test)]
mod asking;
#[cfg(test)]
mod columns;
#[cfg(test)]
mod making;
#[cfg(test)]
mod noise;
#[cfg(test)]
mod sample;
#[cfg(test)]
mod sheets;
#[cfg(test)]
mod windows;
#[cfg(test)]
mod worth;

// Paths through a line: what a path is made of. The definitions and laws of paths and sweeps stand in specs/ and proofs/.
#![tactic(auto)]

// A node of a path: template `template` at column `column`.
#[derive(Clone, Copy)]
pub struct Node {
    pub column: usize,
    pub template: usize,
}

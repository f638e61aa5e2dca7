// Reads face.bin and line.pbm in the current folder and prints the listing of the line, or the refusal.
#![tactic(auto)]

use listing::{list_files, print_answer};

fn main(rt: HostRuntime) -> anyhow::Result<()> {
    print_answer(&rt, list_files(&rt, "face.bin", "line.pbm"))
}

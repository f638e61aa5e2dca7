// Lists pairs of files that lie at the edge of what can be read, and prints what is told of each.
#![tactic(auto)]

use listing::{list_files, print_answer};

// What a pair shows, its face and its photograph.
struct Pair(&'static str, &'static str, &'static str);

const PAIRS: [Pair; 10] = [
    Pair("both there", "good/face.bin", "good/line.pbm"),
    Pair("no face", "none/face.bin", "good/line.pbm"),
    Pair(
        "the face is a folder",
        "face_is_a_folder/face.bin",
        "good/line.pbm",
    ),
    Pair("an empty face", "empty_face/face.bin", "good/line.pbm"),
    Pair("an endless face", "/dev/zero", "good/line.pbm"),
    Pair(
        "a bad face and no photograph",
        "bad_face/face.bin",
        "bad_face/line.pbm",
    ),
    Pair(
        "no photograph",
        "no_photograph/face.bin",
        "no_photograph/line.pbm",
    ),
    Pair(
        "the photograph is a folder",
        "photograph_is_a_folder/face.bin",
        "photograph_is_a_folder/line.pbm",
    ),
    Pair(
        "an empty photograph",
        "empty_photograph/face.bin",
        "empty_photograph/line.pbm",
    ),
    Pair("an endless photograph", "good/face.bin", "/dev/zero"),
];

fn main(rt: HostRuntime) -> anyhow::Result<()> {
    for Pair(what, face, photo) in &PAIRS {
        print!(rt; "{what}: ")?;
        print_answer(&rt, list_files(&rt, face, photo))?;
    }
    Ok(())
}

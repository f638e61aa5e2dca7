// One cell of the memory that a search is lent.
ghost use Rattle.std.specs.Prelude.{◌≡◌};
ghost use Rattle.cells.specs.Blank.{blank, total_in, of_place};

// A node's cell holds its standing score and its mark; a place's cell its total, whether it is reached, its last
// template, whether a newly marked node ends there, and a stop of the path.
// A score beside a flag, which `total` reads as an Option: a tag of its own makes a cell 48 bytes, not 32, and a sweep half as long again.
#[derive(Clone, Copy, Default)]
pub struct Cell {
    pub score: i64,
    pub marked: bool,
    pub fresh: bool,
    pub template: usize,
    pub stop: usize,
}

impl Cell {
    // The cell that is all zero.
    pub fn blank() -> Cell
        ensures { result ≡ blank }
    {
        Cell::default()
    }

    // The cell of a place with this total, or none, and this last template.
    pub fn of_place(total: Option<i64>, template: usize) -> Cell
        ensures { result ≡ of_place total template }
    {
        Cell {
            score: total.unwrap_or_default(),
            marked: total.is_some(),
            template,
            ..Cell::blank()
        }
    }

    // The total that a place's cell holds, if the place is reached.
    pub fn total(&self) -> Option<i64>
        ensures { result ≡ total_in self.now }
    {
        self.marked.then_some(self.score)
    }
}

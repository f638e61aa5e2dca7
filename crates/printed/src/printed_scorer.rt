// The scorer of a face and a photograph.
ghost use Rattle.std.specs.Prelude.{◌≡◌, ℕ, ℤ, ◌+◌, ◌+ℤ◌, ◌<◌, ◌≤◌, IfSome, is_some, nat_lt};
ghost use Rattle.octets.specs.Absent.{present};
ghost use Rattle.face.specs.Fields.{count, levels, gamma, box_width, columns_before};
ghost use Rattle.matching.proofs.Lawful.{shift_within};
ghost use Rattle.matching.proofs.Ranges.{Within};
ghost use Rattle.matching.specs.Column.{gain};
ghost use Rattle.matching.specs.Counts.{sum_signed};
ghost use Rattle.matching.specs.Printed.{base, rows, black_count, value_of, bound_score, column_over_black, score_at, shift_of};
ghost use Rattle.scorer.specs.Meaning.{is_node};
ghost use Rattle.printed.specs.Bests.{best_of};
ghost use Rattle.printed.specs.Columns.{Computes, column_of, image_columns};
ghost use Rattle.printed.specs.Gathered.{Gathered, image_of, width_of};
ghost use Rattle.printed.specs.Laws.{PrintedScores};
ghost use Rattle.printed.specs.Line.{line_lawful};
ghost use Rattle.printed.specs.Scored.{line_meaning};
ghost use Rattle.printed.specs.Tables.{weights_of, face_values};
ghost use Rattle.printed.specs.Tabulated.{template_of, face_templates, Tabulated};

use super::best::Best;
use super::image::{Column, Columns};
use super::strip::{Strip, Weighed};
use super::tables::{Tables, Template};
use super::values::Values;
use face::Face;
use photo::Photograph;
use scorer::{PlacedScorer, Scorer, ends_on_line};
use std::cmp::Reverse;

// A face laid over a photograph, with what was gathered of both. The face and its weights are no `Weighed` here, since the
// clauses of `new` and the scorer's meaning speak of the field `face`; `Node::stand` makes one.
#[derive(Clone, Copy)]
pub struct Printed<'f, 'p, 'c, 't> {
    face: Face<'f>,
    photo: Photograph<'p>,
    columns: &'c [Column],
    weights: &'t [i16],
    templates: &'t [Template],
    values: &'t [Values],
    ghost gathered: { columns.now ≡ image_columns (image_of photo) (rows face.bytes.now) (width_of photo) },
    ghost weighed: { weights.now ≡ weights_of face.bytes.now },
    ghost listed: { templates.now ≡ face_templates face.bytes.now },
    ghost valued: { values.now ≡ face_values face.bytes.now },
}

// A template that stands at a column of a line.
#[derive(Clone, Copy)]
struct Node<'s, 'f, 'p, 'c, 't> {
    line: &'s Printed<'f, 'p, 'c, 't>,
    x: usize,
    t: usize,
    template: Template,
    ghost known: { t < count line.now.face.bytes.now },
    ghost low: { x ≤ 2048 },
    ghost laid: { template ≡ template_of line.now.face.bytes.now t },
}

// A node, with the columns of its template's box.
#[derive(Clone, Copy)]
struct Standing<'s, 'f, 'p, 'c, 't> {
    node: Node<'s, 'f, 'p, 'c, 't>,
    strip: Strip<'f, 't>,
    ghost faced: { strip.weighed.face ≡ node.line.now.face },
    ghost begins: { strip.first ≡ node.template.first },
    ghost wide: { strip.width ≡ node.template.width },
}

impl<'f, 'p, 'c, 't> Printed<'f, 'p, 'c, 't> {
    // The scorer of a face and a photograph, with the columns that `gather` and the tables that `tabulate` made of them.
    pub fn new(
        face: Face<'f>,
        photo: Photograph<'p>,
        columns: &'c Columns,
        tables: &'t Tables,
    ) -> Printed<'f, 'p, 'c, 't>
        requires { (Gathered face.bytes.now photo columns.now) × (Tabulated face.bytes.now tables.now) }
        ensures face { result.face ≡ face.entry }
        ensures photo { result.photo ≡ photo.entry }
        ensures scores { PrintedScores face.entry.bytes.now (image_of photo.entry) }
    {
        scores_law(&face, &photo);
        Printed {
            face,
            photo,
            columns: columns.columns.as_slice(),
            weights: tables.weights.as_slice(),
            templates: tables.templates.as_slice(),
            values: tables.values.as_slice(),
        }
    }

    // What is known of template `t`.
    fn template(&self, t: usize) -> Option<Template>
        ensures { result ≡ present (nat_lt t (count self.now.face.bytes.now)) (template_of self.now.face.bytes.now t) }
    {
        self.templates.get(t).copied()
    }

    // Template `t` at column `x`, if that is a node.
    fn node(&self, x: usize, t: usize) -> Option<Node<'_, 'f, 'p, 'c, 't>>
        ensures found { is_some result ≡ is_node (line_meaning self.now.face.bytes.now self.now.photo) x t }
        ensures node { IfSome result (λ n. (n.line.now ≡ self.now) × (n.x ≡ x) × (n.t ≡ t)) }
    {
        let template = self.template(t)?;
        let width = self.photo.width();
        if ends_on_line(x, template.setwidth, width) {
            Some(Node {
                line: self,
                x,
                t,
                template,
            })
        } else {
            None
        }
    }

    // Column `x` of the photograph; right of it all are white.
    fn column(&self, x: usize) -> Column
        ensures { result ≡ column_of (image_of self.now.photo) (rows self.now.face.bytes.now) x }
    {
        self.columns.get(x).copied().unwrap_or_default()
    }

    // What a column of the face can earn over a column of the photograph.
    fn value_at(&self, column: usize, x: usize) -> i64
        requires { column < columns_before self.now.face.bytes.now (count self.now.face.bytes.now) }
        ensures { result ≡ value_of self.now.face.bytes.now column (black_count self.now.face.bytes.now (image_of self.now.photo) x) }
    {
        self.values[column][self.column(x).black]
    }
}

impl<'s, 'f, 'p, 'c, 't> Node<'s, 'f, 'p, 'c, 't> {
    // What column `c` of the box can earn where it stands.
    fn value(&self, c: usize) -> i64
        requires { c < box_width self.now.line.now.face.bytes.now self.now.t }
        ensures { result ≡ value_of self.now.line.now.face.bytes.now (columns_before self.now.line.now.face.bytes.now self.now.t + c) (black_count self.now.line.now.face.bytes.now (image_of self.now.line.now.photo) (self.now.x + c)) }
    {
        self.line.value_at(self.template.first + c, self.x + c)
    }

    // The bound of the node.
    fn bound(&self) -> i64
        ensures { result ≡ bound_score self.now.line.now.face.bytes.now (image_of self.now.line.now.photo) self.now.x self.now.t }
    {
        self.over_columns(|c| self.value(c))
    }

    // What the template earns wherever it stands, and the gain of each column of its box. By a loop: by `map` and `sum`, a bound
    // over a box of one column takes half as long again.
    fn over_columns<G: Fn(usize) -> i64>(&self, gain: G) -> i64
        requires pre { (c : ℕ) → c < box_width self.now.line.now.face.bytes.now self.now.t → G.pre gain c }
        requires small { (f : ℕ → ℤ) × (Computes (G.post gain) f) × ((c : ℕ) → c < box_width self.now.line.now.face.bytes.now self.now.t → Within 144000 (f c)) }
        ensures { (f : ℕ → ℤ) → Computes (G.post gain) f → result ≡ base self.now.line.now.face.bytes.now self.now.t +ℤ sum_signed (box_width self.now.line.now.face.bytes.now self.now.t) f }
    {
        let Template { base, width, .. } = self.template;
        let mut score = base;
        for c in 0..width {
            score += gain(c);
        }
        score
    }

    // The node with the columns of its template's box.
    fn stand(self) -> Standing<'s, 'f, 'p, 'c, 't>
        ensures { result.node ≡ self.entry }
    {
        let weighed = Weighed {
            face: self.line.face,
            weights: self.line.weights,
        };
        Standing {
            node: self,
            strip: weighed.strip(self.template.first, self.template.width),
        }
    }
}

impl<'s, 'f, 'p, 'c, 't> Standing<'s, 'f, 'p, 'c, 't> {
    // What column `c` of the box earns with row 0 of the box on row `s` of the photograph.
    fn gain(&self, c: usize, s: usize) -> i64
        requires { (c < box_width self.now.node.line.now.face.bytes.now self.now.node.t) × (s ≤ 4) }
        ensures { result ≡ gain (gamma self.now.node.line.now.face.bytes.now) (levels self.now.node.line.now.face.bytes.now) (column_over_black self.now.node.line.now.face.bytes.now (image_of self.now.node.line.now.photo) self.now.node.x self.now.node.t s c) }
    {
        let column = self.node.line.column(self.node.x + c);
        self.strip.column_gain(c, column.word >> s)
    }

    // The score of the node with row 0 of its box on row `s` of the photograph.
    fn score(&self, s: usize) -> i64
        requires { s ≤ 4 }
        ensures { result ≡ score_at self.now.node.line.now.face.bytes.now (image_of self.now.node.line.now.photo) self.now.node.x self.now.node.t s }
    {
        self.node.over_columns(|c| self.gain(c, s))
    }

    // The highest row that reaches the exact score of the node, and that score.
    fn best(&self) -> Best
        ensures value { result ≡ best_of self.now.node.line.now.face.bytes.now (image_of self.now.node.line.now.photo) self.now.node.x self.now.node.t }
        ensures within { result.row ≤ 4 }
    {
        // By the opposite key: of equal rows `max_by_key` takes the last, and `min_by_key` the first, which is wanted.
        (0..5)
            .map(|row| Best {
                score: self.score(row),
                row,
            })
            .min_by_key(|best| Reverse(best.score))
            .unwrap()
    }
}

impl<'f, 'p, 'c, 't> Scorer for Printed<'f, 'p, 'c, 't> {
    ghost meaning = { λ s. line_meaning s.face.bytes.now s.photo };

    ghost lawful = { λ s. line_lawful s.face.bytes.now s.photo s.face.lawful };

    fn width(&self) -> usize {
        self.photo.width()
    }

    fn count(&self) -> usize {
        self.face.count()
    }

    fn setwidth(&self, t: usize) -> Option<usize> {
        let template = self.template(t)?;
        Some(template.setwidth)
    }

    fn bound(&self, x: usize, t: usize) -> Option<i64> {
        let node = self.node(x, t)?;
        Some(node.bound())
    }

    fn exact(&self, x: usize, t: usize) -> Option<i64> {
        let best = self.node(x, t)?.stand().best();
        Some(best.score)
    }
}

impl<'f, 'p, 'c, 't> PlacedScorer for Printed<'f, 'p, 'c, 't> {
    ghost shifts = { λ s. shift_of s.face.bytes.now (image_of s.photo) };

    ghost within = { λ s x t. shift_within s.face.bytes.now (image_of s.photo) x t };

    fn shift(&self, x: usize, t: usize) -> Option<i64> {
        let best = self.node(x, t)?.stand().best();
        Some(best.shift())
    }
}

// Does nothing: its contract is the laws that printed scores and bounds are what they are called.
fn scores_law(face: &Face, photo: &Photograph)
    ensures { PrintedScores face.now.bytes.now (image_of photo.now) }
{}

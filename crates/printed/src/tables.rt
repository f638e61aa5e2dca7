// What is worked out once for a face: what each template earns wherever it stands, and what each of its columns can earn.
ghost use Rattle.std.specs.Prelude.{◌≡◌, ◌<◌, IfOk};
ghost use Rattle.face.specs.Fields.{count, columns_before};
ghost use Rattle.printed.specs.Tables.{weights_of, face_values};
ghost use Rattle.printed.specs.Tabulated.{template_of, face_templates, Tabulated};

use super::strip::Weighed;
use super::values::Values;
use face::Face;
use std::alloc::{AllocError, Global};

// What is known of a template wherever it stands: its setwidth, the columns of its box, the first of them, where columns
// are counted over all templates, and what it earns before any pixel is looked at.
#[derive(Clone, Copy)]
pub struct Template {
    pub(crate) setwidth: usize,
    pub(crate) width: usize,
    pub(crate) first: usize,
    pub(crate) base: i64,
}

// What is known of a face: what a pixel of each level earns over black, the templates, and what each column can earn for
// each number of black pixels under it.
#[derive(Drop)]
pub struct Tables {
    pub(crate) weights: Vec<i16>,
    pub(crate) templates: Vec<Template>,
    pub(crate) values: Vec<Values>,
}

// What a pixel of each level earns over black.
fn list_weights(heap: Global, face: &Face) -> Result<Vec<i16>, AllocError>
    ensures { IfOk result (λ v. v.items ≡ weights_of face.now.bytes.now) }
{
    (0..face.levels())
        .map(|l| face.gamma(l).unwrap())
        .collect(heap)
}

impl<'f, 'w> Weighed<'f, 'w> {
    // What is known of a template, whose first column is `first`.
    fn template(&self, t: usize, first: usize) -> Template
        requires { (t < count self.now.face.bytes.now) × (first ≡ columns_before self.now.face.bytes.now t) }
        ensures { result ≡ template_of self.now.face.bytes.now t }
    {
        let width = usize::from(self.face.box_width(t).unwrap());
        let worth = self.strip(first, width).worth();
        Template {
            setwidth: usize::from(self.face.setwidth(t).unwrap()),
            width,
            first,
            base: i64::from(self.face.prior(t).unwrap()) + worth,
        }
    }

    // The templates of the face, in their order.
    fn list_templates(&self, heap: Global) -> Result<Vec<Template>, AllocError>
        ensures { IfOk result (λ v. v.items ≡ face_templates self.now.face.bytes.now) }
    {
        let count = self.face.count();
        let mut templates = Vec::with_capacity(heap, count)?;
        let mut first = 0;
        // A loop: `scan` over the first column, and a second chain to stop where memory is wanting, are no plainer.
        for t in 0..count {
            let template = self.template(t, first);
            templates.push(template)?;
            first += template.width;
        }
        Ok(templates)
    }

    // How many columns the boxes of all templates have.
    fn columns(&self, templates: &[Template]) -> usize
        requires { templates.now ≡ face_templates self.now.face.bytes.now }
        ensures { result ≡ columns_before self.now.face.bytes.now (count self.now.face.bytes.now) }
    {
        templates.iter().map(|template| template.width).sum()
    }

    // What each column of the face can earn, for each number of black pixels under it.
    fn list_values(&self, heap: Global, templates: &[Template]) -> Result<Vec<Values>, AllocError>
        requires { templates.now ≡ face_templates self.now.face.bytes.now }
        ensures { IfOk result (λ v. v.items ≡ face_values self.now.face.bytes.now) }
    {
        self.strip(0, self.columns(templates)).list_values(heap)
    }
}

// What is worked out once for a face.
pub fn tabulate(heap: Global, face: &Face) -> Result<Tables, AllocError>
    ensures { IfOk result (λ tables. Tabulated face.now.bytes.now tables) }
{
    let weights = list_weights(heap, face)?;
    let weighed = Weighed {
        face: *face,
        weights: &weights,
    };
    let templates = weighed.list_templates(heap)?;
    let values = weighed.list_values(heap, &templates)?;
    Ok(Tables {
        weights,
        templates,
        values,
    })
}

//! A paragraph with the sums that are known of it.
ghost use Rattle.std.specs.Prelude.{◌≡◌, ◌≤◌, ◌∷◌, [], IfOk};
ghost use Rattle.lb_model_paper.specs.Breaks.{first_pass, glue_node, items_in, sums_of};
ghost use Rattle.lb_measure.specs.Amounts.{AreNear};
ghost use Rattle.lb_measure.specs.Measures.{IsMeasured, pass_of};

use crate::amounts::{added, glue_sums};
use crate::leads::leads;
use crate::places::{Place, places};
use lb_base::Node;
use lb_model_paper::paragraph::{LineSums, Shape};
use std::alloc::{AllocError, Global};

/// A paragraph's list and shape, the sums of the glue at the ends of each line, the breaks by their
/// numbers, how many discardables stand in a row from each item on, and the tolerance of a pass, which
/// takes bad lines as well or none.
#[derive(Drop)]
pub struct Measured<'a> {
    pub list: &'a [Node],
    pub shape: Shape,
    pub ends: LineSums,
    pub places: Vec<Place>,
    pub leads: Vec<usize>,
    pub tolerance: i32,
    pub keeps_bad: bool,
}

/// A paragraph of at most 65,536 items, for its first pass.
pub fn measure<'a>(
    alloc: Global,
    list: &'a [Node],
    shape: &Shape,
) -> Result<Measured<'a>, AllocError>
    requires { items_in list.now ≤ 65536 }
    ensures measured { IfOk result IsMeasured }
    ensures list { IfOk result (λ m. m.list.now ≡ list.now) }
    ensures shape { IfOk result (λ m. m.shape ≡ shape.now) }
    ensures first { IfOk result (λ m. pass_of m ≡ first_pass shape.now.rules) }
{
    let shape = *shape;
    let places = places(alloc, &shape.rules, list)?;
    let leads = leads(alloc, list)?;
    Ok(Measured {
        list,
        shape,
        ends: end_sums(&shape),
        places,
        leads,
        tolerance: shape.rules.pretolerance,
        keeps_bad: false,
    })
}

/// The sums of the glue at both ends of a line.
fn end_sums(shape: &Shape) -> LineSums
    ensures value { result ≡ sums_of (glue_node shape.now.left ∷ glue_node shape.now.right ∷ []) }
    ensures near { AreNear 2 result }
{
    added(&glue_sums(&shape.left), &glue_sums(&shape.right))
}

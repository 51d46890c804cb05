//! The shifts through the items of a box. Lengths are in scaled points.
ghost use Rattle.std.specs.Prelude.{◌≡◌, ◌<◌, length};
ghost use Rattle.lb_base.specs.declared.node.Boxed.{out-Boxed};
ghost use Rattle.lb_model_paper.specs.Boxes.{give_of, shift_behind, shift_through};
ghost use Rattle.lb_nodes.specs.Bounds.{IsLength, IsLongSum};
ghost use Rattle.lb_nodes.specs.Setting.{Given, given_behind, given_past, shift_given};

use crate::give::{give_in, give_of, sum_of};
use crate::setting::{held, shift_behind};
use lb_base::{Boxed, GlueSet, Node};
use std::marker::Model;

/// The shift through an item of a box: how far the glue of the items up to that one, itself
/// counted, moves what stands behind it. Where 32 bits do not hold it, which no packing makes, it is
/// the nearest length that they hold.
pub fn shift_at(boxed: &Boxed, item: usize) -> i32
    requires { item < length (out-Boxed boxed.now).items }
    ensures { IsLength (shift_through boxed.now item) → result ≡ shift_through boxed.now item }
{
    let items = boxed.items.as_slice();
    let part = give_in(boxed.glue_set, &items[..item + 1]);
    held(shift_behind(boxed.glue_set, part, give_in(boxed.glue_set, items)))
}

/// The shifts through the items of a box, one by one in order. Each takes constant time.
#[derive(Drop)]
pub struct Shifts {
    set: GlueSet,
    part: i128,
    whole: i128,
    shift: i128,
    ghost part_is: { IsLongSum part },
    ghost whole_is: { IsLongSum whole },
    ghost shift_is: { shift ≡ shift_behind set part whole },
}

impl Model for Shifts {
    ghost Value = { Given };

    ghost view = { λ s. record { set = s.set; part = s.part; whole = s.whole } };
}

impl Shifts {
    /// Before the first item of a box.
    pub fn over(boxed: &Boxed) -> Shifts
        ensures { result ≡ given_behind boxed.now 0 }
    {
        let whole = give_in(boxed.glue_set, boxed.items.as_slice());
        Shifts {
            set: boxed.glue_set,
            part: 0,
            whole,
            shift: shift_behind(boxed.glue_set, 0, whole),
        }
    }

    /// The shift through the item that comes next. What the items gone over have to give has to stay
    /// below 2^95 in size, which holds for as many as one list can have.
    pub fn through(&mut self, node: &Node) -> i128
        ensures give { IsLength (give_of self.old.set node.now) }
        ensures given { IsLongSum (given_past self.old node.now).part
            → self.new ≡ given_past self.old node.now }
        ensures shift { result ≡ shift_given self.new }
    {
        let give = give_of(self.set, node);
        if give != 0 {
            self.part = sum_of(self.part, give);
            self.shift = shift_behind(self.set, self.part, self.whole);
        }
        self.shift
    }
}

//! Amounts of stretch or shrink by their order. Lengths are in scaled points.
ghost use Rattle.std.specs.Prelude.{◌≡◌, ◌↔◌, IsTrue, pos, ◌+ℤ◌, if◌then◌else◌};
ghost use Rattle.lb_model_paper.specs.Boxes.{highest};
ghost use Rattle.lb_model_paper.specs.Nodes.{same_order};

use crate::small::are_both_small;
use lb_base::Order;

#[derive(Clone, Copy)]
pub struct ByOrder {
    pub finite: i64,
    pub fil: i64,
    pub fill: i64,
    pub filll: i64,
}

impl ByOrder {
    ghost use Rattle.lb_nodes.specs.Totals.{amount_in, AreSmallAmounts};

    pub fn nothing() -> ByOrder
        ensures amounts { (order : Order) → amount_in result order ≡ pos 0 }
        ensures small { AreSmallAmounts result }
    {
        ByOrder {
            finite: 0,
            fil: 0,
            fill: 0,
            filll: 0,
        }
    }

    pub fn amount(&self, order: Order) -> i64
        ensures { result ≡ amount_in self.now order }
    {
        match order {
            Order::Finite => self.finite,
            Order::Fil => self.fil,
            Order::Fill => self.fill,
            Order::Filll => self.filll,
        }
    }

    /// Adds an amount to those of its order.
    pub fn add(&mut self, order: Order, amount: i32)
        requires { AreSmallAmounts self.old }
        ensures { (other : Order) → amount_in self.new other
            ≡ amount_in self.old other +ℤ (if same_order order other then amount else pos 0) }
    {
        let amount = i64::from(amount);
        match order {
            Order::Finite => self.finite += amount,
            Order::Fil => self.fil += amount,
            Order::Fill => self.fill += amount,
            Order::Filll => self.filll += amount,
        }
    }

    pub fn are_small(&self) -> bool
        ensures { IsTrue result ↔ AreSmallAmounts self.now }
    {
        are_both_small(self.finite, self.fil) && are_both_small(self.fill, self.filll)
    }

    /// The highest order whose amount is not 0.
    pub fn highest(&self) -> Order
        ensures { result ≡ highest (amount_in self.now) }
    {
        if self.filll != 0 {
            Order::Filll
        } else if self.fill != 0 {
            Order::Fill
        } else if self.fil != 0 {
            Order::Fil
        } else {
            Order::Finite
        }
    }
}

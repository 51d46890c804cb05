//! Amounts of stretch or shrink by their order. Lengths are in scaled points.
ghost use Rattle.std.specs.Prelude.{◌≡◌, pos, ◌+ℤ◌, if◌then◌else◌};
ghost use Rattle.std.specs.Bool.{OnTrue};
ghost use Rattle.lb_model_paper.specs.Boxes.{are_small_in};
ghost use Rattle.lb_model_paper.specs.Dvi.{is_small, IsSmall};
ghost use Rattle.lb_model_paper.specs.Nodes.{same_order};

use lb_base::Order;

/// The largest length that TeX allows (TeXbook, chapter 10): below 2^30 scaled points.
const LARGEST: i64 = 1_073_741_823;

/// Whether a length is below 2^30 scaled points in size.
pub fn is_small(length: i64) -> bool
    ensures value { result ≡ is_small length }
    ensures small { OnTrue result (IsSmall length) }
{
    -LARGEST <= length && length <= LARGEST
}

#[derive(Clone, Copy)]
pub struct Amounts {
    pub finite: i64,
    pub fil: i64,
    pub fill: i64,
    pub filll: i64,
}

impl Amounts {
    ghost use Rattle.lb_model_paper.specs.Pages.{shrink_in_all, stretches_without_end};
    ghost use Rattle.lb_page.specs.Bounds.{IsNear};
    ghost use Rattle.lb_page.specs.Sums.{amount_in, AreSmallAmounts};

    pub fn nothing() -> Amounts
        ensures amounts { (order : Order) → amount_in result order ≡ pos 0 }
        ensures small { AreSmallAmounts result }
    {
        Amounts {
            finite: 0,
            fil: 0,
            fill: 0,
            filll: 0,
        }
    }

    /// Adds an amount to those of its order.
    pub fn add(&mut self, order: Order, amount: i32)
        requires { AreSmallAmounts self.old }
        ensures { (other : Order) → amount_in self.new other
            ≡ amount_in self.old other +ℤ (if same_order order other then amount else pos 0) }
    {
        let amount = i64::from(amount);
        match order {
            Order::Finite => self.finite += amount,
            Order::Fil => self.fil += amount,
            Order::Fill => self.fill += amount,
            Order::Filll => self.filll += amount,
        }
    }

    /// Whether each amount is below 2^30 in size.
    pub fn are_small(&self) -> bool
        ensures value { result ≡ are_small_in (amount_in self.now) }
        ensures small { OnTrue result (AreSmallAmounts self.now) }
    {
        is_small(self.finite) && is_small(self.fil) && is_small(self.fill) && is_small(self.filll)
    }

    /// The amounts of all orders together.
    pub fn in_all(&self) -> i64
        requires { AreSmallAmounts self.now }
        ensures all { result ≡ shrink_in_all (amount_in self.now) }
        ensures bounded { IsNear result }
    {
        self.finite + (self.fil + (self.fill + self.filll))
    }

    /// Whether an amount of an infinite order is not 0.
    pub fn is_infinite(&self) -> bool
        ensures { result ≡ stretches_without_end (amount_in self.now) }
    {
        self.fil != 0 || self.fill != 0 || self.filll != 0
    }
}

//! The lines of a measured paragraph, each judged in constant time.
ghost use Rattle.std.specs.Prelude.{◌≡◌, ◌+◌, ◌<◌, ◌≤◌, ℕ, None, false, length, min, pos, ◌<ℤ◌, ◌≤ℤ◌, negsuc, IfSome};
ghost use Rattle.lb_model_paper.specs.Breaks.{is_overfull_line, is_stop, is_there_penalty, line_from, line_items, paragraph_of, penalty_at, second_pass, sums_of};
ghost use Rattle.lb_measure.specs.Amounts.{AreNear};
ghost use Rattle.lb_measure.specs.Measures.{IsLine, IsMeasured, paragraph_in, skipped_to};

use crate::amounts::{added, less};
use crate::judging::{Ends, excess_in, is_overfull, judged_line};
use crate::measured::Measured;
use lb_model_paper::paragraph::{Judged, LineSums};

impl<'a> Measured<'a> {
    /// The number of the last break.
    #[tactic(auto, unfolding(lb_model_paper::specs::Breaks::paragraph_of))]
    pub fn count(&self) -> usize
        ensures value { result ≡ (paragraph_in self.now).count }
        ensures items { result ≡ length self.now.list.now }
    {
        self.list.len()
    }

    /// What a line adds after one whose fitness is not next to its own.
    #[tactic(auto, unfolding(lb_model_paper::specs::Breaks::paragraph_of))]
    pub fn adjacent(&self) -> i64
        ensures value { result ≡ (paragraph_in self.now).adjacent }
        ensures low { negsuc 2147483647 ≤ℤ result }
        ensures high { result ≤ℤ pos 2147483647 }
    {
        i64::from(self.shape.rules.adj_demerits)
    }

    /// The class of widths of the line behind one of a class. All lines have one width, and so there
    /// is one class.
    #[tactic(auto, unfolding(lb_model_paper::specs::Breaks::paragraph_of))]
    pub fn class_behind(&self, _class: usize) -> usize
        ensures { result ≡ min (_class + 1) (paragraph_in self.now).first }
    {
        0
    }

    /// Goes on to the second pass.
    pub fn begin_second(&mut self)
        requires { IsMeasured self.old }
        ensures measured { IsMeasured self.new }
        ensures second { paragraph_in self.new ≡ paragraph_of self.old.shape (second_pass self.old.shape.rules) self.old.list.now }
    {
        self.tolerance = self.shape.rules.tolerance;
        self.keeps_bad = true;
    }

    /// Whether a break is a legal one. At another no line ends.
    pub fn is_break(&self, j: usize) -> bool
        requires measured { IsMeasured self.now }
        requires j { j ≤ length self.now.list.now }
        ensures legal { result ≡ is_there_penalty (penalty_at self.now.shape.rules self.now.list.now j) }
        ensures line { result ≡ false → (k : ℕ) (i : ℕ) → (paragraph_in self.now).line k i j ≡ None }
        ensures stops { result ≡ false → (k : ℕ) (i : ℕ) → (paragraph_in self.now).stops k i j ≡ false }
    {
        self.places[j].penalty.is_some()
    }

    /// The sums of the line from break `i` to break `j`, in scaled points: of all that stands in its box,
    /// the glue at both ends counted, and the discardables at its start not (TeXbook, chapter 14).
    pub fn sums(&self, i: usize, j: usize) -> LineSums
        requires measured { IsMeasured self.now }
        requires i { i < j }
        requires j { j ≤ length self.now.list.now }
        ensures value { result ≡ sums_of (line_items self.now.shape self.now.list.now i j) }
        ensures near { AreNear 1048576 result }
    {
        let (from, to) = (&self.places[i], &self.places[j]);
        let skipped = self.skipped(i, j);
        let before = &self.places[j - 1].sums;
        let between = less(before, &self.places[skipped].sums);
        let inner = added(&added(&from.post, &between), &to.pre);
        added(&self.ends, &inner)
    }

    /// The number of items before the first one of the line from break `i` to break `j` that does not
    /// go at its start.
    fn skipped(&self, i: usize, j: usize) -> usize
        requires measured { IsMeasured self.now }
        requires i { i < j }
        requires j { j ≤ length self.now.list.now }
        ensures value { result ≡ skipped_to self.now.list.now i j }
        ensures within { result < j }
    {
        if i == 0 {
            return 0;
        }
        i + self.leads[i].min(j - 1 - i)
    }

    /// What the line from break `i` to break `j` adds where no break within it bars it, or nothing
    /// where it may not be chosen.
    pub fn line(&self, i: usize, j: usize) -> Option<Judged>
        requires measured { IsMeasured self.now }
        requires i { i < j }
        requires j { j ≤ length self.now.list.now }
        ensures value { (k : ℕ) → result ≡ (paragraph_in self.now).line k i j }
        ensures line { IfSome result IsLine }
    {
        let penalty = self.places[j].penalty?;
        let ends = Ends {
            from_disc: self.places[i].is_disc,
            to_disc: self.places[j].is_disc,
            is_last: j == self.list.len(),
        };
        let sums = self.sums(i, j);
        judged_line(
            &self.shape,
            self.tolerance,
            self.keeps_bad,
            penalty,
            ends,
            &sums,
        )
    }

    /// Whether break `j` bars all longer lines from break `i`.
    pub fn stops(&self, i: usize, j: usize) -> bool
        requires measured { IsMeasured self.now }
        requires i { i < j }
        requires j { j ≤ length self.now.list.now }
        ensures { (k : ℕ) → result ≡ (paragraph_in self.now).stops k i j }
    {
        match self.places[j].penalty {
            Some(penalty) => penalty <= -10_000 || self.is_overfull(i, j),
            None => false,
        }
    }

    /// Whether the line from break `i` to break `j` is overfull.
    fn is_overfull(&self, i: usize, j: usize) -> bool
        requires measured { IsMeasured self.now }
        requires i { i < j }
        requires j { j ≤ length self.now.list.now }
        ensures { result ≡ is_overfull_line self.now.shape (sums_of (line_items self.now.shape self.now.list.now i j)) }
    {
        let sums = self.sums(i, j);
        is_overfull(excess_in(&self.shape, &sums), sums.shrink)
    }
}

//! What begins conditionals.
ghost use Rattle.std.specs.Prelude.{◌≡◌, ◌∷◌, ◌++◌, None};
ghost use Rattle.lb_model.specs.Configs.{looks_of_meaning};
ghost use Rattle.lb_model.specs.Same.{same_meaning};
ghost use Rattle.lb_model.specs.declared.open.ReadingKind.TheVariants as reading;
ghost use Rattle.lb_model_expansion.specs.Expansion.{decided, is_horizontal, is_vertical, meaning_of_token, meanings_compared, opened, opened_uncounted, test_begun, test_opened};
ghost use Rattle.lb_model_grammar.specs.Conditionals.{if_true};
ghost use Rattle.lb_model_expansion.specs.Steps.{looking, token_taken};
ghost use Rattle.lb_expand.specs.Feeding.{PerformsOver};

use crate::feeder::Feeder;
use crate::putting::{keep, open};
use crate::readings::Opened;
use crate::taking::{Taken, sense_of, take_token};
use lb_base::{Kind, NoMemory, Tok};
use lb_model::laws::meanings_are_compared;
use lb_model::{Cells, Compared, Mode, Pairing, Purpose, TestKind};
use lb_model_expansion::Went;
use lb_model_grammar::{Branch, ScanKind};
use lb_scan::Scan;
use lb_values::Meaning;

/// The most conditionals that may be open.
const MOST_CONDITIONALS: u64 = 10_000;

fn if_true(holds: bool) -> Branch
    ensures { result ≡ if_true holds }
{
    if holds {
        Branch::Then
    } else {
        Branch::Otherwise
    }
}

// Whether two meanings, or the want of both, are the same.
fn same_meaning(one: &Option<Meaning>, other: &Option<Meaning>) -> bool
    ensures { result ≡ same_meaning one.now other.now }
{
    meanings_are_compared();
    match (one, other) {
        (Some(one), Some(other)) => one.equals(other),
        (None, None) => true,
        _ => false,
    }
}

impl<'a, C: Cells> Feeder<'a, C> {
    // A part is chosen by whether two tokens mean the same.
    fn compare(&mut self, first: &Tok, second: &Tok) -> Result<Went, NoMemory>
        ensures performs { PerformsOver C.Cells (λ c. looking (looks_of_meaning first.now ++ looks_of_meaning second.now) (decided (if_true (same_meaning
            (meaning_of_token c first.now) (meaning_of_token c second.now))) c)) result self.new self.old }
        ensures same_cells { self.new.cells.ghost_name ≡ self.old.cells.ghost_name }
        ensures same_desk { self.new.desk.ghost_name ≡ self.old.desk.ghost_name }
    {
        let one = sense_of(self.cells, first)?;
        let other = sense_of(self.cells, second)?;
        self.begin_part(if_true(same_meaning(&one, &other)))
    }

    // `\ifx` takes two tokens.
    fn compare_meanings(&mut self) -> Result<Went, NoMemory>
        ensures performs { PerformsOver C.Cells (meanings_compared) result self.new self.old }
        ensures same_cells { self.new.cells.ghost_name ≡ self.old.cells.ghost_name }
        ensures same_desk { self.new.desk.ghost_name ≡ self.old.desk.ghost_name }
    {
        match take_token(self.cells, self.desk)? {
            Taken::Stops(went) => Ok(went),
            Taken::Tok(first) => self.compare_with(&first),
        }
    }

    // Takes the second token of `\ifx`.
    fn compare_with(&mut self, first: &Tok) -> Result<Went, NoMemory>
        ensures performs { PerformsOver C.Cells (λ d. token_taken d (λ second e. looking (looks_of_meaning first.now ++ looks_of_meaning second) (decided
            (if_true (same_meaning (meaning_of_token e first.now) (meaning_of_token e second))) e))) result self.new self.old }
        ensures same_cells { self.new.cells.ghost_name ≡ self.old.cells.ghost_name }
        ensures same_desk { self.new.desk.ghost_name ≡ self.old.desk.ghost_name }
    {
        match take_token(self.cells, self.desk)? {
            Taken::Stops(went) => Ok(went),
            Taken::Tok(second) => self.compare(first, &second),
        }
    }

    /// A number or a dimension is read for this.
    #[tactic(auto, using(crate::proofs::PassLemmas::works_performs))]
    pub(crate) fn read_for(&mut self, kind: ScanKind, purpose: Purpose) -> Result<Went, NoMemory>
        ensures performs { PerformsOver C.Cells (opened (reading.Scan kind purpose)) result self.new self.old }
        ensures same_cells { self.new.cells.ghost_name ≡ self.old.cells.ghost_name }
        ensures same_desk { self.new.desk.ghost_name ≡ self.old.desk.ghost_name }
    {
        let scan = Scan::new(self.desk.alloc, kind);
        open(self.desk, Opened::Scan(scan, purpose))
    }

    // Two tokens are read for a test.
    #[tactic(auto, using(crate::proofs::PassLemmas::works_performs))]
    fn read_pair(&mut self, pairing: Pairing) -> Result<Went, NoMemory>
        ensures performs { PerformsOver C.Cells (opened_uncounted (reading.Codes pairing None)) result self.new self.old }
        ensures same_cells { self.new.cells.ghost_name ≡ self.old.cells.ghost_name }
        ensures same_desk { self.new.desk.ghost_name ≡ self.old.desk.ghost_name }
    {
        keep(self.desk, Opened::Codes(pairing, None))
    }

    // What a conditional does first.
    fn begin_test(&mut self, test: TestKind) -> Result<Went, NoMemory>
        ensures performs { PerformsOver C.Cells (test_begun test) result self.new self.old }
        ensures same_cells { self.new.cells.ghost_name ≡ self.old.cells.ghost_name }
        ensures same_desk { self.new.desk.ghost_name ≡ self.old.desk.ghost_name }
    {
        match test {
            TestKind::Codes(pairing) => self.read_pair(pairing),
            TestKind::Meanings => self.compare_meanings(),
            TestKind::Compare(Compared::Numbers) => {
                self.read_for(ScanKind::Number, Purpose::Left(Compared::Numbers))
            }
            TestKind::Compare(Compared::Dimensions) => {
                self.read_for(ScanKind::Dimen, Purpose::Left(Compared::Dimensions))
            }
            TestKind::Odd => self.read_for(ScanKind::Number, Purpose::Odd),
            TestKind::Case => self.read_for(ScanKind::Number, Purpose::Case),
            TestKind::Vertical => self.begin_part(if_true(is_vertical(self.desk.mode))),
            TestKind::Horizontal => self.begin_part(if_true(is_horizontal(self.desk.mode))),
            TestKind::True => self.begin_part(Branch::Then),
            TestKind::False => self.begin_part(Branch::Otherwise),
        }
    }

    /// A conditional begins.
    pub(crate) fn open_test(&mut self, test: TestKind) -> Result<Went, NoMemory>
        ensures performs { PerformsOver C.Cells (test_opened test) result self.new self.old }
        ensures same_cells { self.new.cells.ghost_name ≡ self.old.cells.ghost_name }
        ensures same_desk { self.new.desk.ghost_name ≡ self.old.desk.ghost_name }
    {
        if self.desk.conditionals.count() >= MOST_CONDITIONALS {
            return Ok(Went::Stopped(Kind::DepthLimit));
        }
        self.desk.conditionals.begin()?;
        self.begin_test(test)
    }
}

fn is_vertical(mode: Mode) -> bool
    ensures { result ≡ is_vertical mode }
{
    matches!(mode, Mode::Vertical)
}

fn is_horizontal(mode: Mode) -> bool
    ensures { result ≡ is_horizontal mode }
{
    !matches!(mode, Mode::Vertical)
}

//! Pairs of tokens and relations, which tests compare.
ghost use Rattle.std.specs.Prelude.{◌≡◌, ◌∷◌, [], Some, None, pos, if◌then◌else◌};
ghost use Rattle.lb_model.specs.declared.open.ReadingKind.TheVariants as reading;
ghost use Rattle.lb_model_grammar.specs.Conditionals.{chosen};
ghost use Rattle.lb_model_grammar.specs.Scans.{is_space};
ghost use Rattle.lb_model_expansion.specs.Expansion.{control_category, control_code, decided, is_expanded, kept, opened, pair_kind, relation_met, relation_of, seen_as, side_kind};
ghost use Rattle.lb_expand.specs.Works.{Leads, Works};
ghost use Rattle.lb_expand.specs.Feeding.{PerformsOver};

use crate::feeder::Feeder;
use crate::putting::keep;
use crate::readings::Opened;
use lb_base::{Category, Kind, NoMemory, Tok};
use lb_cond::{expandable, test};
use lb_model::{Cells, Compared, Pairing, Purpose};
use lb_model_expansion::Went;
use lb_model_grammar::{CondKind, Rel, ScanKind};
use lb_values::{Meaning, category_code};

// Whether an active character of this meaning would be expanded.
fn is_expanded(meaning: &Option<Meaning>) -> bool
    ensures { result ≡ is_expanded meaning.now }
{
    match meaning {
        None => true,
        Some(Meaning::Macro(_)) => true,
        Some(Meaning::Row(command)) => expandable(*command).is_some(),
        Some(Meaning::Char(_, _)) => false,
        Some(Meaning::Number(_)) => false,
        Some(Meaning::Register(_)) => false,
    }
}

fn control_code(meaning: &Option<Meaning>) -> u16
    ensures { result ≡ control_code meaning.now }
{
    match meaning {
        Some(Meaning::Char(_, code)) => u16::from(*code),
        Some(Meaning::Row(_)) => 256,
        Some(Meaning::Macro(_)) => 256,
        Some(Meaning::Number(_)) => 256,
        Some(Meaning::Register(_)) => 256,
        None => 256,
    }
}

fn control_category(meaning: &Option<Meaning>) -> u16
    ensures { result ≡ control_category meaning.now }
{
    match meaning {
        Some(Meaning::Char(category, _)) => u16::from(category_code(*category)),
        Some(Meaning::Row(_)) => 16,
        Some(Meaning::Macro(_)) => 16,
        Some(Meaning::Number(_)) => 16,
        Some(Meaning::Register(_)) => 16,
        None => 16,
    }
}

// The code of a token, as `\if` sees it.
fn code_seen(tok: &Tok, meaning: &Option<Meaning>) -> u16
    ensures { result ≡ seen_as Pairing.Codes tok.now meaning.now }
{
    match tok {
        Tok::Char(_, code) => u16::from(*code),
        Tok::Active(code) => {
            if is_expanded(meaning) {
                return u16::from(*code);
            }
            control_code(meaning)
        }
        Tok::Word(_) => control_code(meaning),
        Tok::Param(_) => control_code(meaning),
    }
}

// The category of a token, as `\ifcat` sees it.
fn category_seen(tok: &Tok, meaning: &Option<Meaning>) -> u16
    ensures { result ≡ seen_as Pairing.Categories tok.now meaning.now }
{
    match tok {
        Tok::Char(category, _) => u16::from(category_code(*category)),
        Tok::Active(_) => {
            if is_expanded(meaning) {
                return 13;
            }
            control_category(meaning)
        }
        Tok::Word(_) => control_category(meaning),
        Tok::Param(_) => control_category(meaning),
    }
}

fn pair_kind(pairing: Pairing) -> CondKind
    ensures { result ≡ pair_kind pairing }
{
    match pairing {
        Pairing::Codes => CondKind::If,
        Pairing::Categories => CondKind::IfCat,
    }
}

/// What a test compares of a token.
pub(crate) fn seen_as(pairing: Pairing, tok: &Tok, meaning: &Option<Meaning>) -> u16
    ensures { result ≡ seen_as pairing tok.now meaning.now }
{
    match pairing {
        Pairing::Codes => code_seen(tok, meaning),
        Pairing::Categories => category_seen(tok, meaning),
    }
}

// `<`, `=` or `>`.
fn relation_of(tok: &Tok) -> Option<Rel>
    ensures { result ≡ relation_of tok.now }
{
    match tok {
        Tok::Char(Category::Other, b'<') => Some(Rel::Less),
        Tok::Char(Category::Other, b'=') => Some(Rel::Equal),
        Tok::Char(Category::Other, b'>') => Some(Rel::Greater),
        _ => None,
    }
}

pub(crate) fn is_space(tok: &Tok) -> bool
    ensures { result ≡ is_space tok.now }
{
    matches!(tok, Tok::Char(Category::Space, _))
}

fn side_kind(compared: Compared) -> ScanKind
    ensures { result ≡ side_kind compared }
{
    match compared {
        Compared::Numbers => ScanKind::Number,
        Compared::Dimensions => ScanKind::Dimen,
    }
}

impl<'a, C: Cells> Feeder<'a, C> {
    // The first token of a test is there.
    #[tactic(auto, using(crate::proofs::PassLemmas::works_performs))]
    pub(crate) fn keep_first(&mut self, pairing: Pairing, first: u16) -> Result<Went, NoMemory>
        ensures performs { PerformsOver C.Cells (kept (reading.Codes pairing (Some first)) []) result self.new self.old }
        ensures same_cells { self.new.cells.ghost_name ≡ self.old.cells.ghost_name }
        ensures same_desk { self.new.desk.ghost_name ≡ self.old.desk.ghost_name }
    {
        keep(self.desk, Opened::Codes(pairing, Some(first)))
    }

    // Both tokens of a test are there.
    pub(crate) fn compare_pair(
        &mut self,
        pairing: Pairing,
        first: u16,
        second: u16,
    ) -> Result<Went, NoMemory>
        ensures performs { PerformsOver C.Cells (decided (chosen (pair_kind pairing) (pos first) (pos second))) result self.new self.old }
        ensures same_cells { self.new.cells.ghost_name ≡ self.old.cells.ghost_name }
        ensures same_desk { self.new.desk.ghost_name ≡ self.old.desk.ghost_name }
    {
        self.begin_part(test(pair_kind(pairing), i64::from(first), i64::from(second)))
    }

    // A relation goes on behind a space.
    #[tactic(auto, using(crate::proofs::PassLemmas::works_performs))]
    fn keep_relation(&mut self, compared: Compared, left: i32) -> Result<Went, NoMemory>
        ensures performs { PerformsOver C.Cells (kept (reading.Relation compared left) []) result self.new self.old }
        ensures same_cells { self.new.cells.ghost_name ≡ self.old.cells.ghost_name }
        ensures same_desk { self.new.desk.ghost_name ≡ self.old.desk.ghost_name }
    {
        keep(self.desk, Opened::Relation(compared, left))
    }

    // The other side of a comparison is read behind its relation.
    fn read_right(
        &mut self,
        rel: Option<Rel>,
        compared: Compared,
        left: i32,
    ) -> Result<Went, NoMemory>
        ensures performs { PerformsOver C.Cells (relation_met rel compared left) result self.new self.old }
        ensures same_cells { self.new.cells.ghost_name ≡ self.old.cells.ghost_name }
        ensures same_desk { self.new.desk.ghost_name ≡ self.old.desk.ghost_name }
    {
        match rel {
            Some(rel) => self.read_for(side_kind(compared), Purpose::Right(compared, left, rel)),
            None => Ok(Went::Stopped(Kind::TokenMisplaced)),
        }
    }

    // A relation is given a token.
    pub(crate) fn give_relation(
        &mut self,
        compared: Compared,
        left: i32,
        tok: &Tok,
    ) -> Result<Went, NoMemory>
        ensures performs { PerformsOver C.Cells (λ c. if is_space tok.now then kept (reading.Relation compared left) [] c else relation_met (relation_of
            tok.now) compared left c) result self.new self.old }
        ensures same_cells { self.new.cells.ghost_name ≡ self.old.cells.ghost_name }
        ensures same_desk { self.new.desk.ghost_name ≡ self.old.desk.ghost_name }
    {
        if is_space(tok) {
            return self.keep_relation(compared, left);
        }
        self.read_right(relation_of(tok), compared, left)
    }
}

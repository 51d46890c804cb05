//! The conditionals that are open.
ghost use Rattle.std.specs.Prelude.{◌≡◌, ◌∷◌, ◌++◌, ◌<◌, ◌^◌, [], IfOk, OnErr, OnOk, Option, drop, length};
ghost use Rattle.std.specs.Option.{option_copied};
ghost use Rattle.lb_model.specs.Conditionals.{decided_as, inside, may_end, passed};
ghost use Rattle.lb_cond.specs.Open.{innermost, replaced};

use lb_base::NoMemory;
use lb_model::Conditional;
use lb_model_grammar::Stopper;
use std::alloc::{AllocError, Global};
use std::marker::Model;

/// The most conditionals inside another that are given up at once.
const MOST_INSIDE: u64 = 4_294_967_295;

/// The open conditionals, the innermost first.
#[derive(Drop)]
pub struct CondState {
    inner: Conditional,
    around: Vec<Conditional>,
}

impl Model for CondState {
    ghost use Rattle.std.specs.Prelude.{List, reverse};
    ghost use Rattle.lb_model.specs.declared.open.Conditional.{Conditional};
    ghost use Rattle.lb_cond.specs.Open.{conditionals_of};

    ghost Value = { List Conditional };

    ghost view = { λ c. conditionals_of c.inner (reverse c.around.items) };
}

impl CondState {
    /// No open conditional. Takes no memory.
    pub fn new(alloc: Global) -> CondState
        ensures { result ≡ [] }
    {
        CondState {
            inner: Conditional::Deciding,
            around: Vec::new(alloc),
        }
    }

    /// Opens a conditional, whose condition is read next.
    pub fn begin(&mut self) -> Result<(), NoMemory>
        ensures ok { OnOk result (self.new ≡ Conditional.Deciding ∷ self.old) }
        ensures err { OnErr result (self.new ≡ self.old) }
    {
        self.put(Conditional::Deciding)
    }

    /// How many are open.
    pub fn count(&self) -> u64
        ensures { result ≡ length self.now }
    {
        self.around.len() as u64
    }

    /// The innermost one, if one is open.
    pub fn innermost(&self) -> Option<Conditional>
        ensures { result ≡ innermost self.now }
    {
        if self.around.is_empty() {
            return None;
        }
        Some(self.inner)
    }

    /// Another part of the innermost one is read from now on, or it is closed, where its text is skipped to this stop. Takes no memory.
    pub fn pass(&mut self, stopper: Stopper)
        ensures { self.new ≡ passed stopper self.old }
    {
        match stopper {
            Stopper::Fi => self.close(),
            Stopper::Else => self.go_on(Conditional::Otherwise),
            Stopper::Or => self.go_on(Conditional::Case),
        }
    }

    /// Gives up those inside the one whose condition is read, and says how many they were; where they are more than 32 bits count, there is
    /// no memory for them.
    pub fn leave_inside(&mut self) -> Result<u64, NoMemory>
        ensures count { IfOk result (λ count. count ≡ inside self.old) }
        ensures small { IfOk result (λ count. count < 2 ^ 32) }
        ensures left { OnOk result (self.new ≡ drop (inside self.old) self.old) }
    {
        let mut count = 0u64;
        'around: loop {
            match self.innermost() {
                None => return Ok(count),
                Some(Conditional::Deciding) => return Ok(count),
                Some(Conditional::Then | Conditional::Case | Conditional::Otherwise) => {
                    if count >= MOST_INSIDE {
                        return Err(AllocError);
                    }
                    self.close();
                    count += 1;
                }
            }
        }
    }

    /// A part of the one whose condition is read is read from now on; those inside it stay open.
    pub fn decide(&mut self, alloc: Global, part: Conditional) -> Result<(), NoMemory>
        ensures { OnOk result (self.new ≡ decided_as part self.old) }
    {
        let mut inside = Vec::new(alloc);
        self.take_inside(part, &mut inside)?;
        self.put_all(inside)
    }

    // Takes those inside the one whose condition is read, of which a part is read from now on.
    fn take_inside(
        &mut self,
        part: Conditional,
        inside: &mut Vec<Conditional>,
    ) -> Result<(), NoMemory>
        ensures { OnOk result (inside.new.items ++ self.new ≡ inside.old.items ++ decided_as part self.old) }
    {
        'around: loop {
            match self.innermost() {
                None => return Ok(()),
                Some(Conditional::Deciding) => {
                    self.go_on(part);
                    return Ok(());
                }
                Some(Conditional::Then) => {
                    self.close();
                    inside.push(Conditional::Then)?;
                }
                Some(Conditional::Case) => {
                    self.close();
                    inside.push(Conditional::Case)?;
                }
                Some(Conditional::Otherwise) => {
                    self.close();
                    inside.push(Conditional::Otherwise)?;
                }
            }
        }
    }

    // Opens conditionals again, the last one first.
    fn put_all(&mut self, conditionals: Vec<Conditional>) -> Result<(), NoMemory>
        ensures { OnOk result (self.new ≡ conditionals.items ++ self.old) }
    {
        let mut conditionals = conditionals;
        while let Some(conditional) = conditionals.pop() {
            self.put(conditional)?;
        }
        Ok(())
    }

    // One more conditional, the innermost.
    fn put(&mut self, conditional: Conditional) -> Result<(), NoMemory>
        ensures ok { OnOk result (self.new ≡ conditional ∷ self.old) }
        ensures err { OnErr result (self.new ≡ self.old) }
    {
        self.around.push(self.inner)?;
        self.inner = conditional;
        Ok(())
    }

    // The innermost one, if one is open, is closed.
    fn close(&mut self)
        ensures { self.new ≡ passed Stopper.Fi self.old }
    {
        if let Some(around) = self.around.pop() {
            self.inner = around;
        }
    }

    // The innermost one, if one is open, goes on with another part.
    #[tactic(auto, using(crate::proofs::Opened::replaced_of))]
    fn go_on(&mut self, part: Conditional)
        ensures { self.new ≡ replaced part self.old }
    {
        self.inner = part;
    }
}

/// Whether a part may end so: `\fi` ends each, `\else` the one before it, and `\or` one of the parts of `\ifcase`.
pub fn may_end(stopper: Stopper, part: Conditional) -> bool
    ensures { result ≡ may_end stopper part }
{
    match (stopper, part) {
        (_, Conditional::Deciding) => false,
        (Stopper::Fi, _) => true,
        (Stopper::Else, Conditional::Then | Conditional::Case) => true,
        (Stopper::Or, Conditional::Case) => true,
        _ => false,
    }
}

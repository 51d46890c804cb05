//! Tokens that are fed one by one.
ghost use Rattle.std.specs.Prelude.{◌≡◌, ◌<◌, ◌≤◌, IfOk, IfErr, OnOk, OnErr, Option};
ghost use Rattle.std.specs.Option.{option_map};
ghost use Rattle.lb_base.specs.declared.fault.Kind.TheVariants.{DepthLimit as TheDepthLimit};
ghost use Rattle.lb_model.specs.Configs.{Config, Origin, asked, in_file, looks_in_file, looks_of_meaning, looks_of_plain, meaning_now, plain, put_back};
ghost use Rattle.lb_model.specs.Settings.{Notes, Setting, noted_all};
ghost use Rattle.lb_model.specs.Sources.{pending};
ghost use Rattle.lb_model.specs.Stops.{MayStopAt};
ghost use Rattle.lb_model.specs.declared.place.Got.TheVariants.{Fault as GotFault};

use lb_base::{NoMemory, Stop, Tok};
use lb_values::Meaning;

/// Gives the tokens of a configuration one by one, over cells that need not be known. Every clause speaks of each setting that agrees at
/// the end of the call. After an error the feed stands where it was read to.
pub trait Feed {
    /// The setting agrees with all that was told.
    ghost agrees: { Self → Setting → Type 0 };

    /// The configuration now, where the setting agrees.
    ghost configuration: { Self → Setting → Config };

    /// The cells that were told while no write stood on them, and those on which one stands, where the cells keep account of them.
    ghost notes: { Self → Option Notes };

    /// Over what the cells were made, the open groups, and the loans.
    ghost origin: { Self → Origin };

    /// As many saves stand as the open groups have made, where the setting agrees.
    ghost stands: { Self → Setting → Type 0 };

    /// The next token, without expansion; none at the end of the piece. It takes a step. The faults are `Invalid` and `StepLimit`.
    fn plain(&mut self) -> Result<Option<Tok>, Stop>
        ensures narrows { (p : Setting) → agrees self.new p → agrees self.old p }
        ensures ok { IfOk result (λ tok. (p : Setting) → agrees self.new p → plain (configuration self.old p) ≡ record { got = asked tok; next = configuration self.new p }) }
        ensures fault { IfErr result (λ e. MayStopAt e (λ k. (p : Setting) → agrees self.new p → plain (configuration self.old p) ≡ record { got = GotFault k; next = configuration self.new p })) }
        ensures notes { OnOk result ((p : Setting) → agrees self.new p → notes self.new ≡ option_map (noted_all (looks_of_plain (configuration self.old p))) (notes self.old)) }
        ensures notes_on_fault { IfErr result (λ e. MayStopAt e (λ k. (p : Setting) → agrees self.new p → notes self.new ≡ option_map (noted_all (looks_of_plain (configuration self.old p))) (notes self.old))) }
        ensures stands { (p : Setting) → agrees self.new p → stands self.old p → stands self.new p }
        ensures origin { origin self.new ≡ origin self.old };

    /// The next token of this text, without expansion; none where the text or the piece ends before one. Its faults are those of `plain`.
    fn in_file(&mut self) -> Result<Option<Tok>, Stop>
        ensures narrows { (p : Setting) → agrees self.new p → agrees self.old p }
        ensures ok { IfOk result (λ tok. (p : Setting) → agrees self.new p → in_file (configuration self.old p) ≡ record { got = asked tok; next = configuration self.new p }) }
        ensures fault { IfErr result (λ e. MayStopAt e (λ k. (p : Setting) → agrees self.new p → in_file (configuration self.old p) ≡ record { got = GotFault k; next = configuration self.new p })) }
        ensures notes { OnOk result ((p : Setting) → agrees self.new p → notes self.new ≡ option_map (noted_all (looks_in_file (configuration self.old p))) (notes self.old)) }
        ensures notes_on_fault { IfErr result (λ e. MayStopAt e (λ k. (p : Setting) → agrees self.new p → notes self.new ≡ option_map (noted_all (looks_in_file (configuration self.old p))) (notes self.old))) }
        ensures stands { (p : Setting) → agrees self.new p → stands self.old p → stands self.new p }
        ensures origin { origin self.new ≡ origin self.old };

    /// Puts a token before the rest. The fault is `DepthLimit`, where a million tokens are pending.
    fn back(&mut self, tok: Tok) -> Result<(), Stop>
        ensures narrows { (p : Setting) → agrees self.new p → agrees self.old p }
        ensures ok { OnOk result ((p : Setting) → agrees self.new p → (pending (configuration self.old p).source < 1000000) × (configuration self.new p ≡ put_back tok (configuration self.old p))) }
        ensures fault { IfErr result (λ e. MayStopAt e (λ k. (k ≡ TheDepthLimit) × ((p : Setting) → agrees self.new p → (1000000 ≤ pending (configuration self.old p).source) × (configuration self.new p ≡ configuration self.old p)))) }
        ensures notes { notes self.new ≡ notes self.old }
        ensures stands { (p : Setting) → agrees self.new p → stands self.old p → stands self.new p }
        ensures origin { origin self.new ≡ origin self.old };

    /// What a control sequence or an active character means now; none where it has no meaning or the token is neither. It takes no step.
    fn meaning(&mut self, tok: &Tok) -> Result<Option<Meaning>, NoMemory>
        ensures narrows { (p : Setting) → agrees self.new p → agrees self.old p }
        ensures value { IfOk result (λ m. (p : Setting) → agrees self.new p → meaning_now (configuration self.old p) tok.now ≡ m) }
        ensures stays { (p : Setting) → agrees self.new p → configuration self.new p ≡ configuration self.old p }
        ensures notes { OnOk result (notes self.new ≡ option_map (noted_all (looks_of_meaning tok.now)) (notes self.old)) }
        ensures notes_on_err { OnErr result (notes self.new ≡ notes self.old) }
        ensures stands { (p : Setting) → agrees self.new p → stands self.old p → stands self.new p }
        ensures origin { origin self.new ≡ origin self.old };
}

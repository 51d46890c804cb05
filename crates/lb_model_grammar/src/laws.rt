//! Laws of readings, by grammars of what may be written.
ghost use Rattle.std.specs.Prelude.{◌≡◌, ◌++◌, ◌↔◌, ◌⊎◌, IsTrue, Bool, ℕ, List, [], ◌∷◌, true, false};
ghost use Rattle.lb_base.specs.declared.fault.Kind.{Kind};
ghost use Rattle.lb_base.specs.declared.fault.Kind.TheVariants.{DepthLimit, DimenTooLarge, NumberMissing, NumberTooBig, Runaway, UnitMissing, UseMismatch};
ghost use Rattle.lb_base.specs.declared.token.Tok.{Tok};
ghost use Rattle.lb_model_grammar.specs.Same.{tok_eq};
ghost use Rattle.lb_model_grammar.specs.declared.given.Given.{Given};
ghost use Rattle.lb_model_grammar.specs.declared.given.Given.TheVariants.{End};
ghost use Rattle.lb_model_grammar.specs.declared.given.Scanned.{Scanned};
ghost use Rattle.lb_model_grammar.specs.declared.given.Want.{Want};
ghost use Rattle.lb_model_grammar.specs.declared.given.ScanKind.TheVariants.{Keyword};
ghost use Rattle.lb_model_grammar.specs.declared.given.Scanned.TheVariants.{Found};
ghost use Rattle.lb_model_grammar.specs.ArgumentGrammar.{ClosesAtBase, ClosesFirst, IsDelimited, IsGroup, IsUndelimited, NoneDelimited, OnlyLonger, Stops};
ghost use Rattle.lb_model_grammar.specs.Arguments.{argument, without_braces};
ghost use Rattle.lb_model_grammar.specs.Dimensions.{dimension, glue, meant};
ghost use Rattle.lb_model_grammar.specs.GlueGrammar.{IsGlue};
ghost use Rattle.lb_model_grammar.specs.LengthGrammar.{IsDimension};
ghost use Rattle.lb_model_grammar.specs.WordGrammar.{IsKeyword};
ghost use Rattle.lb_model_grammar.specs.NumberGrammar.{IsNumber};
ghost use Rattle.lb_model_grammar.specs.Numbers.{number};
ghost use Rattle.lb_model_grammar.specs.Scans.Meant.{Open, Ended, Wrong};
ghost use Rattle.lb_model_grammar.specs.Written.{GoesOn, IsRead, IsTooLarge, NoneBegins, Worth, outcome};
ghost use Rattle.lb_model_grammar.specs.Written.Worth.{Value};

/// What is read as a number is written by the grammar of numbers, is worth that value, and no longer number begins there. A reading goes on
/// exactly as long as the grammar has a number that begins with all that was given. A number is too big where one that is begins there, and
/// missing where none does. Each number that the text ends behind is read. A list is one number at most.
pub fn numbers_read()
    ensures read { (given rest : List Given) (x : Scanned) → number false given ≡ Ended x rest → IsRead (IsNumber false) given (Value x) rest }
    ensures goes_on { (given : List Given) (want : Want) → number false given ≡ Open want → GoesOn (IsNumber false) given want }
    ensures too_big { (given : List Given) → number false given ≡ Wrong NumberTooBig → IsTooLarge (IsNumber false) given NumberTooBig }
    ensures missing { (given : List Given) → number false given ≡ Wrong NumberMissing → NoneBegins (IsNumber false) given }
    ensures no_other_fault { (given : List Given) (kind : Kind) → number false given ≡ Wrong kind → (kind ≡ NumberTooBig) ⊎ (kind ≡ NumberMissing) }
    ensures each { (all : List Given) (w : Worth Scanned) → IsNumber false all w → number false (all ++ End ∷ []) ≡ outcome w (End ∷ []) }
    ensures one_worth { (all : List Given) (x y : Worth Scanned) → IsNumber false all x → IsNumber false all y → x ≡ y }
{}

/// A keyword is found where it is written behind spaces, in letters of either case. A reading goes on as long as one begins with all that was
/// given. Where none begins there, all that was given goes back, its spaces too.
pub fn keywords_read()
    ensures found { (c : ℕ) (word : List ℕ) (given rest : List Given) → meant (Keyword (c ∷ word)) given ≡ Ended (Found true) rest
        → IsRead (IsKeyword (c ∷ word)) given (Value (Found true)) rest }
    ensures goes_on { (c : ℕ) (word : List ℕ) (given : List Given) (want : Want) → meant (Keyword (c ∷ word)) given ≡ Open want
        → GoesOn (IsKeyword (c ∷ word)) given want }
    ensures not_found { (c : ℕ) (word : List ℕ) (given rest : List Given) → meant (Keyword (c ∷ word)) given ≡ Ended (Found false) rest
        → NoneBegins (IsKeyword (c ∷ word)) given }
    ensures goes_back { (c : ℕ) (word : List ℕ) (given rest : List Given) → meant (Keyword (c ∷ word)) given ≡ Ended (Found false) rest
        → rest ≡ given }
    ensures never_wrong { (c : ℕ) (word : List ℕ) (given : List Given) (kind : Kind) → meant (Keyword (c ∷ word)) given ≡ Wrong kind → ⊥ }
{}

/// Two tokens are one where they are of one kind, and their categories, codes, names and numbers are the same.
#[tactic(auto, unfolding(crate::specs::Same::tok_eq))]
pub fn tokens_are_one()
    ensures { (a b : Tok) → IsTrue (tok_eq a b) ↔ (a ≡ b) }
{}

/// What is read as a dimension is written by the grammar of dimensions, has that value, and no longer dimension begins there. A reading goes on
/// as long as one begins with all that was given. It is too large where a dimension that begins there has too large a size, or too big a whole
/// part, and a number or a unit is missing where none begins there.
pub fn dimensions_read()
    ensures read { (given rest : List Given) (x : Scanned) → dimension given ≡ Ended x rest → IsRead IsDimension given (Value x) rest }
    ensures goes_on { (given : List Given) (want : Want) → dimension given ≡ Open want → GoesOn IsDimension given want }
    ensures too_large { (given : List Given) (kind : Kind) → dimension given ≡ Wrong kind → (kind ≡ DimenTooLarge) ⊎ (kind ≡ NumberTooBig)
        → IsTooLarge IsDimension given kind }
    ensures missing { (given : List Given) (kind : Kind) → dimension given ≡ Wrong kind → (kind ≡ NumberMissing) ⊎ (kind ≡ UnitMissing)
        → NoneBegins IsDimension given }
    ensures no_other_fault { (given : List Given) (kind : Kind) → dimension given ≡ Wrong kind
        → ((kind ≡ DimenTooLarge) ⊎ (kind ≡ NumberTooBig)) ⊎ ((kind ≡ NumberMissing) ⊎ (kind ≡ UnitMissing)) }
    ensures one_worth { (all : List Given) (x y : Worth Scanned) → IsDimension all x → IsDimension all y → x ≡ y }
{}

/// A delimited argument is the shortest balanced list that its delimiter follows, without its braces where it is wholly one group. Where
/// there is no such list, a closing brace stands behind a balanced list, or the text or a paragraph ends. Where it would have over a million
/// tokens it is too long.
pub fn delimited_arguments_read()
    ensures read { (long : Bool) (d : Tok) (delimiter arg : List Tok) (given rest : List Given) → argument long (d ∷ delimiter) given ≡ Ended arg rest
        → (body : List Tok) × (arg ≡ without_braces body) × IsDelimited long (d ∷ delimiter) given body rest }
    ensures none { (long : Bool) (d : Tok) (delimiter : List Tok) (given : List Given) (kind : Kind) → argument long (d ∷ delimiter) given ≡ Wrong kind
        → (kind ≡ DepthLimit → ⊥) → NoneDelimited long (d ∷ delimiter) given }
    ensures mismatch { (long : Bool) (d : Tok) (delimiter : List Tok) (given : List Given) → argument long (d ∷ delimiter) given ≡ Wrong UseMismatch
        → ClosesAtBase given }
    ensures runaway { (long : Bool) (d : Tok) (delimiter : List Tok) (given : List Given) → argument long (d ∷ delimiter) given ≡ Wrong Runaway
        → Stops long given }
    ensures too_long { (long : Bool) (d : Tok) (delimiter : List Tok) (given : List Given) → argument long (d ∷ delimiter) given ≡ Wrong DepthLimit
        → OnlyLonger long (d ∷ delimiter) given 1000000 }
    ensures braces_go { (body inner : List Tok) → IsGroup body inner → without_braces body ≡ inner }
    ensures braces_stay { (body : List Tok) → ((inner : List Tok) → IsGroup body inner → ⊥) → without_braces body ≡ body }
{}

/// An argument without a delimiter is one token, or one group without its braces, behind spaces. Where there is none, a closing brace stands
/// behind the spaces, or the text or a paragraph ends.
pub fn undelimited_arguments_read()
    ensures read { (long : Bool) (given rest : List Given) (arg : List Tok) → argument long [] given ≡ Ended arg rest → IsUndelimited long given arg rest }
    ensures mismatch { (long : Bool) (given : List Given) → argument long [] given ≡ Wrong UseMismatch → ClosesFirst given }
    ensures runaway { (long : Bool) (given : List Given) → argument long [] given ≡ Wrong Runaway → Stops long given }
{}

/// The same of glue, whose grammar has internal glue, and a dimension with what it stretches and shrinks by. A part that does not come is not of
/// the reading, nor are the spaces before it.
pub fn glue_read()
    ensures read { (given rest : List Given) (x : Scanned) → glue given ≡ Ended x rest → IsRead IsGlue given (Value x) rest }
    ensures goes_on { (given : List Given) (want : Want) → glue given ≡ Open want → GoesOn IsGlue given want }
    ensures too_large { (given : List Given) (kind : Kind) → glue given ≡ Wrong kind → (kind ≡ DimenTooLarge) ⊎ (kind ≡ NumberTooBig)
        → IsTooLarge IsGlue given kind }
    ensures missing { (given : List Given) (kind : Kind) → glue given ≡ Wrong kind → (kind ≡ NumberMissing) ⊎ (kind ≡ UnitMissing)
        → NoneBegins IsGlue given }
    ensures no_other_fault { (given : List Given) (kind : Kind) → glue given ≡ Wrong kind
        → ((kind ≡ DimenTooLarge) ⊎ (kind ≡ NumberTooBig)) ⊎ ((kind ≡ NumberMissing) ⊎ (kind ≡ UnitMissing)) }
    ensures one_worth { (all : List Given) (x y : Worth Scanned) → IsGlue all x → IsGlue all y → x ≡ y }
{}

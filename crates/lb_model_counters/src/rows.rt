//! Rows worked out by hand, which the definitions have to give.
ghost use Rattle.std.specs.Prelude.{◌≡◌, [], ◌∷◌, None, Some, Ok, Err, codes, false, true, pos, negsuc, replicate};
ghost use Rattle.lb_base.specs.declared.fault.Kind.TheVariants.{AlreadyDefined, CounterTooLarge, NoCounter, Overflow};
ghost use Rattle.lb_base.specs.declared.node.Node.{Note as NoteNode};
ghost use Rattle.lb_base.specs.declared.node.Note.TheVariants.{Label as TheLabel};
ghost use Rattle.lb_base.specs.declared.token.Category.TheVariants.{BeginGroup, EndGroup, Other};
ghost use Rattle.lb_base.specs.declared.token.Tok.TheVariants.{Char, Word};
ghost use Rattle.lb_values.specs.declared.cell.Cell.TheVariants.{Counter, Counters, CurrentLabel, Label, Resets};
ghost use Rattle.lb_values.specs.declared.value.Form.TheVariants.{Arabic, LowerAlph, LowerRoman, UpperAlph, UpperRoman};
ghost use Rattle.lb_values.specs.declared.value.Value.TheVariants.{Absent, Names, Number};
ghost use Rattle.lb_model_counters.specs.Counters.{new_counter, print_counter, printer, printer_name, set_counter, step_counter};
ghost use Rattle.lb_model_counters.specs.Effects.{answers, noted_by, refuses, sets};
ghost use Rattle.lb_model_counters.specs.Labels.{label_now, label_stored};
ghost use Rattle.lb_model_counters.specs.Worked.{held_after, notes, printed, worked};

/// Counters in decimal.
#[tactic(auto, unfolding(crate::specs::Counters::print_counter))]
pub fn arabic()
    ensures none { printed Arabic (pos 0) ≡ Ok (codes "0") }
    ensures one { printed Arabic (pos 1) ≡ Ok (codes "1") }
    ensures four { printed Arabic (pos 4) ≡ Ok (codes "4") }
    ensures nine { printed Arabic (pos 9) ≡ Ok (codes "9") }
    ensures twenty_six { printed Arabic (pos 26) ≡ Ok (codes "26") }
    ensures twenty_seven { printed Arabic (pos 27) ≡ Ok (codes "27") }
    ensures thousands { printed Arabic (pos 3999) ≡ Ok (codes "3999") }
    ensures at_the_limit { printed Arabic (pos 100000) ≡ Ok (codes "100000") }
    ensures over_the_limit { printed Arabic (pos 100001) ≡ Ok (codes "100001") }
    ensures below_none { printed Arabic (negsuc 0) ≡ Ok (codes "-1") }
{}

/// Counters in small Roman numerals: nothing below 1, and none over 100,000.
#[tactic(auto, unfolding(crate::specs::Counters::print_counter))]
pub fn lower_roman()
    ensures none { printed LowerRoman (pos 0) ≡ Ok [] }
    ensures one { printed LowerRoman (pos 1) ≡ Ok (codes "i") }
    ensures four { printed LowerRoman (pos 4) ≡ Ok (codes "iv") }
    ensures nine { printed LowerRoman (pos 9) ≡ Ok (codes "ix") }
    ensures twenty_six { printed LowerRoman (pos 26) ≡ Ok (codes "xxvi") }
    ensures twenty_seven { printed LowerRoman (pos 27) ≡ Ok (codes "xxvii") }
    ensures thousands { printed LowerRoman (pos 3999) ≡ Ok (codes "mmmcmxcix") }
    ensures at_the_limit { printed LowerRoman (pos 100000) ≡ Ok (replicate 100 109) }
    ensures over_the_limit { printed LowerRoman (pos 100001) ≡ Err CounterTooLarge }
    ensures below_none { printed LowerRoman (negsuc 0) ≡ Ok [] }
{}

/// The same in capital ones.
#[tactic(auto, unfolding(crate::specs::Counters::print_counter))]
pub fn upper_roman()
    ensures none { printed UpperRoman (pos 0) ≡ Ok [] }
    ensures one { printed UpperRoman (pos 1) ≡ Ok (codes "I") }
    ensures four { printed UpperRoman (pos 4) ≡ Ok (codes "IV") }
    ensures nine { printed UpperRoman (pos 9) ≡ Ok (codes "IX") }
    ensures twenty_six { printed UpperRoman (pos 26) ≡ Ok (codes "XXVI") }
    ensures twenty_seven { printed UpperRoman (pos 27) ≡ Ok (codes "XXVII") }
    ensures thousands { printed UpperRoman (pos 3999) ≡ Ok (codes "MMMCMXCIX") }
    ensures at_the_limit { printed UpperRoman (pos 100000) ≡ Ok (replicate 100 77) }
    ensures over_the_limit { printed UpperRoman (pos 100001) ≡ Err CounterTooLarge }
    ensures below_none { printed UpperRoman (negsuc 0) ≡ Ok [] }
{}

/// Counters as small letters: nothing for 0, and none below it and over 26.
#[tactic(auto, unfolding(crate::specs::Counters::print_counter))]
pub fn lower_letters()
    ensures none { printed LowerAlph (pos 0) ≡ Ok [] }
    ensures one { printed LowerAlph (pos 1) ≡ Ok (codes "a") }
    ensures four { printed LowerAlph (pos 4) ≡ Ok (codes "d") }
    ensures nine { printed LowerAlph (pos 9) ≡ Ok (codes "i") }
    ensures twenty_six { printed LowerAlph (pos 26) ≡ Ok (codes "z") }
    ensures twenty_seven { printed LowerAlph (pos 27) ≡ Err CounterTooLarge }
    ensures thousands { printed LowerAlph (pos 3999) ≡ Err CounterTooLarge }
    ensures at_the_limit { printed LowerAlph (pos 100000) ≡ Err CounterTooLarge }
    ensures over_the_limit { printed LowerAlph (pos 100001) ≡ Err CounterTooLarge }
    ensures below_none { printed LowerAlph (negsuc 0) ≡ Err CounterTooLarge }
{}

/// The same as capital ones.
#[tactic(auto, unfolding(crate::specs::Counters::print_counter))]
pub fn upper_letters()
    ensures none { printed UpperAlph (pos 0) ≡ Ok [] }
    ensures one { printed UpperAlph (pos 1) ≡ Ok (codes "A") }
    ensures four { printed UpperAlph (pos 4) ≡ Ok (codes "D") }
    ensures nine { printed UpperAlph (pos 9) ≡ Ok (codes "I") }
    ensures twenty_six { printed UpperAlph (pos 26) ≡ Ok (codes "Z") }
    ensures twenty_seven { printed UpperAlph (pos 27) ≡ Err CounterTooLarge }
    ensures thousands { printed UpperAlph (pos 3999) ≡ Err CounterTooLarge }
    ensures at_the_limit { printed UpperAlph (pos 100000) ≡ Err CounterTooLarge }
    ensures over_the_limit { printed UpperAlph (pos 100001) ≡ Err CounterTooLarge }
    ensures below_none { printed UpperAlph (negsuc 0) ≡ Err CounterTooLarge }
{}

/// Counters that are set, and one that is not there.
#[tactic(auto, unfolding(crate::specs::Counters::set_counter, crate::specs::Counters::print_counter, lb_values::specs::Cells::cell_eq))]
pub fn set_counters()
    ensures set { worked (set_counter (codes "b") (negsuc 4)) ≡ sets (Counter (codes "b") ∷ []) ((Counter (codes "b"), Number (negsuc 4)) ∷ []) }
    ensures not_there { worked (set_counter (codes "e") (pos 1)) ≡ refuses (Counter (codes "e") ∷ []) NoCounter }
    ensures printed_not_there { worked (print_counter (codes "e") Arabic) ≡ refuses (Counter (codes "e") ∷ []) NoCounter }
    ensures printed { worked (print_counter (codes "b") LowerRoman) ≡ answers (Counter (codes "b") ∷ []) (codes "vii") }
    ensures held { held_after (set_counter (codes "b") (pos 3)) (Counter (codes "b")) ≡ Number (pos 3) }
    ensures others { held_after (set_counter (codes "b") (pos 3)) (Counter (codes "c")) ≡ Number (pos 9) }
    ensures not_made { held_after (set_counter (codes "e") (pos 3)) (Counter (codes "e")) ≡ Absent }
{}

/// Steps: with resets the counters of the own list are 0, and those of their lists stay.
#[tactic(auto, unfolding(crate::specs::Counters::step_counter, lb_values::specs::Cells::cell_eq))]
pub fn steps()
    ensures added { worked (step_counter (codes "a") (negsuc 2) false) ≡ sets (Counter (codes "a") ∷ []) ((Counter (codes "a"), Number (negsuc 0)) ∷ []) }
    ensures looks { (worked (step_counter (codes "a") (pos 1) true)).looks ≡ Counter (codes "a") ∷ Resets (codes "a") ∷ [] }
    ensures stepped { held_after (step_counter (codes "a") (pos 1) true) (Counter (codes "a")) ≡ Number (pos 3) }
    ensures reset { held_after (step_counter (codes "a") (pos 1) true) (Counter (codes "b")) ≡ Number (pos 0) }
    ensures own_list_alone { held_after (step_counter (codes "a") (pos 1) true) (Counter (codes "c")) ≡ Number (pos 9) }
    ensures no_list { (worked (step_counter (codes "c") (pos 1) true)).changes ≡ (Counter (codes "c"), Number (pos 10)) ∷ [] }
    ensures not_there { worked (step_counter (codes "e") (pos 1) true) ≡ refuses (Counter (codes "e") ∷ []) NoCounter }
    ensures too_large { worked (step_counter (codes "d") (pos 1) true) ≡ refuses (Counter (codes "d") ∷ []) Overflow }
    ensures least { held_after (step_counter (codes "d") (negsuc 4294967293) false) (Counter (codes "d")) ≡ Number (negsuc 2147483646) }
    ensures too_small { worked (step_counter (codes "d") (negsuc 4294967294) false) ≡ refuses (Counter (codes "d") ∷ []) Overflow }
{}

/// New counters, alone and within another one.
#[tactic(auto, unfolding(crate::specs::Counters::new_counter, lb_values::specs::Cells::cell_eq))]
pub fn new_counters()
    ensures looks_alone { (worked (new_counter (codes "e") None)).looks ≡ Counter (codes "e") ∷ Counters ∷ [] }
    ensures begins { held_after (new_counter (codes "e") None) (Counter (codes "e")) ≡ Number (pos 0) }
    ensures in_checkpoint { held_after (new_counter (codes "e") None) Counters ≡ Names (codes "a" ∷ codes "b" ∷ codes "c" ∷ codes "e" ∷ []) }
    ensures all { (worked (new_counter (codes "e") (Some (codes "a")))).looks ≡ Counter (codes "e") ∷ Counters ∷ Counter (codes "a") ∷ Resets (codes "a") ∷ [] }
    ensures within { held_after (new_counter (codes "e") (Some (codes "a"))) (Resets (codes "a")) ≡ Names (codes "b" ∷ codes "e" ∷ []) }
    ensures first_within { held_after (new_counter (codes "e") (Some (codes "c"))) (Resets (codes "c")) ≡ Names (codes "e" ∷ []) }
    ensures there { worked (new_counter (codes "a") (Some (codes "x"))) ≡ refuses (Counter (codes "a") ∷ []) AlreadyDefined }
    ensures not_there { worked (new_counter (codes "e") (Some (codes "f"))) ≡ refuses (Counter (codes "e") ∷ Counters ∷ Counter (codes "f") ∷ []) NoCounter }
    ensures in_itself { worked (new_counter (codes "e") (Some (codes "e"))) ≡ refuses (Counter (codes "e") ∷ Counters ∷ Counter (codes "e") ∷ []) NoCounter }
{}

/// The macro that prints a counter.
#[tactic(auto, unfolding(crate::specs::Counters::printer))]
pub fn printers()
    ensures name { printer_name (codes "q") ≡ codes "theq" }
    ensures body { (printer (codes "q")).body ≡ Word (codes "arabic") ∷ Char BeginGroup 123 ∷ Char Other 113 ∷ Char EndGroup 125 ∷ [] }
{}

/// Labels, and references to one that is there and to one that is not.
#[tactic(auto, unfolding(crate::specs::Labels::label_now, crate::specs::Labels::label_stored))]
pub fn labels()
    ensures label { worked (label_now (codes "x")) ≡ answers (CurrentLabel ∷ []) (NoteNode (TheLabel (codes "x") (codes "2.7"))) }
    ensures stored { worked (label_stored (codes "k")) ≡ answers (Label (codes "k") ∷ []) (Some (record { text = codes "1"; page = codes "iv" })) }
    ensures not_there { worked (label_stored (codes "x")) ≡ answers (Label (codes "x") ∷ []) None }
{}

/// What is noted: no counter on which a write stands, and each cell once; then writes stand on all that was set.
#[tactic(auto, unfolding(crate::specs::Counters::step_counter, lb_values::specs::Cells::cell_eq))]
pub fn noted()
    ensures no_write { (noted_by (worked (step_counter (codes "a") (pos 1) true)) notes).told ≡ Counter (codes "c") ∷ Resets (codes "a") ∷ [] }
    ensures once { (noted_by (worked (step_counter (codes "c") (pos 1) false)) notes).told ≡ Counter (codes "c") ∷ [] }
    ensures first { (noted_by (worked (step_counter (codes "b") (pos 1) false)) notes).told ≡ Counter (codes "c") ∷ Counter (codes "b") ∷ [] }
    ensures written { (noted_by (worked (step_counter (codes "a") (pos 1) true)) notes).written.now (Counter (codes "b")) ≡ true }
    ensures fault { (noted_by (worked (step_counter (codes "e") (pos 1) true)) notes).written.now (Counter (codes "e")) ≡ false }
{}

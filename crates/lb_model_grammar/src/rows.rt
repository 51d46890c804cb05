//! Rows worked out by hand, which the definitions have to give.
ghost use Rattle.std.specs.Prelude.{◌≡◌, ◌++◌, [], ◌∷◌, map, Some, None, codes, false, true, pos, negsuc};
ghost use Rattle.lb_base.specs.declared.fault.Kind.TheVariants.{NumberMissing, NumberTooBig, UnitMissing, DimenTooLarge, UseMismatch, Runaway, IfOpen, TokenMisplaced};
ghost use Rattle.lb_base.specs.declared.glue.Order.TheVariants.{Finite, Fil, Fill, Filll};
ghost use Rattle.lb_base.specs.declared.token.Category.TheVariants as category;
ghost use Rattle.lb_base.specs.declared.token.Tok.TheVariants.{Char, Word, Active, Param};
ghost use Rattle.lb_model_grammar.specs.declared.condition.Branch.TheVariants as branch;
ghost use Rattle.lb_model_grammar.specs.declared.condition.CondKind.TheVariants.{If, IfNum, IfDim, IfOdd, IfCase};
ghost use Rattle.lb_model_grammar.specs.declared.condition.Rel.TheVariants.{Less, Equal, Greater};
ghost use Rattle.lb_model_grammar.specs.declared.condition.Sought.TheVariants as sought;
ghost use Rattle.lb_model_grammar.specs.declared.condition.Stopper.TheVariants as stopper;
ghost use Rattle.lb_model_grammar.specs.declared.given.Given.TheVariants as given;
ghost use Rattle.lb_model_grammar.specs.declared.given.Quantity.TheVariants as quantity;
ghost use Rattle.lb_model_grammar.specs.declared.given.ScanKind.TheVariants as scan_kind;
ghost use Rattle.lb_model_grammar.specs.declared.given.Scanned.TheVariants.{Number, Dimen, Skip, Found};
ghost use Rattle.lb_model_grammar.specs.declared.given.Want.TheVariants as want;
ghost use Rattle.lb_model_grammar.specs.Arguments.{argument, front, group, optional, parts_of, substituted, undelimited};
ghost use Rattle.lb_model_grammar.specs.Conditionals.{chosen, stop};
ghost use Rattle.lb_model_grammar.specs.Dimensions.{dimension, glue, meant};
ghost use Rattle.lb_model_grammar.specs.Numbers.{number};
ghost use Rattle.lb_model_grammar.specs.Printed.{alph_form, characters_of, printed, quantity_text, raised, roman, roman_form};
ghost use Rattle.lb_model_grammar.specs.Scans.Meant.{Open, Ended, Wrong};
ghost use Rattle.lb_model_grammar.specs.Words.{file_name, with_ending, word};
ghost use Rattle.lb_model_grammar.specs.Worked.{control, count, dimen, glue_of, mark_of, size, skip, text, tokens};

/// Numbers in each of their forms, and what is put back.
pub fn numbers()
    ensures hexadecimal { number false (text (codes "\"7F ")) ≡ Ended (Number (pos 127)) [] }
    ensures lower_case_is_no_digit { number false (text (codes "\"7f")) ≡ Ended (Number (pos 7)) (text (codes "f")) }
    ensures octal { number false (text (codes "'17 ")) ≡ Ended (Number (pos 15)) [] }
    ensures no_octal_digit { number false (text (codes "'178")) ≡ Ended (Number (pos 15)) (text (codes "8")) }
    ensures one_letter_word { number false (text (codes "`") ++ control (codes "A") ++ text (codes " ")) ≡ Ended (Number (pos 65)) [] }
    ensures brace_as_character { number false (text (codes "`{x")) ≡ Ended (Number (pos 123)) (text (codes "x")) }
    ensures space_as_character { number false (text (codes "`  x")) ≡ Ended (Number (pos 32)) (text (codes "x")) }
    ensures active_character { number false (text (codes "`") ++ given.Tok (Active 126) ∷ text (codes "1")) ≡ Ended (Number (pos 126)) (text (codes "1")) }
    ensures signs { number false (text (codes "- -+-12x")) ≡ Ended (Number (negsuc 11)) (text (codes "x")) }
    ensures one_space { number false (text (codes "12  x")) ≡ Ended (Number (pos 12)) (text (codes " x")) }
    ensures largest { number false (text (codes "-2147483647 ")) ≡ Ended (Number (negsuc 2147483646)) [] }
    ensures internal { number false (text (codes "- ") ++ count (pos 5) ++ text (codes " ")) ≡ Ended (Number (negsuc 4)) (text (codes " ")) }
    ensures internal_below_none { number false (text (codes "-") ++ count (negsuc 4)) ≡ Ended (Number (pos 5)) [] }
{}

/// What is no number, and what is not yet one.
pub fn no_numbers()
    ensures too_big { number false (text (codes "2147483648 ")) ≡ Wrong NumberTooBig }
    ensures too_big_below_none { number false (text (codes "-2147483648 ")) ≡ Wrong NumberTooBig }
    ensures far_too_big { number false (text (codes "\"FFFFFFFFFF!")) ≡ Wrong NumberTooBig }
    ensures letter { number false (text (codes "-x")) ≡ Wrong NumberMissing }
    ensures point { number false (text (codes ".5")) ≡ Wrong NumberMissing }
    ensures no_digit { number false (text (codes "'8")) ≡ Wrong NumberMissing }
    ensures long_word { number false (text (codes "`") ++ control (codes "AB")) ≡ Wrong NumberMissing }
    ensures no_quantity { number false (control (codes "hbox") ++ given.Quantity quantity.NotOne ∷ []) ≡ Wrong NumberMissing }
    ensures dimension_is_none { number false (dimen (pos 65536)) ≡ Wrong NumberMissing }
    ensures at_the_end { number false (text (codes "+") ++ given.End ∷ []) ≡ Wrong NumberMissing }
    ensures digits_go_on { number false (text (codes "2147483648")) ≡ Open want.Expanded }
    ensures character_unexpanded { number false (text (codes "`")) ≡ Open want.Plain }
    ensures quantity_asked { number false (control (codes "count")) ≡ Open want.Quantity }
{}

/// Each unit once.
pub fn units()
    ensures inch { dimension (text (codes "1in ")) ≡ Ended (Dimen (pos 4736286)) [] }
    ensures pica { dimension (text (codes "1pc ")) ≡ Ended (Dimen (pos 786432)) [] }
    ensures centimetre { dimension (text (codes "2.5cm ")) ≡ Ended (Dimen (pos 4661699)) [] }
    ensures millimetre { dimension (text (codes "1mm ")) ≡ Ended (Dimen (pos 186467)) [] }
    ensures big_point { dimension (text (codes "1bp ")) ≡ Ended (Dimen (pos 65781)) [] }
    ensures didot_point { dimension (text (codes "1dd ")) ≡ Ended (Dimen (pos 70124)) [] }
    ensures cicero { dimension (text (codes "1cc ")) ≡ Ended (Dimen (pos 841489)) [] }
    ensures point { dimension (text (codes ".1pt ")) ≡ Ended (Dimen (pos 6554)) [] }
    ensures scaled_point { dimension (text (codes "7.9sp ")) ≡ Ended (Dimen (pos 7)) [] }
    ensures quad { dimension (text (codes "1.5em") ++ size (pos 655361) ++ text (codes " ")) ≡ Ended (Dimen (pos 983041)) [] }
    ensures quad_asked { dimension (text (codes "1.5em")) ≡ Open want.Em }
    ensures x_height { dimension (text (codes "-.5ex") ++ size (pos 3) ++ text (codes "x")) ≡ Ended (Dimen (negsuc 0)) (text (codes "x")) }
    ensures either_case { dimension (text (codes "1 Pt!")) ≡ Ended (Dimen (pos 65536)) (text (codes "!")) }
{}

/// Decimals, factors of an internal dimension, and internal dimensions alone.
pub fn dimensions()
    ensures point_alone { dimension (text (codes ".pt ")) ≡ Ended (Dimen (pos 0)) [] }
    ensures signs { dimension (text (codes "- -+-1.5pt  ")) ≡ Ended (Dimen (negsuc 98303)) (text (codes " ")) }
    ensures half_a_scaled_point { dimension (text (codes ".00000762939453125pt ")) ≡ Ended (Dimen (pos 1)) [] }
    ensures digit_18_does_not_count { dimension (text (codes ".000007629394531249pt ")) ≡ Ended (Dimen (pos 0)) [] }
    ensures largest { dimension (text (codes "16383.99999pt ")) ≡ Ended (Dimen (pos 1073741823)) [] }
    ensures factor_toward_zero { dimension (text (codes "1.5") ++ dimen (negsuc 2)) ≡ Ended (Dimen (negsuc 3)) [] }
    ensures factor_with_a_sign { dimension (text (codes "-1.5") ++ dimen (negsuc 2) ++ text (codes " ")) ≡ Ended (Dimen (pos 4)) (text (codes " ")) }
    ensures internal { dimension (text (codes "- ") ++ dimen (pos 7) ++ text (codes "pt")) ≡ Ended (Dimen (negsuc 6)) (text (codes "pt")) }
{}

/// What is no dimension, and what is not yet one.
pub fn no_dimensions()
    ensures no_unit { dimension (text (codes "1xx")) ≡ Wrong UnitMissing }
    ensures half_a_unit { dimension (text (codes "1px")) ≡ Wrong UnitMissing }
    ensures number_as_unit { dimension (text (codes "1") ++ count (pos 1)) ≡ Wrong UnitMissing }
    ensures end_before_unit { dimension (text (codes "1.5") ++ given.End ∷ []) ≡ Wrong UnitMissing }
    ensures too_large { dimension (text (codes "16384pt ")) ≡ Wrong DimenTooLarge }
    ensures too_large_when_rounded { dimension (text (codes "16383.999999pt ")) ≡ Wrong DimenTooLarge }
    ensures space_may_come { dimension (text (codes "16384pt")) ≡ Open want.Expanded }
    ensures whole_part { dimension (text (codes "2147483648pt ")) ≡ Wrong NumberTooBig }
    ensures largest_whole_part { dimension (text (codes "2147483647pt ")) ≡ Wrong DimenTooLarge }
    ensures letter { dimension (text (codes "-x")) ≡ Wrong NumberMissing }
    ensures hexadecimal { dimension (text (codes "\"Fpt")) ≡ Wrong NumberMissing }
    ensures comma { dimension (text (codes "1,5pt")) ≡ Wrong UnitMissing }
    ensures glue_is_none { dimension (skip (glue_of (pos 1) (pos 0) Finite (pos 0) Finite)) ≡ Wrong NumberMissing }
{}

/// Glue, and what is put back where a part of it does not come.
pub fn glues()
    ensures both { glue (text (codes "3pt plus1pt minus2pt ")) ≡ Ended (Skip (glue_of (pos 196608) (pos 65536) Finite (pos 131072) Finite)) [] }
    ensures infinite { glue (text (codes "0pt Plus-1fil minus 2.5fill ")) ≡ Ended (Skip (glue_of (pos 0) (negsuc 65535) Fil (pos 163840) Fill)) [] }
    ensures most_infinite { glue (text (codes "0pt minus1filllx")) ≡ Ended (Skip (glue_of (pos 0) (pos 0) Finite (pos 65536) Filll)) (text (codes "x")) }
    ensures no_stretch { glue (text (codes "1pt plus x")) ≡ Ended (Skip (glue_of (pos 65536) (pos 0) Finite (pos 0) Finite)) (text (codes "plus x")) }
    ensures spaces_go_back { glue (text (codes "1pt   plus 1xx")) ≡ Ended (Skip (glue_of (pos 65536) (pos 0) Finite (pos 0) Finite)) (text (codes "  plus 1xx")) }
    ensures no_shrink { glue (text (codes "1pt plus2pt minus\"")) ≡ Ended (Skip (glue_of (pos 65536) (pos 131072) Finite (pos 0) Finite)) (text (codes "minus\"")) }
    ensures number_is_no_part { glue (text (codes "1pt plus") ++ count (pos 1)) ≡ Ended (Skip (glue_of (pos 65536) (pos 0) Finite (pos 0) Finite)) (text (codes "plus") ++ count (pos 1)) }
    ensures internal { glue (text (codes "-") ++ skip (glue_of (pos 3) (pos 2) Fil (pos 1) Finite) ++ text (codes " plus1pt")) ≡ Ended (Skip (glue_of (negsuc 2) (negsuc 1) Fil (negsuc 0) Finite)) (text (codes " plus1pt")) }
    ensures internal_width { glue (text (codes "-") ++ dimen (pos 9) ++ text (codes " plus") ++ dimen (pos 8) ++ text (codes " minus2") ++ dimen (pos 7) ++ text (codes "!")) ≡ Ended (Skip (glue_of (negsuc 8) (pos 8) Finite (pos 14) Finite)) (text (codes "!")) }
    ensures number { glue (count (pos 1)) ≡ Wrong NumberMissing }
    ensures infinite_width { glue (text (codes "1fil ")) ≡ Wrong UnitMissing }
    ensures too_large_a_part { glue (text (codes "1pt plus16384fil ")) ≡ Wrong DimenTooLarge }
    ensures another_letter { glue (text (codes "1pt plus1fil")) ≡ Open want.Expanded }
{}

/// Keywords, in either case.
pub fn keywords()
    ensures found { meant (scan_kind.Keyword (codes "by")) (text (codes " By")) ≡ Ended (Found true) [] }
    ensures no_space_behind { meant (scan_kind.Keyword (codes "by")) (text (codes "bY 1")) ≡ Ended (Found true) (text (codes " 1")) }
    ensures not_found { meant (scan_kind.Keyword (codes "by")) (text (codes "  bx")) ≡ Ended (Found false) (text (codes "  bx")) }
    ensures space_between { meant (scan_kind.Keyword (codes "by")) (text (codes "b y")) ≡ Ended (Found false) (text (codes "b y")) }
    ensures end { meant (scan_kind.Keyword (codes "by")) (text (codes "b") ++ given.End ∷ []) ≡ Ended (Found false) (text (codes "b") ++ given.End ∷ []) }
    ensures another_letter { meant (scan_kind.Keyword (codes "by")) (text (codes " b")) ≡ Open want.Expanded }
{}

/// Arguments of macros: a delimiter that overlaps itself, braces that go and braces that stay, paragraphs, and delimiters of other kinds.
#[tactic(auto, unfolding(crate::specs::Same::tok_eq))]
pub fn delimited_arguments()
    ensures overlaps { argument false (tokens (codes "aab")) (text (codes "aaabc")) ≡ Ended (tokens (codes "a")) (text (codes "c")) }
    ensures group_loses_braces { argument false (tokens (codes ".")) (text (codes "{ab}.c")) ≡ Ended (tokens (codes "ab")) (text (codes "c")) }
    ensures two_groups_keep { argument false (tokens (codes ".")) (text (codes "{a}{b}.")) ≡ Ended (tokens (codes "{a}{b}")) [] }
    ensures inner_braces_stay { argument false (tokens (codes ".")) (text (codes "{a{b}}.")) ≡ Ended (tokens (codes "a{b}")) [] }
    ensures delimiter_in_a_group { argument false (tokens (codes "ab")) (text (codes "x{ab}aab")) ≡ Ended (tokens (codes "x{ab}a")) [] }
    ensures brace_delimits { argument false (tokens (codes "{")) (text (codes "ab{c}")) ≡ Ended (tokens (codes "ab")) (text (codes "c}")) }
    ensures nothing { argument false (tokens (codes ".")) (text (codes ".c")) ≡ Ended [] (text (codes "c")) }
    ensures space_in_delimiter { argument false (tokens (codes ", ")) (text (codes " x,y, z")) ≡ Ended (tokens (codes " x,y")) (text (codes "z")) }
    ensures category_counts { argument false (Char category.Letter 46 ∷ []) (text (codes "a.") ++ given.Tok (Char category.Letter 46) ∷ []) ≡ Ended (tokens (codes "a.")) [] }
    ensures paragraph_delimits { argument false (Word (codes "par") ∷ []) (text (codes "ab") ++ control (codes "par")) ≡ Ended (tokens (codes "ab")) [] }
    ensures long_takes_paragraphs { argument true (tokens (codes ".")) (control (codes "par") ++ text (codes ".")) ≡ Ended (Word (codes "par") ∷ []) [] }
    ensures short_takes_none { argument false (tokens (codes ".")) (text (codes "{a") ++ control (codes "par") ++ text (codes "}.")) ≡ Wrong Runaway }
    ensures extra_brace { argument false (tokens (codes ".")) (text (codes "a}.")) ≡ Wrong UseMismatch }
    ensures end { argument false (tokens (codes ".")) (text (codes "x") ++ given.End ∷ []) ≡ Wrong Runaway }
    ensures end_in_delimiter { argument false (tokens (codes "aab")) (text (codes "xaa") ++ given.End ∷ []) ≡ Wrong Runaway }
    ensures goes_on { argument false (tokens (codes "aab")) (text (codes "xaa")) ≡ Open want.Plain }
{}

/// Arguments without delimiters, in brackets, what stands before them, and bodies with them.
#[tactic(auto, unfolding(crate::specs::Same::tok_eq))]
pub fn undelimited_arguments()
    ensures behind_spaces { undelimited false (text (codes "  xy")) ≡ Ended (tokens (codes "x")) (text (codes "y")) }
    ensures group { argument false [] (text (codes " {a{b} }c")) ≡ Ended (tokens (codes "a{b} ")) (text (codes "c")) }
    ensures behind_a_delimited_one { argument false [] (text (codes "c")) ≡ Ended (tokens (codes "c")) [] }
    ensures extra_brace { undelimited false (text (codes " }")) ≡ Wrong UseMismatch }
    ensures paragraph { undelimited false (control (codes "par")) ≡ Wrong Runaway }
    ensures long_paragraph { undelimited true (control (codes "par")) ≡ Ended (Word (codes "par") ∷ []) [] }
    ensures end_in_a_group { undelimited true (text (codes "{a{b}") ++ given.End ∷ []) ≡ Wrong Runaway }
    ensures in_brackets { optional true (tokens (codes "d")) (text (codes "  [{a]}]b")) ≡ Ended (tokens (codes "a]")) (text (codes "b")) }
    ensures no_brackets { optional true (tokens (codes "d")) (text (codes " b")) ≡ Ended (tokens (codes "d")) (text (codes "b")) }
    ensures parts { parts_of (tokens (codes "a") ++ Param 1 ∷ tokens (codes ".") ++ Param 2 ∷ []) ≡ (tokens (codes "a"), tokens (codes ".") ∷ [] ∷ []) }
    ensures front { front (tokens (codes "a ")) (text (codes "a b")) ≡ Ended [] (text (codes "b")) }
    ensures no_front { front (tokens (codes "a ")) (text (codes "ab")) ≡ Wrong UseMismatch }
    ensures body { substituted (tokens (codes "xy") ∷ [] ∷ []) (Param 1 ∷ tokens (codes "-") ++ Param 2 ∷ Param 1 ∷ []) ≡ tokens (codes "xy-xy") }
{}

/// What tests choose.
pub fn tests()
    ensures less { chosen (IfNum Less) (negsuc 4) (negsuc 3) ≡ branch.Then }
    ensures not_less { chosen (IfNum Less) (pos 2) (pos 2) ≡ branch.Otherwise }
    ensures equal { chosen (IfDim Equal) (pos 2) (pos 2) ≡ branch.Then }
    ensures greater { chosen (IfDim Greater) (pos 0) (negsuc 0) ≡ branch.Then }
    ensures same_code { chosen If (pos 97) (pos 98) ≡ branch.Otherwise }
    ensures odd { chosen IfOdd (negsuc 2) (pos 0) ≡ branch.Then }
    ensures even { chosen IfOdd (negsuc 3) (pos 0) ≡ branch.Otherwise }
    ensures case { chosen IfCase (negsuc 0) (pos 0) ≡ branch.Part (negsuc 0) }
{}

/// Where skipped text comes to a stop, conditionals in it being passed over.
pub fn skipped()
    ensures next_part { stop mark_of 0 sought.Any (text (codes "a") ++ control (codes "iftrue") ++ control (codes "else") ++ control (codes "fi") ++ control (codes "else") ++ text (codes "e")) ≡ Ended stopper.Else (text (codes "e")) }
    ensures second_or { stop mark_of 0 (sought.Nth 2) (control (codes "or") ++ text (codes "b") ++ control (codes "or") ++ text (codes "c")) ≡ Ended stopper.Or (text (codes "c")) }
    ensures inner_or { stop mark_of 0 (sought.Nth 1) (control (codes "iftrue") ++ control (codes "or") ++ control (codes "fi") ++ control (codes "or") ++ text (codes "c")) ≡ Ended stopper.Or (text (codes "c")) }
    ensures else_before_or { stop mark_of 0 (sought.Nth 2) (control (codes "or") ++ control (codes "else") ++ text (codes "e")) ≡ Ended stopper.Else (text (codes "e")) }
    ensures no_part { stop mark_of 0 (sought.Nth 0) (control (codes "or") ++ control (codes "or") ++ control (codes "fi")) ≡ Ended stopper.Fi [] }
    ensures end_of_all { stop mark_of 0 sought.End (control (codes "or") ++ control (codes "else") ++ control (codes "fi") ++ text (codes "x")) ≡ Ended stopper.Fi (text (codes "x")) }
    ensures from_inside { stop mark_of 1 sought.Any (control (codes "else") ++ control (codes "fi") ++ control (codes "fi")) ≡ Ended stopper.Fi [] }
    ensures open { stop mark_of 0 sought.Any (control (codes "iftrue") ++ control (codes "fi") ++ given.End ∷ []) ≡ Wrong IfOpen }
    ensures goes_on { stop mark_of 0 sought.End (control (codes "or")) ≡ Open want.Plain }
{}

/// Words in braces and the names of files.
pub fn words()
    ensures braces { word 0 [] (text (codes "a {c}d}e")) ≡ Ended (codes "a {c}d") (text (codes "e")) }
    ensures control_sequence { word 0 [] (text (codes "a") ++ control (codes "b")) ≡ Wrong TokenMisplaced }
    ensures active_character { word 0 [] (given.Tok (Active 126) ∷ []) ≡ Wrong TokenMisplaced }
    ensures end { word 0 [] (text (codes "a") ++ given.End ∷ []) ≡ Wrong Runaway }
    ensures file { file_name [] (text (codes "a.b c")) ≡ Ended (codes "a.b") (text (codes "c")) }
    ensures file_before_control { file_name [] (text (codes "ab") ++ control (codes "c")) ≡ Ended (codes "ab") (control (codes "c")) }
    ensures file_at_the_end { file_name [] (text (codes "ab") ++ given.End ∷ []) ≡ Ended (codes "ab") (given.End ∷ []) }
    ensures no_dot { with_ending (codes "ab") ≡ codes "ab.tex" }
    ensures dot { with_ending (codes "a/b.c") ≡ codes "a/b.c" }
    ensures dot_in_a_folder { with_ending (codes "a.b/c") ≡ codes "a.b/c.tex" }
    ensures dot_first { with_ending (codes ".c") ≡ codes ".c" }
{}

/// What numbers and tokens print as.
pub fn printing()
    ensures nineteen_ninety_four { roman 1994 ≡ codes "mcmxciv" }
    ensures four { roman 4 ≡ codes "iv" }
    ensures none { roman 0 ≡ [] }
    ensures all_letters { roman 3888 ≡ codes "mmmdccclxxxviii" }
    ensures upper_case { roman_form raised (pos 49) ≡ Some (codes "XLIX") }
    ensures below_none { roman_form raised (negsuc 8) ≡ Some [] }
    ensures too_large { roman_form raised (pos 100001) ≡ None }
    ensures letter { alph_form 96 (pos 26) ≡ Some (codes "z") }
    ensures no_letter { alph_form 96 (pos 27) ≡ None }
    ensures letter_of_none { alph_form 64 (pos 0) ≡ Some [] }
    ensures categories { printed (codes "a 1") ≡ Char category.Other 97 ∷ Char category.Space 32 ∷ Char category.Other 49 ∷ [] }
    ensures escape { characters_of (Word (codes "ab")) ≡ codes "\\ab" }
    ensures parameter { characters_of (Param 3) ≡ codes "#3" }
{}

/// What dimensions and glue print as.
pub fn printed_quantities()
    ensures tenth { quantity_text (quantity.Dimen (pos 6554)) ≡ Some (codes "0.1pt") }
    ensures glue { quantity_text (quantity.Skip (glue_of (negsuc 98303) (pos 65536) Fil (pos 32768) Finite)) ≡ Some (codes "-1.5pt plus 1.0fil minus 0.5pt") }
    ensures plain_glue { quantity_text (quantity.Skip (glue_of (pos 65536) (pos 0) Fil (pos 0) Finite)) ≡ Some (codes "1.0pt") }
    ensures nothing { quantity_text quantity.NotOne ≡ None }
{}

//! Rows that were worked out by hand.
ghost use Rattle.std.specs.Prelude.{◌≡◌, ◌++◌, ◌∷◌, [], map, codes, length, false, true, neg_ℤ, pos, None, Ok, Some};
ghost use Rattle.lb_base.specs.declared.fault.Kind.TheVariants as kind;
ghost use Rattle.lb_base.specs.declared.node.Node as node;
ghost use Rattle.lb_base.specs.declared.token.Category.TheVariants.{AlignmentTab, BeginGroup, EndGroup, Letter, MathShift, Other, Parameter, Space};
ghost use Rattle.lb_base.specs.declared.token.Tok.TheVariants.{Char, Param, Word};
ghost use Rattle.lb_rows.specs.declared.command.Command.TheVariants as command;
ghost use Rattle.lb_values.specs.declared.cell.Cell.TheVariants as cell;
ghost use Rattle.lb_values.specs.declared.cell.RegisterKind.TheVariants as registers;
ghost use Rattle.lb_values.specs.declared.meaning.Meaning.TheVariants as meaning;
ghost use Rattle.lb_values.specs.declared.meaning.Register.TheVariants as register;
ghost use Rattle.lb_values.specs.declared.reach.Reach.TheVariants.{Global, Local};
ghost use Rattle.lb_values.specs.declared.value.PageStyle.TheVariants.{Headings, MyHeadings, Plain};
ghost use Rattle.lb_values.specs.declared.value.Value.TheVariants as value;
ghost use Rattle.lb_model_grammar.specs.declared.given.Quantity.TheVariants as quantity;
ghost use Rattle.lb_model.specs.declared.arith.Arith.TheVariants.{Advance};
ghost use Rattle.lb_model.specs.declared.append.Append.TheVariants.{Log};
ghost use Rattle.lb_model.specs.declared.group.GroupKind.TheVariants.{Material, Semi, Simple};
ghost use Rattle.lb_model.specs.Kinds.{no_glue};
ghost use Rattle.lb_model.specs.Sources.Item.{Pending};
ghost use Rattle.lb_model_paper.specs.declared.pages.HeadFoot.TheVariants.{Foot, Head};
ghost use Rattle.lb_model_paper.specs.Breaks.{glue_node};
ghost use Rattle.lb_model_paper.specs.Lines.{interline};
ghost use Rattle.lb_model_journal.specs.declared.event.Event.TheVariants as event;
ghost use Rattle.lb_model_journal.specs.LogLines.{log_line};
ghost use Rattle.lb_model_engine.specs.declared.definition.NewKind.TheVariants.{New, Provide, Renew};
ghost use Rattle.lb_model_nest.specs.declared.display.HeadLevel.TheVariants.{Chapter, Section};
ghost use Rattle.lb_model_nest.specs.declared.turn.Went.TheVariants as went;
ghost use Rattle.lb_model_engine.specs.Boxes.{raise};
ghost use Rattle.lb_model_engine.specs.Definitions.{def_row, futurelet_row, let_row, plain_macro};
ghost use Rattle.lb_model_nest.specs.Groups.{begin_group_character, begingroup, endgroup, group_closed, group_opened};
ghost use Rattle.lb_model_nest.specs.Pages.{head_foot, page_counted, page_counter};
ghost use Rattle.lb_model_engine.specs.Documents.{names_between};
ghost use Rattle.lb_model_engine.specs.Groups.{aftergroup};
ghost use Rattle.lb_model_engine.specs.Headings.{contents, marks, numberline};
ghost use Rattle.lb_model_nest.specs.Items.{fil, italic_correction};
ghost use Rattle.lb_model_engine.specs.Kernel.{kernel_lines};
ghost use Rattle.lb_model_engine.specs.Lists.{beside, endlist_row, item_row, toks};
ghost use Rattle.lb_model_engine.specs.Material.{vadjust};
ghost use Rattle.lb_model_engine.specs.NewNames.{new_register, newcommand, newif};
ghost use Rattle.lb_model_engine.specs.Registers.{worked_out};
ghost use Rattle.lb_model_engine.specs.Texts.{tokens_of_text};
ghost use Rattle.lb_model_engine.specs.Turns.{ended, token_row};
ghost use Rattle.lb_model_nest.specs.Paragraphs.{finished, lines_logged, paragraph_shape};
ghost use Rattle.lb_model_nest.specs.Wholes.{and_then, change, no_depth, on, stop_at};
ghost use Rattle.lb_model_engine.specs.Worked.{control, digest, held, size_of_lines, tokens, went_of, whole};
ghost use Rattle.lb_model_nest.specs.Words.{factor_behind};
ghost use Rattle.lb_model_engine.specs.WorkedChapters.{fault_of_part, first_parts, last_parts, middle_parts, no_faults, fault_of, fault_told, faulty_environments, faulty_lists, faulty_names, faulty_numbers, faulty_rows, grouped, looked_at, list_faults, list_faults_told, held_behind, held_told, event_of_line, plain_lines, roman_character, set, set_within, typed_behind, typed_told, word_of, worked_environments, worked_registers, worked_texts};

/// Groups: those that do not match, what is local and what is global, and the tokens that come behind.
#[tactic(auto, unfolding(lb_model_nest::specs::Groups::begingroup, lb_model_nest::specs::Groups::endgroup, lb_model_nest::specs::Groups::begin_group_character, lb_model_nest::specs::Groups::group_opened, lb_model_nest::specs::Groups::group_closed, lb_model_nest::specs::Groups::kept_after, crate::specs::Groups::aftergroup, lb_values::specs::Cells::cell_eq))]
pub fn groups()
    ensures none { went_of (endgroup (whole [])) ≡ went.Stopped kind.GroupExtra }
    ensures other { went_of (and_then (begin_group_character (whole [])) endgroup) ≡ went.Stopped kind.GroupExtra }
    ensures matching { went_of (and_then (begingroup (whole [])) endgroup) ≡ went.On }
    ensures local { held (and_then (and_then (begingroup (whole [])) (change Local (cell.Count 1) (value.Number (pos 5)))) endgroup) (cell.Count 1) ≡ value.Absent }
    ensures global { held (and_then (and_then (begingroup (whole [])) (change Global (cell.Count 1) (value.Number (pos 5)))) endgroup) (cell.Count 1) ≡ value.Number (pos 5) }
    ensures in_two { held (and_then (and_then (and_then (and_then (begingroup (whole [])) begin_group_character) (change Global (cell.Count 1) (value.Number (pos 5)))) (group_closed Simple)) endgroup) (cell.Count 1) ≡ value.Number (pos 5) }
    ensures behind { (and_then (and_then (and_then (begingroup (whole (tokens (codes "xyz")))) aftergroup) aftergroup) endgroup).done.next.feed.source ≡ map Pending (tokens (codes "xyz")) }
    ensures outside { (aftergroup (whole (tokens (codes "xyz")))).done.next.feed.source ≡ map Pending (tokens (codes "yz")) }
    ensures runaway { went_of (aftergroup (whole [])) ≡ went.Stopped kind.Runaway }
{}

/// Copies of meanings: the sign and the spaces around it, and names without meaning.
#[tactic(auto, unfolding(crate::specs::Definitions::let_row, crate::specs::Definitions::futurelet_row, lb_model::specs::Readings::taken, lb_values::specs::Cells::cell_eq, lb_model::specs::StartState::start_category))]
pub fn copies()
    ensures character { held (let_row Local (whole (control (codes "a") ++ tokens (codes "=b")))) (cell.Word (codes "a")) ≡ value.Meaning (meaning.Char Letter 98) }
    ensures spaces { held (let_row Local (whole (control (codes "a") ++ tokens (codes " = b")))) (cell.Word (codes "a")) ≡ value.Meaning (meaning.Char Letter 98) }
    ensures alone { held (let_row Local (whole (control (codes "a") ++ tokens (codes "b")))) (cell.Word (codes "a")) ≡ value.Meaning (meaning.Char Letter 98) }
    ensures sign { held (let_row Local (whole (control (codes "a") ++ tokens (codes "==")))) (cell.Word (codes "a")) ≡ value.Meaning (meaning.Char Other 61) }
    ensures row { held (let_row Local (whole (control (codes "a") ++ control (codes "relax")))) (cell.Word (codes "a")) ≡ value.Meaning (meaning.Row command.Relax) }
    ensures no_meaning { held (let_row Local (whole (control (codes "relax") ++ control (codes "zz")))) (cell.Word (codes "relax")) ≡ value.Absent }
    ensures no_name { went_of (let_row Local (whole (tokens (codes "xy")))) ≡ went.Stopped kind.TokenMisplaced }
    ensures no_source { went_of (let_row Local (whole (control (codes "a") ++ tokens (codes "=")))) ≡ went.Stopped kind.Runaway }
    ensures future { held (futurelet_row Local (whole (control (codes "a") ++ tokens (codes "xyz")))) (cell.Word (codes "a")) ≡ value.Meaning (meaning.Char Letter 121) }
    ensures put_back { (futurelet_row Local (whole (control (codes "a") ++ tokens (codes "xyz")))).done.next.feed.source ≡ map Pending (tokens (codes "xyz")) }
{}

/// Macros: their parameters, a brace at the end of a parameter text, parameter characters in bodies, and faults.
#[tactic(auto, unfolding(crate::specs::Definitions::def_row, lb_model::specs::Readings::taken, lb_values::specs::Cells::cell_eq, lb_model::specs::StartState::start_category))]
pub fn macros()
    ensures plain { held (def_row false false Local (whole (control (codes "a") ++ tokens (codes "{b}")))) (cell.Word (codes "a")) ≡ plain_macro false [] (Char Letter 98 ∷ []) }
    ensures long { held (def_row false true Local (whole (control (codes "a") ++ tokens (codes "{b}")))) (cell.Word (codes "a")) ≡ plain_macro true [] (Char Letter 98 ∷ []) }
    ensures delimited { held (def_row false false Local (whole (control (codes "a") ++ tokens (codes "#1.{b#1}")))) (cell.Word (codes "a")) ≡ plain_macro false (Param 1 ∷ Char Other 46 ∷ []) (Char Letter 98 ∷ Param 1 ∷ []) }
    ensures brace { held (def_row false false Local (whole (control (codes "a") ++ tokens (codes "#1#{b}")))) (cell.Word (codes "a")) ≡ plain_macro false (Param 1 ∷ Char BeginGroup 123 ∷ []) (Char Letter 98 ∷ Char BeginGroup 123 ∷ []) }
    ensures doubled { held (def_row false false Local (whole (control (codes "a") ++ tokens (codes "{##}")))) (cell.Word (codes "a")) ≡ plain_macro false [] (Char Parameter 35 ∷ []) }
    ensures out_of_order { went_of (def_row false false Local (whole (control (codes "a") ++ tokens (codes "#2{b}")))) ≡ went.Stopped kind.TokenMisplaced }
    ensures no_such_parameter { went_of (def_row false false Local (whole (control (codes "a") ++ tokens (codes "#1{#2}")))) ≡ went.Stopped kind.TokenMisplaced }
    ensures closing { went_of (def_row false false Local (whole (control (codes "a") ++ tokens (codes "}")))) ≡ went.Stopped kind.TokenMisplaced }
    ensures cut { went_of (def_row false false Local (whole (control (codes "a") ++ tokens (codes "#")))) ≡ went.Stopped kind.Runaway }
    ensures open { went_of (def_row false false Local (whole (control (codes "a") ++ tokens (codes "{b")))) ≡ went.Stopped kind.Runaway }
{}

/// New names: commands, conditionals and registers.
#[tactic(auto, unfolding(crate::specs::NewNames::newcommand, crate::specs::NewNames::newif, crate::specs::NewNames::new_register, lb_model::specs::Readings::taken, lb_values::specs::Cells::cell_eq, lb_model::specs::StartState::start_category))]
pub fn names()
    ensures command { held (newcommand New (whole (control (codes "a") ++ tokens (codes "{b}")))) (cell.Word (codes "a")) ≡ plain_macro true [] (Char Letter 98 ∷ []) }
    ensures starred { held (newcommand New (whole (tokens (codes "*") ++ control (codes "a") ++ tokens (codes "{b}")))) (cell.Word (codes "a")) ≡ plain_macro false [] (Char Letter 98 ∷ []) }
    ensures defined { went_of (newcommand New (whole (control (codes "relax") ++ tokens (codes "{b}")))) ≡ went.Stopped kind.AlreadyDefined }
    ensures renewed { went_of (newcommand Renew (whole (control (codes "zz") ++ tokens (codes "{}")))) ≡ went.Stopped kind.Undefined }
    ensures provided { held (newcommand Provide (whole (control (codes "relax") ++ tokens (codes "{b}")))) (cell.Word (codes "relax")) ≡ value.Meaning (meaning.Row command.Relax) }
    ensures no_name { went_of (newcommand New (whole (tokens (codes "{ab}{b}")))) ≡ went.Stopped kind.TokenMisplaced }
    ensures conditional { held (newif (whole (control (codes "ifa")))) (cell.Word (codes "ifa")) ≡ value.Meaning (meaning.Row command.IfFalse) }
    ensures switch { held (newif (whole (control (codes "ifa")))) (cell.Word (codes "atrue")) ≡ plain_macro false [] (Word (codes "let") ∷ Word (codes "ifa") ∷ Word (codes "iftrue") ∷ []) }
    ensures no_conditional { went_of (newif (whole (control (codes "if")))) ≡ went.Stopped kind.TokenMisplaced }
    ensures register { held (new_register registers.Count (whole (control (codes "a")))) (cell.Word (codes "a")) ≡ value.Meaning (meaning.Register (register.Count 255)) }
    ensures last { went_of (and_then (new_register registers.Count (whole (control (codes "a") ++ control (codes "b")))) (new_register registers.Count)) ≡ went.Stopped kind.Overflow }
{}

/// Space factors.
pub fn factors()
    ensures usual { factor_behind (pos 1000) (pos 1000) ≡ pos 1000 }
    ensures sentence { factor_behind (pos 3000) (pos 1000) ≡ pos 3000 }
    ensures capital { factor_behind (pos 3000) (pos 999) ≡ pos 1000 }
    ensures parenthesis { factor_behind (pos 0) (pos 3000) ≡ pos 3000 }
{}

/// Characters that are refused, and commands that may not stand where they do.
#[tactic(auto, unfolding(lb_rows::specs::Refusals::refused_rows, crate::specs::Counting::include, lb_model_nest::specs::Boxes::end_group, lb_model_nest::specs::Groups::end_group_character, lb_model_nest::specs::Words::word_ended, crate::specs::Lists::item_row, crate::specs::Lists::endlist_row, lb_model_nest::specs::Paragraphs::paragraph_ended, crate::specs::Material::vadjust, crate::specs::Boxes::raise, lb_model_nest::specs::Items::italic_correction, lb_model::specs::Readings::taken, lb_model::specs::StartState::start_category))]
pub fn refusals()
    ensures math { went_of (token_row (Char MathShift 36) (Some (meaning.Char MathShift 36)) (whole [])) ≡ went.Stopped kind.MathRefused }
    ensures alignment { went_of (token_row (Char AlignmentTab 38) (Some (meaning.Char AlignmentTab 38)) (whole [])) ≡ went.Stopped kind.AlignRefused }
    ensures parameter { went_of (token_row (Char Parameter 35) (Some (meaning.Char Parameter 35)) (whole [])) ≡ went.Stopped kind.TokenMisplaced }
    ensures closing { went_of (token_row (Char EndGroup 125) (Some (meaning.Char EndGroup 125)) (whole [])) ≡ went.Stopped kind.GroupExtra }
    ensures undefined { went_of (token_row (Word (codes "zz")) None (whole [])) ≡ went.Stopped kind.Undefined }
    ensures refused { went_of (token_row (Word (codes "halign")) None (whole [])) ≡ went.Stopped kind.AlignRefused }
    ensures name_end { went_of (token_row (Word (codes "endcsname")) (Some (meaning.Row command.EndCsName)) (whole [])) ≡ went.Stopped kind.TokenMisplaced }
    ensures include { went_of (token_row (Word (codes "include")) (Some (meaning.Row command.Include)) (whole [])) ≡ went.Stopped kind.IncludeInside }
    ensures item { went_of (item_row (whole (tokens (codes " x")))) ≡ went.Stopped kind.ItemOutside }
    ensures list_end { went_of (endlist_row (whole [])) ≡ went.Stopped kind.ItemOutside }
    ensures material { went_of (vadjust (whole [])) ≡ went.Stopped kind.WrongMode }
    ensures raised { went_of (raise (whole [])) ≡ went.Stopped kind.WrongMode }
    ensures italic { went_of (italic_correction (whole [])) ≡ went.Stopped kind.WrongMode }
    ensures not_expanded { went_of (token_row (Word (codes "a")) (Some (meaning.Row command.IfTrue)) (whole [])) ≡ went.On }
{}

/// Texts and tokens that rows make.
#[tactic(auto, unfolding(crate::specs::Texts::tokens_of_text, lb_model::specs::Tokens::character, lb_model::specs::Tokens::characters, lb_model::specs::Tokens::next_token, lb_model::specs::StartState::start_category))]
pub fn made_tokens()
    ensures names { names_between (codes "a, b") ≡ codes "a" ∷ codes "b" ∷ [] }
    ensures no_name { names_between [] ≡ [] ∷ [] }
    ensures item { beside (Char Letter 120 ∷ []) ≡ toks (codes "\\hbox to0pt{\\hss x\\hskip5pt}") }
    ensures number { numberline (Some (tokens (codes "1"))) ≡ toks (codes "\\numberline{1}") }
    ensures starred { contents (record { level = Section; starred = true; short = []; title = []; number = None }) ≡ [] }
    ensures own_marks { marks MyHeadings (record { level = Chapter; starred = false; short = []; title = []; number = None }) ≡ [] }
{}

/// The end of a text: an open group comes before an open conditional, at the place of the end.
#[tactic(auto, unfolding(lb_model_nest::specs::Groups::begingroup, lb_model_nest::specs::Groups::group_opened, crate::specs::Environments::over))]
pub fn ends()
    ensures group { went_of (and_then (begingroup (whole [])) (ended (record { file = codes "a.tex"; line = 7 }))) ≡ went.StoppedAt (record { kind = kind.GroupOpen; file = codes "a.tex"; line = 7 }) }
{}

/// The kernel text: its lines, its codes, and a number of all of its codes in their order that was worked out elsewhere.
#[tactic(auto, unfolding(crate::specs::Kernel::kernel_lines))]
pub fn kernel_text()
    ensures lines { length kernel_lines ≡ 69 }
    ensures codes { size_of_lines 0 kernel_lines ≡ 4008 }
    ensures order { digest 0 kernel_lines ≡ 2684392370 }
{}

/// Tokens of a text that was written: spaces at its beginning go, and `@` is a letter.
#[tactic(auto, unfolding(crate::specs::Texts::tokens_of_text, lb_model::specs::Tokens::character, lb_model::specs::Tokens::characters, lb_model::specs::Tokens::next_token, lb_model::specs::StartState::start_category))]
pub fn written_texts()
    ensures spaces { tokens_of_text (codes "  a b") ≡ Some (Char Letter 97 ∷ Char Space 32 ∷ Char Letter 98 ∷ []) }
    ensures name { tokens_of_text (codes "\\a@b 1") ≡ Some (Word (codes "a@b") ∷ Char Other 49 ∷ []) }
    ensures nothing { tokens_of_text [] ≡ Some [] }
    ensures invalid { tokens_of_text (127 ∷ []) ≡ None }
{}

/// Chapters of one line that end in a fault, at that line.
pub fn chapters_that_stop()
    ensures names { map fault_of faulty_names ≡ map fault_told faulty_names }
    ensures numbers { map fault_of faulty_numbers ≡ map fault_told faulty_numbers }
    ensures rows { map fault_of faulty_rows ≡ map fault_told faulty_rows }
    ensures environments { map fault_of faulty_environments ≡ map fault_told faulty_environments }
    ensures lists { map fault_of faulty_lists ≡ map fault_told faulty_lists }
    ensures inside { list_faults ≡ list_faults_told }
    ensures ended { (set (codes "\\newenvironment{w}{}{}\\begin{w}\\end{w}")).fault ≡ None }
{}

/// The kernel text in parts: none of them ends in a fault.
pub fn kernel_parts()
    ensures first { map fault_of_part first_parts ≡ no_faults first_parts }
    ensures middle { map fault_of_part middle_parts ≡ no_faults middle_parts }
    ensures last { map fault_of_part last_parts ≡ no_faults last_parts }
{}

/// What cells hold and the log tells behind so many turns of a chapter of one line.
pub fn turns_at_work()
    ensures registers { map held_behind worked_registers ≡ map held_told worked_registers }
    ensures environments { map held_behind worked_environments ≡ map held_told worked_environments }
    ensures texts { map typed_behind worked_texts ≡ map typed_told worked_texts }
    ensures step_limit { (set_within 4 (codes "\\count1=5 ")).fault ≡ fault_told ([], kind.StepLimit) }
    ensures steps { (set_within 4 (codes "\\count1=5 ")).steps ≡ 4 }
{}

/// Characters of a word at work: their nodes, a character that the font lacks, and the space factor.
pub fn words()
    ensures nodes { (word_of (codes "Hi")).done.next.level.nodes ≡ roman_character 72 ∷ roman_character 105 ∷ [] }
    ensures lacked { (word_of (31 ∷ [])).done.next.feed.appends ≡ Log (log_line (event.MissingCharacter 31 (codes "cmr10"))) ∷ [] }
    ensures lacked_cuts_nothing { (word_of (72 ∷ 31 ∷ 105 ∷ [])).done.next.level.nodes ≡ roman_character 72 ∷ roman_character 105 ∷ [] }
    ensures sentence { (word_of (codes "i.")).done.next.level.space_factor ≡ pos 3000 }
    ensures initial { (word_of (codes "I.")).done.next.level.space_factor ≡ pos 1000 }
{}

/// Lines that are bad, as the log tells them: by how much one is too wide, or that it stretches too far.
pub fn bad_lines()
    ensures overfull { event_of_line 70 ≡ event.Overfull (pos 1310720) (codes "a.tex") 1 }
    ensures underfull { event_of_line 66 ≡ event.Underfull (codes "a.tex") 1 }
{}

/// Ten thousand groups may be open, and no more.
#[tactic(auto, unfolding(lb_model_nest::specs::Groups::group_opened))]
pub fn limits()
    ensures room { went_of (group_opened Simple (grouped 9999)) ≡ went.On }
    ensures no_room { went_of (group_opened Simple (grouped 10000)) ≡ went.Stopped kind.DepthLimit }
{}

/// What stands at the end of a paragraph, and before a first box and another one; the number of the next page, and where pages of a style
/// show it; and arithmetic, which looks at what it changes.
#[tactic(auto, unfolding(lb_model_paper::specs::Lines::interline))]
pub fn ends_and_beginnings()
    ensures paragraph { finished fil [] ≡ node.Penalty (pos 10000) ∷ node.Glue fil ∷ node.Penalty (neg_ℤ (pos 10000)) ∷ [] }
    ensures first { interline plain_lines no_depth (pos 327680) ≡ Ok [] }
    ensures next { interline plain_lines (pos 131072) (pos 327680) ≡ Ok (glue_node (record no_glue { width = pos 327680 }) ∷ []) }
    ensures page { held (page_counted (whole [])) page_counter ≡ value.Number (pos 2) }
    ensures plain { head_foot Plain ≡ Foot }
    ensures headings { head_foot Headings ≡ Head }
    ensures arithmetic { looked_at (worked_out Advance Local (cell.Count 1) (quantity.Number (pos 1)) (whole [])) ≡ cell.Count 1 ∷ [] }
    ensures assignment { looked_at (change Local (cell.Count 1) (value.Number (pos 1)) (whole [])) ≡ [] }
{}

//! Aux files and lines that were worked out by hand.
ghost use Rattle.std.specs.Prelude.{◌≡◌, ◌++◌, [], ◌∷◌, codes, negsuc, pos, None, Some};
ghost use Rattle.lb_base.specs.declared.token.Category.TheVariants.{BeginGroup, Letter, Parameter};
ghost use Rattle.lb_base.specs.declared.token.Tok.TheVariants.{Active, Char, Param, Word};
ghost use Rattle.lb_model_paper.specs.Texts.{line};
ghost use Rattle.lb_model_aux.specs.declared.line.Line.TheVariants.{Checkpoint, Entry, Input, Label};
ghost use Rattle.lb_model_aux.specs.Forms.{number_of};
ghost use Rattle.lb_model_aux.specs.Reading.{label_in, read_of, repeated_after};
ghost use Rattle.lb_model_aux.specs.Worked.{label, pair};
ghost use Rattle.lb_model_journal.specs.Written.{written};

/// Numbers of counters: the largest and the least, and one more; digits alone, behind one minus.
pub fn numbers()
    ensures largest { number_of (codes "2147483647") ≡ Some (pos 2147483647) }
    ensures too_large { number_of (codes "2147483648") ≡ None }
    ensures least { number_of (codes "-2147483647") ≡ Some (negsuc 2147483646) }
    ensures below_the_least { number_of (codes "-2147483648") ≡ None }
    ensures zeros { number_of (codes "-000") ≡ Some (pos 0) }
    ensures none { number_of (codes "") ≡ None }
    ensures minus_alone { number_of (codes "-") ≡ None }
    ensures plus { number_of (codes "+1") ≡ None }
    ensures space { number_of (codes "1 ") ≡ None }
{}

/// Labels: two groups and more, braces behind backslashes, and lines that are no labels.
#[tactic(auto, unfolding(crate::specs::Groups::to_close, crate::specs::Groups::are_groups, crate::specs::Reading::lines_of, crate::specs::Reading::said, crate::specs::Reading::read_of, lb_model::specs::Lines::cut_at_feeds))]
pub fn labels()
    ensures two_groups { read_of (codes "\\newlabel{k}{{1}{2}}") ≡ Label (codes "k") (pair (codes "12")) ∷ [] }
    ensures three_groups { read_of (codes "\\newlabel{k}{{1.2}{iv}{{A}}}") ≡ Label (codes "k") (record { text = codes "1.2"; page = codes "iv" }) ∷ [] }
    ensures escaped { read_of (codes "\\newlabel{k}{{\\{}{\\\\}}") ≡ Label (codes "k") (record { text = codes "\\{"; page = codes "\\\\" }) ∷ [] }
    ensures one_group { read_of (codes "\\newlabel{k}{{1}}") ≡ [] }
    ensures space_between { read_of (codes "\\newlabel{k}{{1} {2}}") ≡ [] }
    ensures space_at_the_end { read_of (codes "\\newlabel{k}{{1}{2}} ") ≡ [] }
    ensures open { read_of (codes "\\newlabel{k}{{1}{2}\\}") ≡ [] }
    ensures carriage_return { read_of (codes "\\newlabel{k}{{1}{2}}" ++ 13 ∷ 10 ∷ []) ≡ Label (codes "k") (pair (codes "12")) ∷ [] }
    ensures carriage_return_at_the_end { read_of (codes "\\newlabel{}{{}{}}" ++ 13 ∷ []) ≡ Label [] (pair []) ∷ [] }
{}

/// Entries and other aux files.
#[tactic(auto, unfolding(crate::specs::Groups::to_close, crate::specs::Groups::are_groups, crate::specs::Reading::lines_of, crate::specs::Reading::said, crate::specs::Reading::read_of, lb_model::specs::Lines::cut_at_feeds))]
pub fn entries()
    ensures entry { read_of (line (codes "\\relax ") ++ line (codes "\\@writefile{toc}{a\\{}")) ≡ Entry (codes "toc") (codes "a\\{") ∷ [] }
    ensures percent { read_of (codes "\\@writefile{toc}{a\\protected@file@percent}") ≡ Entry (codes "toc") (codes "a") ∷ [] }
    ensures percent_and_space { read_of (codes "\\@writefile{toc}{a\\protected@file@percent }") ≡ Entry (codes "toc") (codes "a") ∷ [] }
    ensures percent_inside { read_of (codes "\\@writefile{lof}{\\protected@file@percent b}") ≡ Entry (codes "lof") (codes "\\protected@file@percent b") ∷ [] }
    ensures unbalanced { read_of (codes "\\@writefile{toc}{a}}") ≡ [] }
    ensures input { read_of (line (codes "\\@input{a.aux}")) ≡ Input (codes "a.aux") ∷ [] }
{}

/// Checkpoints: other lines in them are skipped, and one that is cut is dropped.
#[tactic(auto, unfolding(crate::specs::Groups::to_close, crate::specs::Groups::are_groups, crate::specs::Reading::lines_of, crate::specs::Reading::said, crate::specs::Reading::read_of, lb_model::specs::Lines::cut_at_feeds))]
pub fn checkpoints()
    ensures whole { read_of (line (codes "\\@setckpt{a}{") ++ line (codes "\\setcounter{page}{17}") ++ line (codes "\\setcounter{b}{-3}") ++ line (codes "}"))
        ≡ Checkpoint (codes "a") ((codes "page", pos 17) ∷ (codes "b", negsuc 2) ∷ []) ∷ [] }
    ensures other_lines { read_of (line (codes "\\@setckpt{a}{") ++ line (codes "\\@setckpt{b}{") ++ line (codes "\\@input{c}")
        ++ line (codes "\\setcounter{p}{2147483648}") ++ codes "}") ≡ Checkpoint (codes "a") [] ∷ [] }
    ensures cut { read_of (line (codes "\\@input{c}") ++ line (codes "\\@setckpt{a}{") ++ line (codes "\\setcounter{page}{17}") ++ line (codes "\\@input{d}"))
        ≡ Input (codes "c") ∷ [] }
    ensures outside { read_of (line (codes "\\setcounter{page}{17}") ++ line (codes "}")) ≡ [] }
    ensures behind { read_of (line (codes "\\@setckpt{a}{") ++ line (codes "}") ++ line (codes "\\@input{c}"))
        ≡ Checkpoint (codes "a") [] ∷ Input (codes "c") ∷ [] }
{}

/// A key with two labels has the last one, and is told once.
pub fn repeated_labels()
    ensures last { label_in (codes "k") None (label (codes "k12") ∷ Input (codes "a") ∷ label (codes "k34") ∷ []) ≡ Some (pair (codes "34")) }
    ensures told { repeated_after [] (label (codes "k12") ∷ label (codes "j12") ∷ label (codes "k34") ∷ []) ≡ codes "k" ∷ [] }
{}

/// Token lists as they are written.
pub fn tokens()
    ensures words { written (Word (codes "a") ∷ Word (codes "ab") ∷ Word (codes "{") ∷ Word (codes "a1") ∷ Word [] ∷ []) ≡ codes "\\a \\ab \\{\\a1 \\ " }
    ensures characters { written (Char Letter 97 ∷ Char BeginGroup 123 ∷ Active 126 ∷ []) ≡ codes "a{~" }
    ensures parameters { written (Char Parameter 35 ∷ Param 1 ∷ []) ≡ codes "###1" }
{}

//! Laws of the bytes of DVI files, for those who count them before they are written.
ghost use Rattle.std.specs.Prelude.{◌≡◌, ◌≤◌, ◌+◌, ◌*◌, ◌++◌, List, length};
ghost use Rattle.std.specs.List.{concat};
ghost use Rattle.lb_base.specs.declared.moment.Moment.{Moment};
ghost use Rattle.lb_base.specs.declared.page.FontId.{FontId};
ghost use Rattle.lb_base.specs.declared.page.Mark.{Mark};
ghost use Rattle.lb_base.specs.declared.page.PageCode.{PageCode};
ghost use Rattle.lb_model_paper.specs.Dvi.{dvi, fonts_through, IsDrawable, next_bytes, preamble, Progress, progress_at_start};
ghost use Rattle.lb_dvi.specs.Files.{answers_from};
ghost use Rattle.lb_dvi.specs.Fonts.{AreOfFont, IsAtMostFont};

/// There are 42 bytes before the first page.
pub fn preamble_length()
    ensures { (m : Moment) → length (preamble m) ≡ 42 }
{}

/// A mark takes at most 300 bytes, and the rest of a page 46.
pub fn page_bound()
    ensures { (p : Progress) (page : PageCode) → IsDrawable page → length (next_bytes p page) ≤ 46 + 300 * length page.marks }
{}

/// Marks of one font make a file of at most this font use no other.
pub fn one_font()
    ensures kept { (font : FontId) (fonts : List FontId) (marks : List Mark) → IsAtMostFont font fonts → AreOfFont font marks → IsAtMostFont font (fonts_through fonts marks) }
    ensures few { (font : FontId) (fonts : List FontId) (marks : List Mark) → IsAtMostFont font fonts → AreOfFont font marks → length (fonts_through fonts marks) ≤ 1 }
{}

/// The preamble of a moment, and behind it all that [`crate::Writer::page`] answers for some pages one
/// after another and then [`crate::Writer::finish`], are the file of that moment and those pages.
pub fn whole_files()
    ensures { (m : Moment) (pages : List PageCode) → preamble m ++ concat (answers_from progress_at_start pages) ≡ dvi m pages }
{}

//! Laws of the codes of pages.
ghost use Rattle.std.specs.Prelude.{◌≡◌, Ok, ℤ};
ghost use Rattle.std.specs.List.{AllByRecursion};
ghost use Rattle.lb_base.specs.declared.node.Boxed.{Boxed, out-Boxed};
ghost use Rattle.lb_base.specs.declared.page.PageCode.{PageCode};
ghost use Rattle.lb_model_paper.specs.Dvi.{IsDrawable};
ghost use Rattle.lb_model_paper.specs.Marks.{marks_of, page_code_or_fault};
ghost use Rattle.lb_marks.specs.Spots.{HasShortName};

/// A page code has the marks and the size of its box. Where the names of its fonts have at most 255
/// bytes, it can be written into a DVI file.
pub fn page_codes()
    ensures marks { (number : ℤ) (box : Boxed) (code : PageCode)
        → page_code_or_fault number box ≡ Ok code → code.marks ≡ marks_of box }
    ensures number { (number : ℤ) (box : Boxed) (code : PageCode)
        → page_code_or_fault number box ≡ Ok code → code.number ≡ number }
    ensures height { (number : ℤ) (box : Boxed) (code : PageCode)
        → page_code_or_fault number box ≡ Ok code → code.height ≡ (out-Boxed box).height }
    ensures width { (number : ℤ) (box : Boxed) (code : PageCode)
        → page_code_or_fault number box ≡ Ok code → code.width ≡ (out-Boxed box).width }
    ensures drawable { (number : ℤ) (box : Boxed) (code : PageCode)
        → page_code_or_fault number box ≡ Ok code
        → AllByRecursion HasShortName code.marks → IsDrawable code }
{}

//! Laws of the fonts that are made.
ghost use Rattle.std.specs.Prelude.{◌≡◌, ◌≢◌, ◌<◌, ◌≤◌, ℕ, ℤ, pos, true, List, length, Some, get_or, slice_index};
ghost use Rattle.std.specs.List.{list_any};
ghost use Rattle.lb_model_paper.specs.Dvi.{int_eq};
ghost use Rattle.lb_model_paper.specs.FontFiles as file;
ghost use Rattle.lb_model_paper.specs.TestFont.{test_font};
ghost use Rattle.lb_tfm_make.specs.declared.spec.CharWidth.{CharWidth};
ghost use Rattle.lb_tfm_make.specs.declared.spec.FontSpec.{FontSpec};
ghost use Rattle.lb_tfm_make.specs.FontBytes as bytes;
ghost use Rattle.lb_tfm_make.specs.FontSpecs as spec;
ghost use Rattle.lb_tfm_make.specs.MadeFonts.{IsMadeOf};
ghost use Rattle.lb_tfm_make.specs.TestFont as test;

/// The file of a description breaks no rule, and gives the metrics of its rows and its steps.
pub fn made_files()
    ensures { (font : FontSpec) → spec.IsValid font → font.check < 4294967296 → bytes.last_code 0 font.widths < 256 → length (bytes.distinct_widths font.widths) ≤ 255 → IsMadeOf font (bytes.file_of font) }
{}

/// The distinct widths of a description are those of its rows, each once.
pub fn distinct_widths()
    ensures among { (rows : List CharWidth) (width : ℤ) → list_any (int_eq width) (bytes.distinct_widths rows) ≡ list_any (λ (row : CharWidth). int_eq width row.width) rows }
    ensures apart { (rows : List CharWidth) (j k : ℕ) → j < k → k < length (bytes.distinct_widths rows) → get_or (bytes.distinct_widths rows) j (pos 0) ≢ get_or (bytes.distinct_widths rows) k (pos 0) }
{}

/// Since the codes rise, each row of a description is the row of its code.
pub fn rows_by_code()
    ensures { (font : FontSpec) (k : ℕ) (row : CharWidth) → spec.IsValid font → k < length font.widths → spec.row_of font.widths (get_or font.widths k row).code ≡ Some (get_or font.widths k row) }
{}

/// The four bytes of a fix-word below 16 in size stand for it.
pub fn bytes_of_fix_words()
    ensures { (fix : ℤ) → spec.is_fix fix ≡ true → file.fix_word (slice_index (bytes.fix_word fix) 0) (slice_index (bytes.fix_word fix) 1) (slice_index (bytes.fix_word fix) 2) (slice_index (bytes.fix_word fix) 3) ≡ fix }
{}

/// The file of the test font.
pub fn worked_file()
    ensures { bytes.file_of test.test_font ≡ test_font }
{}

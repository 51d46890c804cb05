//! The codes of categories (TeXbook, chapter 7), and whether two tokens are one.
ghost use Rattle.std.specs.Prelude.{◌≡◌, ◌↔◌, IsTrue, Some, pos};
ghost use Rattle.lb_base.specs.declared.token.Category.{Category};
ghost use Rattle.lb_values.specs.Categories.{category_at, category_code};

use lb_base::{Category, Tok};

// The categories in the order of their codes.
const CATEGORIES: [Category; 16] = [
    Category::Escape,
    Category::BeginGroup,
    Category::EndGroup,
    Category::MathShift,
    Category::AlignmentTab,
    Category::EndOfLine,
    Category::Parameter,
    Category::Superscript,
    Category::Subscript,
    Category::Ignored,
    Category::Space,
    Category::Letter,
    Category::Other,
    Category::Active,
    Category::Comment,
    Category::Invalid,
];

/// The code of a category, from 0 to 15.
#[tactic(auto, unfolding(crate::specs::Categories::category_code))]
pub fn category_code(category: Category) -> u8
    ensures { result ≡ category_code category }
{
    match category {
        Category::Escape => 0,
        Category::BeginGroup => 1,
        Category::EndGroup => 2,
        Category::MathShift => 3,
        Category::AlignmentTab => 4,
        Category::EndOfLine => 5,
        Category::Parameter => 6,
        Category::Superscript => 7,
        Category::Subscript => 8,
        Category::Ignored => 9,
        Category::Space => 10,
        Category::Letter => 11,
        Category::Other => 12,
        Category::Active => 13,
        Category::Comment => 14,
        Category::Invalid => 15,
    }
}

/// The category of a code; none where no category has it.
#[tactic(auto, unfolding(crate::specs::Categories::categories))]
pub fn category_at(code: i32) -> Option<Category>
    ensures { result ≡ category_at code }
{
    CATEGORIES.get(usize::try_from(code).ok()?).copied()
}

/// Each category is the one of its code.
#[tactic(auto, unfolding(crate::specs::Categories::categories, crate::specs::Categories::category_code))]
pub fn codes_read_back()
    ensures { (category : Category) → category_at (pos (category_code category)) ≡ Some category }
{}

/// Whether two tokens are the same.
pub fn equal_token(token: &Tok, other: &Tok) -> bool
    ensures { IsTrue result ↔ (token.now ≡ other.now) }
{
    token == other
}

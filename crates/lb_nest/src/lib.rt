//! The semantic nest over any cells: lists, words, paragraphs, boxes, pages, groups and the entries of the journal, without reading a
//! token.
#![tactic(auto)]

mod adding;
mod bad_lines;
mod boxes;
mod breaking;
mod characters;
mod corrections;
mod digits;
mod entries;
mod finishing;
mod fonts;
mod groups;
mod items;
mod level;
mod lines;
mod list_end;
mod material;
mod nest;
mod notes;
mod numbering;
mod pages;
mod paragraph_end;
mod paragraphs;
mod shape;
mod ship;
mod spaces;
mod stack;
mod stops;
mod words;

pub use adding::{add_all, add_box, add_node};
pub use boxes::{open_list, open_mark, open_parts, place_box, place_void};
pub use characters::{character, control_space};
pub use corrections::{discretionary_hyphen, italic_correction};
pub use entries::{Entry, EntryList};
pub use groups::{Closed, change, close_group, keep_after, open_group};
pub use items::{
    add_glue, add_kern, add_penalty, add_rule, indent, leavevmode, noindent, par, plainnext,
    put_horizontal_glue, put_vertical_glue,
};
pub use level::{OpenList, SpaceFactor, is_page, is_paragraph, is_restricted, is_vertical, mode};
pub use list_end::{EndedList, Material, Packing, end_list};
pub use material::place_material;
pub use nest::{Nest, enter};
pub use pages::{add_to_page, clear_page};
pub use paragraph_end::end_paragraph;
pub use paragraphs::{begin_in_vertical, begin_paragraph};
pub use spaces::{end_line, put_hspace, put_vspace, unskip};
pub use stack::Stack;
pub use words::{end_word, put_character, put_space, space};

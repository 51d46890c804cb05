//! Fonts that are named.
use lb_base::Name;

/// A font at a size: its name, which is that of its file without what stands before it and without `.tfm`, and its size in
/// scaled points, 65536 to the point.
#[derive(Drop)]
pub struct FontName {
    pub name: Name,
    pub size: i32,
}

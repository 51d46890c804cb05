//! The moment at which a run says that it takes place.

/// A date and a time of day. The year is at most 9999, the month 1 to 12 and the day 1 to 31, and
/// the minutes since midnight are below 1440.
#[derive(Clone, Copy, PartialEq, Eq)]
pub struct Moment {
    pub year: u16,
    pub month: u8,
    pub day: u8,
    pub minutes: u16,
}

impl Moment {
    /// Noon of 4 July 1776, which TeX takes where it is told no moment (tex.web, part 17). With it
    /// the same input gives the same bytes on each day.
    pub const FIXED: Moment = Moment {
        year: 1776,
        month: 7,
        day: 4,
        minutes: 720,
    };
}

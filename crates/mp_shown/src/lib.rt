//! What a track shows at a moment: which of its samples, by its edit list (ISO/IEC 14496-12, 8.6.6).
#![tactic(auto)]

mod law;
mod place;
mod shown;
#[cfg(test)]
mod tests;

pub use law::{pieces_show, shown_by_fractions, times_decide_what_is_shown};
pub use shown::plain_shown;

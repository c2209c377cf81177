//! Boxes (ISO/IEC 14496-12, 4.2): their heads, the children of a container, and boxes that are
//! written as lists of fields. Full boxes: their version, their flags and their tables.
//!
//! A box that ends behind its container is `BoxCut`, and a size that can't be is `BoxSize`, at the
//! first such box in file order. Nothing is copied. Boxes are pushed behind their lengths, which are known
//! first; memory is taken by `reserve` alone.
#![tactic(auto)]

mod child;
mod counted;
mod field;
mod format;
mod full_box;
mod head;
mod law;
mod length;
mod number;
mod push;
#[cfg(test)]
mod push_tests;
mod reading;
#[cfg(test)]
mod tests;

pub use child::{
    ChildBox, Span, at_most_one, check_boxes, child_count, first_child, next_child, one, one_of_two,
};
pub use counted::check_counted;
pub use field::Field;
pub use format::{boxes_have_lengths, parts_are_found, tables_are_read};
pub use full_box::{FIRST_FIELD, FIRST_ROW, check_full_box, flags, row_count, version};
pub use head::{BoxHead, TopHead, head_of, next_box};
pub use law::{
    boxes_are_read, boxes_are_whole, fields_are_read, heads_are_read, numbers_are_read,
    parts_are_read, pieces_may_be_cut,
};
pub use length::{box_len, fields_len, sum_len, table_len};
pub use number::{kind_in, u16_in, u32_in, u64_in};
pub use push::{begin_box, begin_table, push_box, push_bytes, push_fields, push_head, reserve};
pub use reading::{next_bytes, next_time, next_u16, next_u32};

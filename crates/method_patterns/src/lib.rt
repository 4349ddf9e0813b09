// The method under patterns of conditions met and not met, on the columns of a good book: nothing here takes a book (document 02, n).
#![tactic(auto)]

pub mod endings;
pub mod marks;
pub mod one;
pub mod patterns;

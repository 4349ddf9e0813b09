// The lists as they are read, whoever lends them.
pub use shared_lists::Lists;

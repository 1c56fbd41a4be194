// How much room values take.
pub const VALUE_ROOM: usize = 8448; // the rows of the largest degree, 33, of the most words, 256

pub const PRODUCT_ROOM: usize = 16640; // those of a product of two values: 65

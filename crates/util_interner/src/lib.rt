//! Lists of numbers by number, and names, one after the other in one vector, and found again by hashes of their numbers.
#![tactic(auto)]

mod hashes;
mod key_list;
mod key_table;
mod name_list;
mod name_table;
mod room;
mod table_laws;

pub use hashes::{bucket_in, mix, upper};
pub use key_list::KeyList;
pub use key_table::{KeyTable, add, drop_behind, find, hash_of, make_buckets};
pub use name_list::NameList;
pub use name_table::{add_name, find_name, hash_of_name, make_name_buckets};
pub use room::{in_32_bits, with_room};
pub use table_laws::walks_are_short;

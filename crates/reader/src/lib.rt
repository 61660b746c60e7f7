// The reader of cards: check, count, sheet and find.
#![tactic(auto)]

mod card;
mod empty;
mod finding;
mod key;
mod parsing;
mod records;
mod rest;
mod sheets;
mod walk;

pub use card::Card;
pub use finding::find;
pub use rest::SheetHead;
pub use sheets::sheet;
pub use walk::check;

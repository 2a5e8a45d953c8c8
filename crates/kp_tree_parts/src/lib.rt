//! Readers of the parts of a file, from its tokens into an arena: typed lists, conditions, effects, items of `:init`.
//! `specs/Readers.antt` says which form of the grammar each one reads.
#![tactic(auto)]

mod ahead;
mod atoms;
mod conds;
mod effects;
mod init_items;
mod lexeme;
mod runs;
mod titles;
mod typed_lists;

pub use conds::{Role, cond, no_condition};
pub use effects::{eff, no_effect};
pub use init_items::items;
pub use kp_tree_cursor::{
    Class, Halt, Lead, Lexeme, Tokens, begins, close, follow, has, is_left, open, peek,
    skip_keywords, skip_name,
};
pub use lexeme::{tokens_in, word};
pub use runs::{add, append};
pub use titles::title;
pub use typed_lists::{typed, variables};

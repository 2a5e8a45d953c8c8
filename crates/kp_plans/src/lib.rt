//! Names as words, and plans as text. `specs/Grammar.antt` says which texts are plans, `specs/Printed.antt` how plans are printed.
#![tactic(auto)]

mod decoding;
mod encoding;
mod finding;
mod laws;
mod printing;
mod reading;
mod step;
mod stripping;
mod table;
mod words;

pub use decoding::decode_name;
pub use encoding::{encode_name, put_word};
pub use finding::find_steps;
pub use laws::a_plan_file_has_one_answer;
pub use printing::plan_text;
pub use reading::read_plan;
pub use step::PlanStep;
pub use stripping::strip;
pub use table::NameTable;
pub use words::name_of;

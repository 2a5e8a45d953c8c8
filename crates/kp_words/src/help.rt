ghost use Rattle.std.specs.Prelude.{◌≡◌, IfOk};
ghost use Rattle.kp_words.specs.Usage.{usage_text, usage_by_table};

use kp_base::{Memory, Row};
use std::alloc::Global;

const USAGE: &str = "usage: kplan translate D P OD OP [--mode M | --merges F] [--implicates N]
       kplan solve D P [--mode M | --merges F] [--implicates N] [--budget N] [--classical F]
       kplan classical D P [--budget N]
       kplan strip T
       kplan lift D P PLAN [--mode M | --merges F] [--implicates N]
       kplan check D P PLAN [--implicates N]
       kplan width D P [--bound N] [--implicates N]
       kplan merges D P [--mode M] [--implicates N]
       kplan bench FAMILY N [--mode M] [--budget N]
";

/// How to call the program.
pub fn usage(alloc: Global) -> Result<Row<u8>, Memory>
    ensures text { IfOk result (λ text. text ≡ usage_text) }
    ensures table { IfOk result (λ text. text ≡ usage_by_table) }
{
    Ok(Row::from_vec(USAGE.as_bytes().to_vec(alloc)?))
}

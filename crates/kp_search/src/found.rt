use kp_base::Row;

/// How a search ended.
#[derive(Drop)]
pub enum Found {
    /// With a plan.
    Plan {
        /// The numbers of its operators, in order.
        ops: Row<u32>,
        /// How many entries were expanded.
        expanded: u32,
    },
    /// No entry is left, and there is no plan.
    NoPlan,
    /// The budget is used up.
    Spent {
        /// How many entries were expanded.
        expanded: u32,
    },
}

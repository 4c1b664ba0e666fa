//! Prices, depths and heights, and the image that keeps within its declared steps.

pub use aom_budget::{Accepted, BudgetFault, BudgetOwner, Figures, accept, budget_of};
pub use aom_cost_report::{Names, Places, dot_text, figures_text};

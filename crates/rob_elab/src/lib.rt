//! The forms of a model in whole numbers: its robust constraints, each a matrix by parameter and decision column.
#![tactic(auto)]

pub mod bounds;
pub mod elaboration;
pub mod forms;
pub mod laws;
pub mod matrix;
pub mod objective;
pub mod rows;
pub mod writing;

pub use elaboration::elaborate;
pub use forms::Forms;
pub use rob_sets::ElabErr;
pub use writing::written;

// The values of a state: stores and channels, what expressions are worth, and what is printed.

pub use pml_eval::pattern::Pattern;
pub use pml_value::view::View;
pub use pml_value::{Channel, Store, clip, eval, pattern, place};
pub use promela_process::place::Place;
pub use run_printf::name_of_number as named;
pub use run_printf::string::printed;

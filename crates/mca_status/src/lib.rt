//! Decoding of a machine-check bank's registers, apart from the error code itself: the class of the
//! error, its weight, the page it names and the threshold status. It follows the Intel SDM, volume
//! 3, chapter "Machine-Check Architecture". No call allocates memory, and none returns an error.
#![tactic(auto)]

mod addresses;
mod classes;
mod registers;
mod thresholds;
mod weights;

pub use addresses::{usable_address, usable_page};
pub use classes::{CLASS_COUNT, Class, ItemClass, class_of};
pub use registers::{Cap, GlobalStatus, Misc, Status};
pub use thresholds::{Threshold, threshold_of};
pub use weights::weight_of;

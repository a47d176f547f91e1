//! Converts the records of machine checks that Linux saves when it panics to lines of script:
//! `struct mce`, as the firmware's record store and the files of systemd-pstore contain it.

mod laws;
mod layout;
mod printing;
mod text;

pub use laws::records_are_read;
pub use layout::saved_event;
pub use printing::{MOST_BYTES, print_record};
pub use text::push_record;

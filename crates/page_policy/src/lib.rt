//! When memory pages are taken offline: a leaky bucket of corrected errors for each page, the
//! states of pages, and the orders that follow when a state rises.
//!
//! `Pages` has a row for each page, in the order in which pages were first seen. A page's row
//! depends only on the reports of that page. The definitions in `specs/` say how, and the contracts
//! of `Pages` say that each call keeps to them.
//!
//! A public function with an empty body is a law: its clauses are the point.
#![tactic(auto)]

mod buckets;
mod laws;
mod pages;
mod rows;

pub use buckets::{Bucket, Limit, MOST_CAPACITY, MOST_PERIOD};
pub use laws::{numbers_in_digits, page_laws, report_laws};
pub use pages::Pages;
pub use row_tables::RowRefused;
pub use rows::{Order, PageRow, PageState, is_corrected};

//! The lines of a listing of the account.

ghost use Rattle.std.specs.Prelude.{◌≡◌, ◌++◌, OnOk};
ghost use Rattle.std.specs.List.{flat_map, zip};
ghost use Rattle.page_policy.specs.Pages.{page_entry};
ghost use Rattle.ras_account.specs.Rows.{row_of};
ghost use Rattle.listing_texts.specs.Listing.{bucket_line, bucket_text, class_count};
ghost use Rattle.listing_texts.specs.Listing.{counts_line, listed_name, listing_lines};
ghost use Rattle.listing_texts.specs.Listing.{module_row_line, page_row_line, replace_text};

use crate::metrics::push_metrics;
use mca_status::ItemClass;
use page_policy::{Bucket, PageState};
use ras_account::{Account, ModuleRow};
use ras_base::{NoMemory, push_number};
use ras_facts::Name;
use ras_texts::{CLASSES, class_word, push_label, push_name, push_page, state_word};

/// Which part of the account is listed.
#[derive(Clone, Copy, Debug, PartialEq, Eq)]
pub enum Listing {
    /// The weights of the items of each module, by class.
    Counts,
    /// Each page, with its state and its bucket.
    Pages,
    /// The names of the reports that were counted.
    Names,
    /// Each module that has a bucket, with the bucket.
    Modules,
    /// The sums of all of these, in the text format of Prometheus.
    Metrics,
}

/// Appends the lines of a listing of an account, in the order in which its rows were first seen.
///
/// # Errors
///
/// `NoMemory`: only if memory runs out.
pub fn push_listing(text: &mut Vec<u8>, listing: Listing, account: &Account) -> Result<(), NoMemory>
    ensures { OnOk result
        (text.new.items ≡ text.old.items ++ listing_lines listing account.now.state) }
{
    match listing {
        Listing::Counts => push_all_counts(text, account),
        Listing::Pages => push_pages(text, account),
        Listing::Names => push_names(text, account),
        Listing::Modules => push_modules(text, account),
        Listing::Metrics => push_metrics(text, account),
    }
}

// Adds the lines of all modules with their weights.
fn push_all_counts(text: &mut Vec<u8>, account: &Account) -> Result<(), NoMemory>
    ensures { OnOk result (text.new.items
        ≡ text.old.items ++ flat_map counts_line account.now.state.modules) }
{
    for i in 0..account.modules_len() {
        push_counts(text, account.module(i))?;
    }
    Ok(())
}

// Adds the lines of all pages.
fn push_pages(text: &mut Vec<u8>, account: &Account) -> Result<(), NoMemory>
    ensures { OnOk result (text.new.items
        ≡ text.old.items ++ flat_map page_row_line account.now.state.pages) }
{
    let pages = account.pages();
    for i in 0..pages.len() {
        let (page, bucket, state) = pages.row(i);
        push_page_row(text, page, bucket, state)?;
    }
    Ok(())
}

// Adds the lines of all names.
fn push_names(text: &mut Vec<u8>, account: &Account) -> Result<(), NoMemory>
    ensures { OnOk result (text.new.items
        ≡ text.old.items ++ flat_map listed_name account.now.state.names) }
{
    for i in 0..account.names_len() {
        push_name_line(text, account.name(i))?;
    }
    Ok(())
}

// Adds the lines of all modules that have a bucket.
fn push_modules(text: &mut Vec<u8>, account: &Account) -> Result<(), NoMemory>
    ensures { OnOk result (text.new.items
        ≡ text.old.items ++ flat_map module_row_line account.now.state.modules) }
{
    for i in 0..account.modules_len() {
        push_module_row(text, account.module(i))?;
    }
    Ok(())
}

// Adds the line of a name.
fn push_name_line(text: &mut Vec<u8>, name: &Name) -> Result<(), NoMemory>
    ensures { OnOk result (text.new.items ≡ text.old.items ++ listed_name name.now) }
{
    push_name(text, name)?;
    text.push(b'\n')?;
    Ok(())
}

// Adds the line of a page with its bucket.
fn push_page_row(
    text: &mut Vec<u8>,
    page: u64,
    bucket: Bucket,
    state: PageState,
) -> Result<(), NoMemory>
    ensures { OnOk result
        (text.new.items ≡ text.old.items ++ page_row_line (page_entry page bucket state)) }
{
    text.extend_from_slice(b"page=")?;
    push_page(text, Some(page))?;
    text.extend_from_slice(b" state=")?;
    text.extend_from_slice(state_word(state))?;
    push_bucket(text, bucket)?;
    text.push(b'\n')?;
    Ok(())
}

// Adds the line of a module with its weights.
fn push_counts(text: &mut Vec<u8>, row: &ModuleRow) -> Result<(), NoMemory>
    ensures { OnOk result (text.new.items ≡ text.old.items ++ counts_line (row_of row.now)) }
{
    text.extend_from_slice(b"counts label=")?;
    push_label(text, &row.label)?;
    push_class_counts(text, &CLASSES, &row.sums)?;
    text.push(b'\n')?;
    Ok(())
}

// Adds the weights of classes.
fn push_class_counts(
    text: &mut Vec<u8>,
    classes: &[ItemClass],
    sums: &[u64],
) -> Result<(), NoMemory>
    ensures { OnOk result
        (text.new.items ≡ text.old.items ++ flat_map class_count (zip classes.now sums.now)) }
{
    for i in 0..classes.len().min(sums.len()) {
        push_class_count(text, classes[i], sums[i])?;
    }
    Ok(())
}

// Adds the weight of a class.
fn push_class_count(text: &mut Vec<u8>, class: ItemClass, sum: u64) -> Result<(), NoMemory>
    ensures { OnOk result (text.new.items ≡ text.old.items ++ class_count (class, sum)) }
{
    text.push(b' ')?;
    text.extend_from_slice(class_word(class))?;
    text.push(b'=')?;
    push_number(text, sum)
}

// Adds the line of a module, if it has a bucket.
fn push_module_row(text: &mut Vec<u8>, row: &ModuleRow) -> Result<(), NoMemory>
    ensures { OnOk result (text.new.items ≡ text.old.items ++ module_row_line (row_of row.now)) }
{
    match row.bucket {
        None => Ok(()),
        Some(bucket) => push_bucket_line(text, row, bucket),
    }
}

// Adds the line of a module with this bucket.
fn push_bucket_line(text: &mut Vec<u8>, row: &ModuleRow, bucket: Bucket) -> Result<(), NoMemory>
    ensures { OnOk result
        (text.new.items ≡ text.old.items ++ bucket_line (row_of row.now) bucket) }
{
    text.extend_from_slice(b"module label=")?;
    push_label(text, &row.label)?;
    text.extend_from_slice(b" state=")?;
    text.extend_from_slice(replace_word(row.replace))?;
    push_bucket(text, bucket)?;
    text.push(b'\n')?;
    Ok(())
}

// Adds how many errors a bucket has, and its time.
fn push_bucket(text: &mut Vec<u8>, bucket: Bucket) -> Result<(), NoMemory>
    ensures { OnOk result (text.new.items ≡ text.old.items ++ bucket_text bucket) }
{
    text.extend_from_slice(b" count=")?;
    push_number(text, u64::from(bucket.count))?;
    text.extend_from_slice(b" stamp=")?;
    push_number(text, bucket.stamp)
}

// Returns the word for whether a module is to be replaced.
fn replace_word(replace: bool) -> &'static [u8]
    ensures { result.now ≡ replace_text replace }
{
    if replace { b"replace" } else { b"kept" }
}

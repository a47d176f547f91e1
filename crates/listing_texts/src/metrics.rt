//! The metrics of an account, in the text format of Prometheus.

ghost use Rattle.std.specs.Prelude.{◌≡◌, ◌++◌, [], ◌∷◌, codes, count_by, decimal, nat_eq, if◌then◌else◌, OnOk};
ghost use Rattle.std.specs.List.{flat_map, zip};
ghost use Rattle.ras_base.specs.Text.{line_with};
ghost use Rattle.page_policy.specs.Rows.{height};
ghost use Rattle.ras_account.specs.Rows.{row_of};
ghost use Rattle.listing_texts.specs.Metrics.{bucket_samples, class_pair, error_sample, error_samples};
ghost use Rattle.listing_texts.specs.Metrics.{escape, family_text, head_text, help_of, is_page_in, kind_text};
ghost use Rattle.listing_texts.specs.Metrics.{label_pair};
ghost use Rattle.listing_texts.specs.Metrics.{metrics_text, name_of, page_sample, pair_text};
ghost use Rattle.listing_texts.specs.Metrics.{replace_samples, sample_of, sample_text, samples_of};
ghost use Rattle.ras_texts.specs.Text.{label_text};

use dimm_topology::Label;
use mca_status::ItemClass;
use page_policy::PageState;
use ras_account::{Account, MOST_NAMES, ModuleRow};
use ras_base::{NoMemory, push_number};
use ras_texts::{CLASSES, VERSION, class_word, label_word, state_word};

/// A metric of an account, with its own samples.
#[derive(Clone, Copy, Debug, PartialEq, Eq)]
pub enum Metric {
    /// The weights of errors by their module and class.
    ErrorsTotal,
    /// How many pages are in each state.
    Pages,
    /// Whether a module is to be replaced.
    ModuleReplace,
    /// How many errors the bucket of a module has.
    ModuleBucket,
    /// How many errors in a module's bucket order its replacement.
    ModuleBucketLimit,
    /// How many names are in the account.
    Names,
    /// How many names the account can have.
    NamesLimit,
    /// How many entries are counted.
    EntriesTotal,
    /// The boot below which all boots are retired.
    BootFloor,
    /// The version of the program.
    BuildInfo,
}

// The metrics in the order in which they are printed.
const METRICS: [Metric; 10] = [
    Metric::ErrorsTotal,
    Metric::Pages,
    Metric::ModuleReplace,
    Metric::ModuleBucket,
    Metric::ModuleBucketLimit,
    Metric::Names,
    Metric::NamesLimit,
    Metric::EntriesTotal,
    Metric::BootFloor,
    Metric::BuildInfo,
];

/// Appends all metrics of an account.
///
/// # Errors
///
/// `NoMemory`: only if memory runs out.
pub(crate) fn push_metrics(text: &mut Vec<u8>, account: &Account) -> Result<(), NoMemory>
    ensures { OnOk result (text.new.items ≡ text.old.items ++ metrics_text account.now.state) }
{
    push_families(text, &METRICS, account)
}

// Adds metrics.
fn push_families(text: &mut Vec<u8>, metrics: &[Metric], account: &Account) -> Result<(), NoMemory>
    ensures { OnOk result (text.new.items
        ≡ text.old.items ++ flat_map (family_text account.now.state) metrics.now) }
{
    for i in 0..metrics.len() {
        push_head(text, metrics[i])?;
        push_samples(text, metrics[i], account)?;
    }
    Ok(())
}

// Adds the lines before the samples of a metric.
fn push_head(text: &mut Vec<u8>, metric: Metric) -> Result<(), NoMemory>
    ensures { OnOk result (text.new.items ≡ text.old.items ++ head_text metric) }
{
    push_comment(text, b"# HELP ", metric, help_word(metric))?;
    push_comment(text, b"# TYPE ", metric, kind_word(metric))
}

// Adds a comment line about a metric.
fn push_comment(
    text: &mut Vec<u8>,
    kind: &[u8],
    metric: Metric,
    what: &[u8],
) -> Result<(), NoMemory>
    ensures { OnOk result (text.new.items
        ≡ text.old.items ++ line_with (kind.now ++ name_of metric ++ codes " " ++ what.now)) }
{
    text.extend_from_slice(kind)?;
    text.extend_from_slice(name_word(metric))?;
    text.push(b' ')?;
    text.extend_from_slice(what)?;
    text.push(b'\n')?;
    Ok(())
}

// Adds the samples of a metric.
fn push_samples(text: &mut Vec<u8>, metric: Metric, account: &Account) -> Result<(), NoMemory>
    ensures { OnOk result (text.new.items
        ≡ text.old.items ++ flat_map sample_text (samples_of metric account.now.state)) }
{
    match metric {
        Metric::ErrorsTotal => push_errors(text, account),
        Metric::Pages => push_pages(text, account),
        Metric::ModuleReplace => push_replaces(text, account),
        Metric::ModuleBucket => push_buckets(text, account),
        Metric::ModuleBucketLimit => {
            push_plain(text, metric, u64::from(account.module_limit().capacity))
        }
        Metric::Names => push_plain(text, metric, account.names_len() as u64),
        Metric::NamesLimit => push_plain(text, metric, MOST_NAMES as u64),
        Metric::EntriesTotal => push_plain(text, metric, account.entries()),
        Metric::BootFloor => push_plain(text, metric, account.floor()),
        Metric::BuildInfo => push_labeled(text, metric, b"version", VERSION, 1),
    }
}

// Adds the weights of all modules.
fn push_errors(text: &mut Vec<u8>, account: &Account) -> Result<(), NoMemory>
    ensures { OnOk result (text.new.items ≡ text.old.items
        ++ flat_map sample_text (samples_of Metric.ErrorsTotal account.now.state)) }
{
    for i in 0..account.modules_len() {
        let row = account.module(i);
        push_class_errors(text, &row.label, &CLASSES, &row.sums)?;
    }
    Ok(())
}

// Adds the weights of a module's classes.
fn push_class_errors(
    text: &mut Vec<u8>,
    label: &Label,
    classes: &[ItemClass],
    sums: &[u64],
) -> Result<(), NoMemory>
    ensures { OnOk result (text.new.items ≡ text.old.items
        ++ flat_map (λ sum. sample_text (error_sample label.now sum)) (zip classes.now sums.now)) }
{
    for i in 0..classes.len().min(sums.len()) {
        push_error(text, label, classes[i], sums[i])?;
    }
    Ok(())
}

// Adds the weight of a module's class.
fn push_error(text: &mut Vec<u8>, label: &Label, class: ItemClass, sum: u64) -> Result<(), NoMemory>
    ensures { OnOk result (text.new.items
        ≡ text.old.items ++ sample_text (error_sample label.now (class, sum))) }
{
    text.extend_from_slice(name_word(Metric::ErrorsTotal))?;
    push_module(text, label)?;
    push_class(text, class)?;
    push_value(text, sum)
}

// Adds the label of a module, the first of two labels.
fn push_module(text: &mut Vec<u8>, label: &Label) -> Result<(), NoMemory>
    ensures { OnOk result
        (text.new.items ≡ text.old.items ++ (codes "{" ++ pair_text (label_pair label.now))) }
{
    text.push(b'{')?;
    push_pair(text, b"label", label_word(label))
}

// Adds a class, the last of two labels.
fn push_class(text: &mut Vec<u8>, class: ItemClass) -> Result<(), NoMemory>
    ensures { OnOk result (text.new.items
        ≡ text.old.items ++ (codes "," ++ pair_text (class_pair class) ++ codes "}")) }
{
    text.push(b',')?;
    push_pair(text, b"class", class_word(class))?;
    text.push(b'}')?;
    Ok(())
}

// Adds how many pages are in each state.
fn push_pages(text: &mut Vec<u8>, account: &Account) -> Result<(), NoMemory>
    ensures { OnOk result (text.new.items ≡ text.old.items
        ++ flat_map sample_text (samples_of Metric.Pages account.now.state)) }
{
    push_page_count(text, PageState::Soft, account)?;
    push_page_count(text, PageState::Hard, account)?;
    push_page_count(text, PageState::Kept, account)
}

// Adds how many pages are in a state.
fn push_page_count(text: &mut Vec<u8>, state: PageState, account: &Account) -> Result<(), NoMemory>
    ensures { OnOk result (text.new.items
        ≡ text.old.items ++ sample_text (page_sample account.now.state.pages state)) }
{
    let count = pages_in(account, state);
    push_labeled(text, Metric::Pages, b"state", state_word(state), count)
}

// Returns how many pages are in a state.
fn pages_in(account: &Account, state: PageState) -> u64
    ensures { result ≡ count_by (is_page_in state) account.now.state.pages }
{
    let pages = account.pages();
    let mut count = 0;
    for i in 0..pages.len() {
        let (_, _, found) = pages.row(i);
        if is_same(found, state) {
            count += 1;
        }
    }
    count
}

// Returns whether two states are the same.
fn is_same(found: PageState, state: PageState) -> bool
    ensures { result ≡ nat_eq (height state) (height found) }
{
    match (found, state) {
        (PageState::Kept, PageState::Kept)
        | (PageState::Soft, PageState::Soft)
        | (PageState::Hard, PageState::Hard) => true,
        _ => false,
    }
}

// Adds whether each module that has a bucket is to be replaced.
fn push_replaces(text: &mut Vec<u8>, account: &Account) -> Result<(), NoMemory>
    ensures { OnOk result (text.new.items ≡ text.old.items
        ++ flat_map sample_text (samples_of Metric.ModuleReplace account.now.state)) }
{
    for i in 0..account.modules_len() {
        push_replace(text, account.module(i))?;
    }
    Ok(())
}

// Adds whether a module is to be replaced, if it has a bucket.
fn push_replace(text: &mut Vec<u8>, row: &ModuleRow) -> Result<(), NoMemory>
    ensures { OnOk result (text.new.items
        ≡ text.old.items ++ flat_map sample_text (replace_samples (row_of row.now))) }
{
    match row.bucket {
        None => Ok(()),
        Some(_) => push_labeled(
            text,
            Metric::ModuleReplace,
            b"label",
            label_word(&row.label),
            number_of(row.replace),
        ),
    }
}

// Returns 1 for true, 0 for false.
fn number_of(is_so: bool) -> u64
    ensures { result ≡ (if is_so then 1 else 0) }
{
    if is_so { 1 } else { 0 }
}

// Adds the number of errors in the bucket of each module.
fn push_buckets(text: &mut Vec<u8>, account: &Account) -> Result<(), NoMemory>
    ensures { OnOk result (text.new.items ≡ text.old.items
        ++ flat_map sample_text (samples_of Metric.ModuleBucket account.now.state)) }
{
    for i in 0..account.modules_len() {
        push_bucket(text, account.module(i))?;
    }
    Ok(())
}

// Adds the number of errors in the bucket of a module, if it has a bucket.
fn push_bucket(text: &mut Vec<u8>, row: &ModuleRow) -> Result<(), NoMemory>
    ensures { OnOk result (text.new.items
        ≡ text.old.items ++ flat_map sample_text (bucket_samples (row_of row.now))) }
{
    match row.bucket {
        None => Ok(()),
        Some(bucket) => push_labeled(
            text,
            Metric::ModuleBucket,
            b"label",
            label_word(&row.label),
            u64::from(bucket.count),
        ),
    }
}

// Adds a sample with one label.
fn push_labeled(
    text: &mut Vec<u8>,
    metric: Metric,
    label: &[u8],
    value: &[u8],
    number: u64,
) -> Result<(), NoMemory>
    ensures { OnOk result (text.new.items ≡ text.old.items
        ++ sample_text (sample_of metric ((label.now, value.now) ∷ []) number)) }
{
    text.extend_from_slice(name_word(metric))?;
    text.push(b'{')?;
    push_pair(text, label, value)?;
    text.push(b'}')?;
    push_value(text, number)
}

// Adds a sample without labels.
fn push_plain(text: &mut Vec<u8>, metric: Metric, number: u64) -> Result<(), NoMemory>
    ensures { OnOk result
        (text.new.items ≡ text.old.items ++ sample_text (sample_of metric [] number)) }
{
    text.extend_from_slice(name_word(metric))?;
    push_value(text, number)
}

// Adds the number of a sample, which ends its line.
fn push_value(text: &mut Vec<u8>, number: u64) -> Result<(), NoMemory>
    ensures { OnOk result
        (text.new.items ≡ text.old.items ++ line_with (codes " " ++ decimal number)) }
{
    text.push(b' ')?;
    push_number(text, number)?;
    text.push(b'\n')?;
    Ok(())
}

// Adds a label with its value.
fn push_pair(text: &mut Vec<u8>, label: &[u8], value: &[u8]) -> Result<(), NoMemory>
    ensures { OnOk result (text.new.items ≡ text.old.items ++ pair_text (label.now, value.now)) }
{
    text.extend_from_slice(label)?;
    text.extend_from_slice(b"=\"")?;
    push_escaped(text, value)?;
    text.push(b'"')?;
    Ok(())
}

// Adds the value of a label.
fn push_escaped(text: &mut Vec<u8>, value: &[u8]) -> Result<(), NoMemory>
    ensures { OnOk result (text.new.items ≡ text.old.items ++ flat_map escape value.now) }
{
    for i in 0..value.len() {
        push_sign(text, value[i])?;
    }
    Ok(())
}

// Adds a byte of a label's value.
fn push_sign(text: &mut Vec<u8>, sign: u8) -> Result<(), NoMemory>
    ensures { OnOk result (text.new.items ≡ text.old.items ++ escape sign) }
{
    if sign == b'"' || sign == b'\\' {
        text.push(b'\\')?;
    }
    text.push(sign)?;
    Ok(())
}

// Returns the name of a metric.
fn name_word(metric: Metric) -> &'static [u8]
    ensures { result.now ≡ name_of metric }
{
    match metric {
        Metric::ErrorsTotal => b"rasd_errors_total",
        Metric::Pages => b"rasd_pages",
        Metric::ModuleReplace => b"rasd_module_replace",
        Metric::ModuleBucket => b"rasd_module_bucket_errors",
        Metric::ModuleBucketLimit => b"rasd_module_bucket_limit",
        Metric::Names => b"rasd_names",
        Metric::NamesLimit => b"rasd_names_limit",
        Metric::EntriesTotal => b"rasd_entries_total",
        Metric::BootFloor => b"rasd_boot_floor",
        Metric::BuildInfo => b"rasd_build_info",
    }
}

// Returns how a metric changes.
fn kind_word(metric: Metric) -> &'static [u8]
    ensures { result.now ≡ kind_text metric }
{
    match metric {
        Metric::ErrorsTotal | Metric::EntriesTotal => b"counter",
        _ => b"gauge",
    }
}

// Returns what a metric is.
fn help_word(metric: Metric) -> &'static [u8]
    ensures { result.now ≡ help_of metric }
{
    match metric {
        Metric::ErrorsTotal => b"Errors by their module and class, each by its weight.",
        Metric::Pages => b"Pages with errors by their state: soft and hard are ordered out of use.",
        Metric::ModuleReplace => b"1 if the module is to be replaced.",
        Metric::ModuleBucket => b"Corrected errors in the bucket of the module.",
        Metric::ModuleBucketLimit => {
            b"Corrected errors in a bucket at which its module is to be replaced."
        }
        Metric::Names => b"Names of errors that are known.",
        Metric::NamesLimit => b"The most names that can be known.",
        Metric::EntriesTotal => b"Entries of the account: new errors, limits and retired boots.",
        Metric::BootFloor => b"The boot below which all boots are retired.",
        Metric::BuildInfo => b"1, with the version of the program.",
    }
}

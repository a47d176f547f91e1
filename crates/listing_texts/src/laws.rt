//! The metrics of an account, stated without following their definitions.

ghost use Rattle.std.specs.Prelude.{◌≡◌, ◌↔◌, [], ◌∷◌, Contains, Some};
ghost use Rattle.ras_account.specs.Account.{State, account_of};
ghost use Rattle.ras_account.specs.Accounts.{IsAccount};
ghost use Rattle.ras_account.specs.History.{History};
ghost use Rattle.listing_texts.specs.Metrics.{IsErrorSample, Sample, all_samples, metrics_text};
ghost use Rattle.listing_texts.specs.Metrics.{sample_text, samples_of};
ghost use Rattle.listing_texts.specs.MetricsReader.{IsSample, read_samples};

use crate::metrics::Metric;

/// The laws of the metrics of an account.
pub fn metrics_laws()
    // A parser of the format, which knows nothing of accounts, finds in the text exactly the
    // samples, each with its name, its labels and its number. No label can forge one.
    ensures read { (a : State) → IsAccount a
        → read_samples (metrics_text a) ≡ Some (all_samples a) }
    // The same parser finds the sample in each line.
    ensures line { (s : Sample) → IsSample s → read_samples (sample_text s) ≡ Some (s ∷ []) }

    // The error samples are the counts of the history, for each module in it and each class; there
    // are no others.
    ensures errors { (history : History) (s : Sample)
        → Contains (samples_of Metric.ErrorsTotal (account_of history)) s
        ↔ IsErrorSample history s }
{}

//! The arguments of a job, which all subcommands share.

ghost use Rattle.std.specs.Prelude.{◌≡◌, Bool, MatchOption, codes, option_map};
ghost use Rattle.clap.specs.Words.{App, found_of, rows_of};
ghost use Rattle.hyperball.specs.CommandLine.{TakesNames, delimiter_names, estimate_names};
ghost use Rattle.hyperball.specs.CommandLine.{with_arguments, with_job};
ghost use Rattle.hyperball.specs.Words.{AreJobOptionsOf, IsFlag, delimiter_name, estimate_name};

use crate::cli::arguments::{Argument, flag, option};
use ball_model::Estimate;
use ball_model::plan::GREATEST_LIMIT;
use clap::builder::ValueParser;
use clap::{ArgMatches, value_parser};
use edgelist::Delimiter;
use job::{JobInput, JobOptions};

/// The names that `--delimiter` takes.
static DELIMITERS: [&str; 3] = ["tab", "comma", "space"];

/// The names that `--estimate` takes.
static ESTIMATES: [&str; 2] = ["raw", "corrected"];

const LOG2M_HELP: &str =
    "Counters of 2^log2m bytes, 4 to 10; error about 1.04/sqrt(2^log2m) [default: 8]";

const SEED_HELP: &str = "Seed under which vertices are hashed [default: 0]";

const LIMIT_HELP: &str =
    "Greatest superstep, 1 to 4096; a run ends sooner if nothing changes [default: 4096]";

const ESTIMATE_HELP: &str =
    "raw: HyperLogLog's own formula, far too large for small sets; corrected: near the true size [default: raw]";

const DELIMITER_HELP: &str = "What is between the two fields of a line [default: tab]";

const COUNTED_HELP: &str =
    "Count only the vertices listed after the edge list and a line %%: how near are they?";

/// The help of `--parts`, if it is no hint on how many cores a run takes.
pub(crate) const PARTS_HELP: &str =
    "Partitions that vertices are dealt out to, 1 to 64 [default: 1]";

/// The options that are not given: counters of 256 bytes, seed 0, one partition, the greatest limit, raw estimates, tabs, and
/// as many threads as there are processors.
pub(crate) const USUAL: JobOptions = JobOptions {
    log2m: 8,
    seed: 0,
    parts: 1,
    limit: GREATEST_LIMIT,
    estimate: Estimate::Raw,
    delimiter: Delimiter::Tab,
    large: false,
    threads: 0,
};

/// One of the names of the ways to make estimates.
pub(crate) fn estimates<'a>() -> ValueParser<'a>
    ensures { TakesNames estimate_names result }
{
    ValueParser::Names(ESTIMATES.as_slice())
}

/// One of the names of the delimiters.
pub(crate) fn delimiters<'a>() -> ValueParser<'a>
    ensures { TakesNames delimiter_names result }
{
    ValueParser::Names(DELIMITERS.as_slice())
}

/// The arguments of a job, with the help of `--parts` and with parsers of estimates and of delimiters.
pub(crate) fn job_arguments<'a>(
    parts_help: &'a str,
    estimates: ValueParser<'a>,
    delimiters: ValueParser<'a>,
) -> [Argument<'a>; 7]
    ensures { (app : App) → with_arguments result app ≡
        with_job (record { estimates = estimates.entry; delimiters = delimiters.entry }) app }
{
    [
        option("log2m", LOG2M_HELP, value_parser!(u8)),
        option("seed", SEED_HELP, value_parser!(u64)),
        option("parts", parts_help, value_parser!(u16)),
        option("limit", LIMIT_HELP, value_parser!(u32)),
        option("estimate", ESTIMATE_HELP, estimates),
        option("delimiter", DELIMITER_HELP, delimiters),
        flag("counted", COUNTED_HELP),
    ]
}

/// The delimiter of that name; if none is given it is the usual one.
pub(crate) fn delimiter_of(name: Option<&str>) -> Delimiter
    ensures { (d : Delimiter) → MatchOption (option_map (λ name. name.now) name.entry)
        (d ≡ Delimiter.Tab) (λ name. name ≡ delimiter_name d) → result ≡ d }
{
    match name {
        Some("comma") => Delimiter::Comma,
        Some("space") => Delimiter::Space,
        _ => USUAL.delimiter,
    }
}

/// The way to make estimates of that name; if none is given it is the usual one.
pub(crate) fn estimate_of(name: Option<&str>) -> Estimate
    ensures { (e : Estimate) → MatchOption (option_map (λ name. name.now) name.entry)
        (e ≡ Estimate.Raw) (λ name. name ≡ estimate_name e) → result ≡ e }
{
    match name {
        Some("corrected") => Estimate::Corrected,
        _ => USUAL.estimate,
    }
}

/// What arguments, as `clap` has checked them, ask of a job: over a large edge list or a usual one, by `threads` threads.
pub(crate) fn job_input_of(matches: &ArgMatches<'_>, large: bool, threads: u16) -> JobInput
    ensures { (job : JobInput) → AreJobOptionsOf (rows_of (found_of matches.now)) job →
        large ≡ job.options.large → threads ≡ job.options.threads → result ≡ job }
{
    let options = JobOptions {
        log2m: matches.get_one("log2m").unwrap_or(USUAL.log2m),
        seed: matches.get_one("seed").unwrap_or(USUAL.seed),
        parts: matches.get_one("parts").unwrap_or(USUAL.parts),
        limit: matches.get_one("limit").unwrap_or(USUAL.limit),
        estimate: estimate_of(matches.get_str("estimate")),
        delimiter: delimiter_of(matches.get_str("delimiter")),
        large,
        threads,
    };
    JobInput {
        options,
        counted: matches.get_flag("counted"),
    }
}

/// Whether a large edge list is taken.
pub(crate) fn wants_large(matches: &ArgMatches<'_>) -> bool
    ensures { (b : Bool) → IsFlag (rows_of (found_of matches.now)) (codes "large") b → result ≡ b }
{
    matches.get_flag("large")
}

/// Whether progress is to be reported.
pub(crate) fn wants_progress(matches: &ArgMatches<'_>) -> bool
    ensures { (b : Bool) → IsFlag (rows_of (found_of matches.now)) (codes "progress") b →
        result ≡ b }
{
    matches.get_flag("progress")
}

//! The values of options that have limits.
ghost use Rattle.std.specs.Prelude.{◌≡◌, ◌≤◌, codes, IfErr, IfOk, IfSome, true};
ghost use Rattle.clap.specs.Words.{found_of, rows_of};
ghost use Rattle.exec_options.specs.Arguments.{IsWithin, is_absolute, text_or};
ghost use Rattle.exec_options.specs.Faults.{HasFlaw};
ghost use Rattle.exec_options.specs.declared.table.TheConstants.{ROOT};
ghost use Rattle.ocf_types.specs.Limits.{part_limit};
ghost use Rattle.ocf_types.specs.declared.limits.TheConstants.{NUM_MAX, ORPHANS_LIMIT};

use crate::fault::BadValue;
use crate::options::{Color, Since};
use crate::resources::Resources;
use crate::rows::{text_of, texts_of};
use crate::table::{ORPHANS, ROOT, TIDY_AT, TIMEOUT};
use crate::times::since_of;
use clap::ArgMatches;
use ocf_types::{Level, NUM_MAX, ORPHANS_LIMIT, PART_LIMIT};

/// The most seconds of `--watch`: a day.
pub const LONGEST_WATCH: u64 = 86_400;

// The number that a text denotes, if it lies within these limits.
fn number_in(least: u64, most: u64, text: &str) -> Option<u64>
    ensures within { IfSome result (IsWithin least most) }
{
    match text.parse::<u64>() {
        Ok(number) if least <= number && number <= most => Some(number),
        _ => None,
    }
}

/// The number of bytes above which the journal is tidied.
pub fn tidy_at(matches: &ArgMatches<'_>) -> Result<u64, BadValue>
    ensures within { IfOk result (λ n. n ≤ part_limit) }
    ensures fault { IfErr result (HasFlaw (rows_of (found_of matches.now))) }
{
    match number_in(
        0,
        PART_LIMIT,
        text_of(matches, "tidy-at").unwrap_or(TIDY_AT),
    ) {
        Some(bytes) => Ok(bytes),
        None => Err(BadValue::TidyAt),
    }
}

/// The longest wait for what an interrupted action left, in milliseconds.
pub fn orphans(matches: &ArgMatches<'_>) -> Result<u64, BadValue>
    ensures within { IfOk result (λ n. n ≤ ORPHANS_LIMIT) }
    ensures fault { IfErr result (HasFlaw (rows_of (found_of matches.now))) }
{
    match number_in(
        0,
        ORPHANS_LIMIT,
        text_of(matches, "orphans").unwrap_or(ORPHANS),
    ) {
        Some(millis) => Ok(millis),
        None => Err(BadValue::Orphans),
    }
}

/// The timeout of an action that is run once, in milliseconds.
pub fn timeout(matches: &ArgMatches<'_>) -> Result<u32, BadValue>
    ensures within { IfOk result (λ n. 1 ≤ n) }
    ensures fault { IfErr result (HasFlaw (rows_of (found_of matches.now))) }
{
    let text = text_of(matches, "timeout").unwrap_or(TIMEOUT);
    match number_in(1, 4_294_967_295, text) {
        Some(millis) => Ok(millis as u32),
        None => Err(BadValue::Timeout),
    }
}

/// How many records are printed at most.
pub fn last(matches: &ArgMatches<'_>) -> Result<Option<u64>, BadValue>
    ensures within { IfOk result (λ o. IfSome o (λ n. n ≤ NUM_MAX)) }
    ensures fault { IfErr result (HasFlaw (rows_of (found_of matches.now))) }
{
    match text_of(matches, "last") {
        None => Ok(None),
        Some(text) => match number_in(0, NUM_MAX, text) {
            Some(number) => Ok(Some(number)),
            None => Err(BadValue::Last),
        },
    }
}

/// After how many seconds the status is printed anew.
pub fn watch(matches: &ArgMatches<'_>) -> Result<Option<u64>, BadValue>
    ensures within { IfOk result (λ o. IfSome o (IsWithin 1 LONGEST_WATCH)) }
    ensures fault { IfErr result (HasFlaw (rows_of (found_of matches.now))) }
{
    match text_of(matches, "watch") {
        None => Ok(None),
        Some(text) => match number_in(1, LONGEST_WATCH, text) {
            Some(seconds) => Ok(Some(seconds)),
            None => Err(BadValue::Watch),
        },
    }
}

/// The depth of a monitor.
pub fn level(matches: &ArgMatches<'_>) -> Result<Option<Level>, BadValue>
    ensures fault { IfErr result (HasFlaw (rows_of (found_of matches.now))) }
{
    let Some(text) = text_of(matches, "level") else {
        return Ok(None);
    };
    let Some(number) = number_in(0, 20, text) else {
        return Err(BadValue::Level);
    };
    match Level::numbered(number) {
        Some(level) => Ok(Some(level)),
        None => Err(BadValue::Level),
    }
}

// Whether a path begins at the root directory.
fn is_absolute(path: &str) -> bool
    ensures { result ≡ is_absolute path.now }
{
    match path.as_bytes().first() {
        Some(byte) => *byte == b'/',
        None => false,
    }
}

/// The directory of the agents.
pub fn root<'a>(matches: &ArgMatches<'a>) -> Result<&'a str, BadValue>
    ensures path { IfOk result
        (λ p. p.now ≡ text_or (codes "root") ROOT.now (rows_of (found_of matches.now))) }
    ensures absolute { IfOk result (λ p. is_absolute p.now ≡ true) }
    ensures fault { IfErr result (HasFlaw (rows_of (found_of matches.now))) }
{
    let path = text_of(matches, "root").unwrap_or(ROOT);
    if is_absolute(path) {
        Ok(path)
    } else {
        Err(BadValue::Root)
    }
}

/// The moment from which on records are printed.
pub fn since(matches: &ArgMatches<'_>) -> Result<Since, BadValue>
    ensures fault { IfErr result (HasFlaw (rows_of (found_of matches.now))) }
{
    match text_of(matches, "since") {
        None => Ok(Since::Moment(0)),
        Some(text) => match since_of(text) {
            Some(since) => Ok(since),
            None => Err(BadValue::Since),
        },
    }
}

/// The moment up to which records are printed.
pub fn until(matches: &ArgMatches<'_>) -> Result<Since, BadValue>
    ensures fault { IfErr result (HasFlaw (rows_of (found_of matches.now))) }
{
    match text_of(matches, "until") {
        None => Ok(Since::Moment(NUM_MAX)),
        Some(text) => match since_of(text) {
            Some(until) => Ok(until),
            None => Err(BadValue::Until),
        },
    }
}

/// Where colours are used.
pub fn color(matches: &ArgMatches<'_>) -> Result<Color, BadValue>
    ensures fault { IfErr result (HasFlaw (rows_of (found_of matches.now))) }
{
    match text_of(matches, "color") {
        None => Ok(Color::Auto),
        Some(word) => match Color::of(word) {
            Some(color) => Ok(color),
            None => Err(BadValue::Color),
        },
    }
}

/// The resources that are printed.
pub fn resources<'a>(matches: &ArgMatches<'a>) -> Result<Resources<'a>, BadValue>
    ensures fault { IfErr result (HasFlaw (rows_of (found_of matches.now))) }
{
    match texts_of(matches, "resource") {
        None => Ok(Resources::all()),
        Some(texts) => match Resources::of(texts) {
            Some(resources) => Ok(resources),
            None => Err(BadValue::Resources),
        },
    }
}

//! The texts of arguments, as `clap` has read them.
ghost use Rattle.std.specs.Prelude.{◌≡◌, map, option_map};
ghost use Rattle.clap.specs.Words.{all_of, first_of, rows_of, found_of};
ghost use Rattle.exec_options.specs.Arguments.{is_set};

use clap::ArgMatches;

/// The text of this argument.
pub fn text_of<'a>(matches: &ArgMatches<'a>, name: &str) -> Option<&'a str>
    ensures { option_map (λ s. s.now) result ≡ first_of name.now (rows_of (found_of matches.now)) }
{
    matches.get_str(name)
}

/// Whether this flag is given.
pub fn is_set(matches: &ArgMatches<'_>, name: &str) -> bool
    ensures { result ≡ is_set name.now (rows_of (found_of matches.now)) }
{
    match text_of(matches, name) {
        Some(text) => text == "true",
        None => false,
    }
}

/// All texts of this argument, if it is given.
pub fn texts_of<'a, 'm>(matches: &'m ArgMatches<'a>, name: &str) -> Option<&'m [&'a str]>
    ensures { option_map (λ texts. map (λ s. s.now) texts.now) result
        ≡ all_of name.now (rows_of (found_of matches.now)) }
{
    matches.get_raw(name)
}

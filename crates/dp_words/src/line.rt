// The options of a line, tested and read.
ghost use Rattle.std.specs.Prelude.{◌≡◌, ◌≤◌, IfSome, is_some, map, option_and_then, true, unwrap_or};
ghost use Rattle.std.specs.List.{list_all, list_any};
ghost use Rattle.std.specs.Option.{option_map_or};
ghost use Rattle.std.specs.Str.{bytes_eq};
ghost use Rattle.std.specs.Str.Parse.{digits_value};
ghost use Rattle.dp_words.specs.Words.{fits, holds, is_allowed, number_option, order_of, order_option};
ghost use Rattle.dp_words.specs.Command.{merging_off, setting_of, values_of};

use crate::job::OrderWord;
use crate::number::number;
use crate::parse::OPTIONS;
use clap::ArgMatches;

/// An option whose value is a number: its range, and its default where it has one.
#[derive(Clone, Copy)]
pub struct Setting {
    pub name: &'static str,
    pub least: u64,
    pub most: u64,
    pub default: Option<u64>,
}

// Whether the option's value is in its range, where it is given.
fn holds(given: &ArgMatches<'_>, setting: Setting) -> bool
    ensures { result ≡ holds (values_of given.now) (number_option (setting_of setting)) }
{
    match given.get_str(setting.name) {
        Some(text) => number(text, setting.least, setting.most).is_some(),
        None => true,
    }
}

// Whether each option's value is in its range, where it is given.
pub fn all_hold(given: &ArgMatches<'_>, settings: &[Setting]) -> bool
    ensures { result ≡ list_all (holds (values_of given.now))
        (map (λ s. number_option (setting_of s)) settings.now) }
{
    for setting in settings {
        if !holds(given, *setting) {
            return false;
        }
    }
    true
}

// Whether each option of these names is given.
fn all_given(given: &ArgMatches<'_>, names: &[&str]) -> bool
    ensures { result ≡ list_all (λ name. is_some (values_of given.now name)) (map (λ name. name.now) names.now) }
{
    for name in names {
        if given.get_str(name).is_none() {
            return false;
        }
    }
    true
}

// Whether merging was turned off.
pub fn merging_off(given: &ArgMatches<'_>) -> bool
    ensures { result ≡ merging_off given.now }
{
    match given.get_str("no-merge") {
        Some(text) => text == "true",
        None => false,
    }
}

// Whether the name is one of these.
fn is_among(names: &[&str], name: &str) -> bool
    ensures { result ≡ list_any (λ n. bytes_eq n name.now) (map (λ n. n.now) names.now) }
{
    for known in names {
        if *known == name {
            return true;
        }
    }
    false
}

// Whether each of the options is allowed or is not given.
fn all_allowed(given: &ArgMatches<'_>, allowed: &[&str], options: &[&str]) -> bool
    ensures { result ≡ list_all (is_allowed (map (λ n. n.now) allowed.now) (values_of given.now))
        (map (λ n. n.now) options.now) }
{
    for name in options {
        if !is_among(allowed, name) && given.get_str(name).is_some() {
            return false;
        }
    }
    true
}

// Whether the options are those of a command, with those that it requires.
pub fn fits(given: &ArgMatches<'_>, options: &[&str], required: &[&str]) -> bool
    ensures { result ≡ fits (map (λ n. n.now) options.now) (map (λ n. n.now) required.now)
        (values_of given.now) (merging_off given.now) }
{
    if !all_allowed(given, options, OPTIONS.as_slice()) {
        return false;
    }
    if merging_off(given) && !is_among(options, "no-merge") {
        return false;
    }
    all_given(given, required)
}

// The number of an option, where it is in its range or not given.
pub fn value_of(given: &ArgMatches<'_>, setting: Setting) -> u64
    requires holds { holds (values_of given.now) (number_option (setting_of setting)) ≡ true }
    requires default_limit { IfSome setting.default (λ default. default ≤ setting.most) }
    ensures value { result ≡ option_map_or (digits_value 10) (values_of given.now setting.name.now)
        (unwrap_or setting.default 0) }
    ensures limit { result ≤ setting.most }
{
    match given.get_str(setting.name) {
        Some(text) => number(text, setting.least, setting.most).unwrap_or(0),
        None => setting.default.unwrap_or(0),
    }
}

// The order that a word names.
fn order_named(word: &str) -> Option<OrderWord>
    ensures { result ≡ order_of word.now }
{
    match word {
        "first" => Some(OrderWord::First),
        "heavy" => Some(OrderWord::Heavy),
        "spread" => Some(OrderWord::Spread),
        _ => None,
    }
}

// Whether the order is one, where it is given.
pub fn order_holds(given: &ArgMatches<'_>) -> bool
    ensures { result ≡ holds (values_of given.now) order_option }
{
    match given.get_str("order") {
        Some(text) => order_named(text).is_some(),
        None => true,
    }
}

// The order, the first place where none is given.
pub fn order(given: &ArgMatches<'_>) -> OrderWord
    ensures { result ≡ unwrap_or (option_and_then order_of (values_of given.now order_option.name)) OrderWord.First }
{
    match given.get_str("order") {
        Some(text) => order_named(text).unwrap_or(OrderWord::First),
        None => OrderWord::First,
    }
}

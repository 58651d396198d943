//! `cpgring admit`: its files and its words.
//!
//! Proved: which options name which files, whom the words ask for, and how it is answered.

ghost use Rattle.std.specs.Prelude.{◌≡◌, map, option_map};
ghost use Rattle.clap.specs.Words.{found_of, first_value};
ghost use Rattle.cpgring.specs.Admitting.{words_asked, AreFilesGiven, AreAdmitOptionsGiven};

use crate::asking::{form_of, is_verbose};
use crate::options::{ASKS, CONF, ECHO, GROUP, NAMES, PASSWD};
use clap::ArgMatches;
use cpg_console::AdmitOptions;

/// The paths of the files, as they were given.
#[derive(Clone, Copy)]
pub struct Files<'a> {
    pub confs: &'a [&'a str],
    pub names: Option<&'a str>,
    pub passwd: Option<&'a str>,
    pub group: Option<&'a str>,
}

/// The files that the options name.
pub fn files_of<'a>(given: &'a ArgMatches<'_>) -> Files<'a>
    ensures { AreFilesGiven (found_of given.now) result }
{
    Files {
        confs: given.get_strs(CONF).unwrap_or(&[]),
        names: given.get_str(NAMES),
        passwd: given.get_str(PASSWD),
        group: given.get_str(GROUP),
    }
}

/// The words that ask, UID:GID.
pub fn asks_of<'a>(given: &'a ArgMatches<'_>) -> &'a [&'a str]
    ensures { map (λ word. word.now) result.now ≡ words_asked (found_of given.now) }
{
    given.get_strs(ASKS).unwrap_or(&[])
}

/// How it is answered.
pub fn admit_options_of(given: &ArgMatches<'_>) -> AdmitOptions
    ensures { AreAdmitOptionsGiven (found_of given.now) result }
{
    AdmitOptions {
        form: form_of(given),
        echo: given.get_flag(ECHO),
        hints: is_verbose(given),
    }
}

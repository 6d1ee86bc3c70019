// The lines of the table of functions: its rows, with the calls that they take.
ghost use Rattle.std.specs.Prelude.{◌≡◌, map};
ghost use Rattle.std.specs.List.{list_all};
ghost use Rattle.func_table.specs.Entry as spec;
ghost use Rattle.func_table.specs.Seen.{entry_seen, arguments_seen};

use crate::kinds::{is_equal, is_same, short_name};
use crate::row::{Class, Row};
use crate::text::is_text;
use sub_types::Kind;

/// The arguments of a function, by the short names of their kinds.
#[derive(Clone, Copy, Debug)]
pub(crate) enum Params {
    Each(&'static [&'static str]),
    AnyNumber(&'static str),
    OneOrMore(&'static str),
}

/// What the kinds of the arguments have in common.
#[derive(Clone, Copy, Debug)]
pub(crate) enum Alike {
    Free,
    /// They are equal, but for the precision of decimals.
    Same,
    Equal,
}

/// A row with the calls that it takes.
#[derive(Clone, Copy, Debug)]
pub(crate) struct Line {
    pub file: &'static str,
    pub class: Class,
    pub params: Params,
    pub alike: Alike,
    pub row: Row,
}

impl Line {
    /// Whether the line is of the function of this file, name and class.
    pub(crate) fn is_named(&self, file: &[u8], name: &[u8], class: Class) -> bool
        ensures { result ≡ spec.is_named file.now name.now class (entry_seen self.now) }
    {
        // Names tell more lines apart than files do.
        is_text(self.row.name, name) && is_text(self.file, file) && self.class == class
    }

    /// Whether the line is of that function, and takes arguments of these kinds.
    pub(crate) fn fits(&self, file: &[u8], name: &[u8], kinds: &[Kind], class: Class) -> bool
        ensures { result ≡ spec.fits file.now name.now kinds.now class (entry_seen self.now) }
    {
        self.is_named(file, name, class) && self.params.take(kinds) && self.alike.all_agree(kinds)
    }
}

impl Params {
    fn take(self, kinds: &[Kind]) -> bool
        ensures { result ≡ spec.takes_kinds (arguments_seen self) kinds.now }
    {
        match self {
            Params::Each(names) => each_takes(names, kinds),
            Params::AnyNumber(name) => takes_all(name, kinds),
            Params::OneOrMore(name) => !kinds.is_empty() && takes_all(name, kinds),
        }
    }
}

fn each_takes(names: &[&str], kinds: &[Kind]) -> bool
    ensures { result ≡ spec.takes_kinds (spec.Each (map (λ name. name.now) names.now)) kinds.now }
{
    names.len() == kinds.len()
        && names
            .iter()
            .zip(kinds)
            .all(|(name, kind)| takes_kind(name, *kind))
}

fn takes_all(name: &str, kinds: &[Kind]) -> bool
    ensures { result ≡ list_all (spec.takes_kind name.now) kinds.now }
{
    kinds.iter().all(|kind| takes_kind(name, *kind))
}

fn takes_kind(name: &str, kind: Kind) -> bool
    ensures { result ≡ spec.takes_kind name.now kind }
{
    name == "any" || name == short_name(kind)
}

impl Alike {
    fn all_agree(self, kinds: &[Kind]) -> bool
        ensures { result ≡ spec.all_agree self kinds.now }
    {
        match kinds.split_first() {
            None => true,
            Some((first, rest)) => self.agrees_with_all(*first, rest),
        }
    }

    fn agrees_with_all(self, first: Kind, rest: &[Kind]) -> bool
        ensures { result ≡ list_all (spec.agree self first) rest.now }
    {
        rest.iter().all(|kind| self.agree(first, *kind))
    }

    fn agree(self, a: Kind, b: Kind) -> bool
        ensures { result ≡ spec.agree self a b }
    {
        match self {
            Alike::Free => true,
            Alike::Same => is_same(a, b),
            Alike::Equal => is_equal(a, b),
        }
    }
}

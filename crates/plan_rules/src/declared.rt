// The functions that a plan declares (Substrait `SimpleExtensionURI` and `SimpleExtensionDeclaration`), by their anchors.
ghost use Rattle.std.specs.Prelude.{◌≡◌, map, IfOk};
ghost use Rattle.std.specs.List.{before_first, after_last};
ghost use Rattle.std.specs.Option.{option_map};
ghost use Rattle.plan_verdict.specs.Calls as spec;
ghost use Rattle.plan_verdict.specs.Checking.{Agrees};
ghost use Rattle.plan_rules.specs.Index.{named_seen, found_seen, result_seen, is_of, entry_of, entry_at, entry_from, IsFiles, IsFound};

use crate::refusal::refuse;
use func_table::{Class, has_name_bytes};
use plan_leaves::{FunDecl, UriDecl};
use plan_verdict::{CheckError, Rule};
use std::alloc::Global;
use std::collections::BTreeMap;
use std::marker::Model;
use sub_types::NoMemory;

/// A function as a call names it: its file, its name, and the whole name under which it is declared.
#[derive(Clone, Copy, Debug)]
pub struct Named<'a> {
    pub file: &'a [u8],
    pub name: &'a [u8],
    pub declared: &'a [u8],
}

/// A declared function, and of which classes the table has functions of its file and name.
#[derive(Clone, Copy)]
struct Found<'a> {
    named: Named<'a>,
    is_scalar: bool,
    is_aggregate: bool,
}

/// The declarations of a plan, found by their anchors: the first of an anchor counts.
#[derive(Drop)]
pub struct Declarations<'a> {
    uris: &'a [UriDecl],
    functions: &'a [FunDecl],
    /// None where the function's file isn't declared.
    found: BTreeMap<u32, Option<Found<'a>>>,
}

impl<'a> Model for Declarations<'a> {
    ghost use Rattle.plan_verdict.specs.Calls.{Declared};

    ghost Value = { Declared };

    ghost use Rattle.plan_rules.specs.Index.{IsIndex};

    ghost view = { λ made. record { uris = made.uris.now; functions = made.functions.now } };

    ghost invariant = { λ made. IsIndex made.uris.now made.functions.now made.found };
}

impl<'a> Declarations<'a> {
    /// The declarations of these files and functions.
    pub fn new(
        alloc: Global,
        uris: &'a [UriDecl],
        functions: &'a [FunDecl],
    ) -> Result<Declarations<'a>, NoMemory>
        ensures { IfOk result (λ made. made ≡ record { uris = uris.now; functions = functions.now }) }
    {
        let files = files_by_anchor(alloc, uris)?;
        let found = found_by_anchor(alloc, &files, functions)?;
        Ok(Declarations {
            uris,
            functions,
            found,
        })
    }

    /// The function that a call refers to, or the refusal of one that isn't declared or that the table hasn't in this
    /// class; the call stands in the relation with this number.
    pub fn named_in(
        &self,
        relation: u32,
        class: Class,
        reference: u32,
    ) -> Result<Named<'a>, CheckError>
        ensures { Agrees (result_seen named_seen result) relation (spec.named_in self.now class reference) }
    {
        let Some(found) = self.found_at(reference) else {
            return refuse(relation, Rule::UnknownFunction);
        };
        if !found.is_of(class) {
            return refuse(relation, Rule::UnknownFunction);
        }
        Ok(found.named)
    }

    /// The function with this anchor, if its file is declared.
    fn found_at(&self, anchor: u32) -> Option<Found<'a>>
        ensures { option_map found_seen result ≡ entry_at self.now anchor }
    {
        match self.found.get(&anchor) {
            Some(found) => *found,
            None => None,
        }
    }
}

impl Found<'_> {
    fn is_of(&self, class: Class) -> bool
        ensures { result ≡ is_of class (found_seen self.now) }
    {
        match class {
            Class::Scalar => self.is_scalar,
            Class::Aggregate => self.is_aggregate,
        }
    }
}

/// The names of files, by the anchors of their URIs.
fn files_by_anchor<'a>(
    alloc: Global,
    uris: &'a [UriDecl],
) -> Result<BTreeMap<u32, &'a [u8]>, NoMemory>
    ensures { IfOk result (IsFiles uris.now) }
{
    let mut files = BTreeMap::new(alloc);
    // The first of an anchor is the last that is put in.
    for i in (0..uris.len()).rev() {
        let uri = &uris[i];
        files.insert(uri.anchor, behind_last_slash(uri.uri.bytes()))?;
    }
    Ok(files)
}

/// The declared functions, by their anchors.
fn found_by_anchor<'a>(
    alloc: Global,
    files: &BTreeMap<u32, &'a [u8]>,
    functions: &'a [FunDecl],
) -> Result<BTreeMap<u32, Option<Found<'a>>>, NoMemory>
    ensures { IfOk result (IsFound files.now functions.now) }
{
    let mut found = BTreeMap::new(alloc);
    for i in (0..functions.len()).rev() {
        let function = &functions[i];
        found.insert(function.anchor, found_in(files, function))?;
    }
    Ok(found)
}

/// A declared function, if its file is declared.
fn found_in<'a>(files: &BTreeMap<u32, &'a [u8]>, function: &'a FunDecl) -> Option<Found<'a>>
    ensures { option_map found_seen result ≡ entry_from files.now function.now }
{
    match files.get(&function.uri) {
        Some(file) => Some(found_as(*file, function.name.bytes())),
        None => None,
    }
}

/// A function of a file under this declared name.
fn found_as<'a>(file: &'a [u8], declared: &'a [u8]) -> Found<'a>
    ensures { found_seen result ≡ entry_of file.now declared.now }
{
    let name = before_colon(declared);
    Found {
        named: Named {
            file,
            name,
            declared,
        },
        is_scalar: has_name_bytes(file, name, Class::Scalar),
        is_aggregate: has_name_bytes(file, name, Class::Aggregate),
    }
}

/// What stands behind the last slash, or all where there is none.
fn behind_last_slash(bytes: &[u8]) -> &[u8]
    ensures { result.now ≡ after_last spec.is_slash bytes.now }
{
    for at in (0..bytes.len()).rev() {
        if bytes[at] == b'/' {
            return &bytes[at + 1..];
        }
    }
    bytes
}

/// What stands before the first colon, or all where there is none.
fn before_colon(bytes: &[u8]) -> &[u8]
    ensures { result.now ≡ before_first spec.is_colon bytes.now }
{
    for (at, byte) in bytes.iter().enumerate() {
        if *byte == b':' {
            return &bytes[..at];
        }
    }
    bytes
}

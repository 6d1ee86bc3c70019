// The files of functions and the functions that a plan declares (Substrait `SimpleExtensionURI` and
// `SimpleExtensionDeclaration`).
ghost use Rattle.std.specs.Prelude.{◌≡◌, IfOk};
ghost use Rattle.pb_wire.specs.Payloads.{fields_of};
ghost use Rattle.plan_scan.specs.Table.{HoldsMessage};
ghost use Rattle.plan_parts.specs.Words.{part, parts};
ghost use Rattle.plan_parts.specs.Parts.{uri_of, function_of, functions_of};

use plan_leaves::{FunDecl, Items, UriDecl};
use plan_scan::{Message, Shape, field};
use std::alloc::Global;
use sub_types::NoMemory;

/// The files of functions in a field of a message.
pub fn uris_at(
    alloc: Global,
    message: &Message<'_>,
    number: u32,
) -> Result<Items<UriDecl>, NoMemory>
    requires { HoldsMessage message.now.shape number Shape.ExtensionUri }
    ensures { IfOk result (λ uris. uris ≡ parts uri_of number (fields_of message.now.bytes)) }
{
    let mut uris = Vec::new(alloc);
    let mut left = message.children(number, Shape::ExtensionUri);
    while let Some(uri) = left.next() {
        uris.push(extension_uri(alloc, &uri)?)?;
    }
    Ok(Items::from_vec(uris))
}

fn extension_uri(alloc: Global, message: &Message<'_>) -> Result<UriDecl, NoMemory>
    ensures { IfOk result (λ uri. uri ≡ uri_of (fields_of message.now.bytes)) }
{
    Ok(UriDecl {
        anchor: message.uint32(field::extension_uri::EXTENSION_URI_ANCHOR),
        uri: message.byte_list(alloc, field::extension_uri::URI)?,
    })
}

/// The functions of the declarations in a field of a message. A declaration without one gives none.
pub fn functions_at(
    alloc: Global,
    message: &Message<'_>,
    number: u32,
) -> Result<Items<FunDecl>, NoMemory>
    requires { HoldsMessage message.now.shape number Shape.ExtensionDeclaration }
    ensures { IfOk result (λ functions. functions ≡ functions_of number (fields_of message.now.bytes)) }
{
    let mut functions = Vec::new(alloc);
    let mut left = message.children(number, Shape::ExtensionDeclaration);
    while let Some(declaration) = left.next() {
        if let Some(function) = function_at(alloc, &declaration)? {
            functions.push(function)?;
        }
    }
    Ok(Items::from_vec(functions))
}

fn function_at(alloc: Global, message: &Message<'_>) -> Result<Option<FunDecl>, NoMemory>
    requires { message.now.shape ≡ Shape.ExtensionDeclaration }
    ensures { IfOk result (λ function. function ≡ part function_of 3 (fields_of message.now.bytes)) }
{
    match message.merged(
        alloc,
        field::extension_declaration::EXTENSION_FUNCTION,
        Shape::ExtensionFunction,
    )? {
        None => Ok(None),
        Some(function) => Ok(Some(extension_function(alloc, &function.message())?)),
    }
}

fn extension_function(alloc: Global, message: &Message<'_>) -> Result<FunDecl, NoMemory>
    ensures { IfOk result (λ function. function ≡ function_of (fields_of message.now.bytes)) }
{
    Ok(FunDecl {
        uri: message.uint32(field::extension_function::EXTENSION_URI_REFERENCE),
        anchor: message.uint32(field::extension_function::FUNCTION_ANCHOR),
        name: message.byte_list(alloc, field::extension_function::NAME)?,
    })
}

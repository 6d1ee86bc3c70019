// The keys of functions: a name, a colon, and the short names of the arguments with underscores between them.
ghost use Rattle.std.specs.Prelude.{◌≡◌, ◌++◌, ◌∷◌, ℕ, List, false, map};
ghost use Rattle.std.specs.List.{join_with_byte};
ghost use Rattle.std.specs.Option.{option_map_or};
ghost use Rattle.std.specs.Str.{bytes_eq};
ghost use Rattle.func_table.specs.Kinds as spec;

use crate::kinds::short_name;
use sub_types::Kind;

/// Whether the bytes are the key of the function of this name at arguments of these kinds.
pub fn is_key_of_kinds(bytes: &[u8], name: &[u8], kinds: &[Kind]) -> bool
    ensures { result ≡ bytes_eq bytes.now (spec.key_of_kinds name.now kinds.now) }
{
    let Some(rest) = after(bytes, name) else {
        return false;
    };
    let Some(rest) = after(rest, b":") else {
        return false;
    };
    are_names(rest, kinds)
}

/// What stands behind a text with which the bytes begin.
fn after<'a>(bytes: &'a [u8], text: &[u8]) -> Option<&'a [u8]>
    ensures { (tail : List ℕ) → bytes_eq bytes.now (text.now ++ tail) ≡ option_map_or (λ rest. bytes_eq rest.now tail) result false }
{
    bytes.strip_prefix(text)
}

/// Whether the bytes are the short names of these kinds with underscores between them.
fn are_names(bytes: &[u8], kinds: &[Kind]) -> bool
    ensures { result ≡ bytes_eq bytes.now (join_with_byte 95 (map spec.short_name kinds.now)) }
{
    let Some((first, others)) = kinds.split_first() else {
        return bytes.is_empty();
    };
    let Some(mut rest) = after(bytes, short_name(*first).as_bytes()) else {
        return false;
    };
    for kind in others {
        let Some(left) = after_one_more(rest, *kind) else {
            return false;
        };
        rest = left;
    }
    rest.is_empty()
}

/// What stands behind an underscore and the short name of a kind.
fn after_one_more(bytes: &[u8], kind: Kind) -> Option<&[u8]>
    ensures { (tail : List ℕ) → bytes_eq bytes.now (95 ∷ (spec.short_name kind ++ tail)) ≡ option_map_or (λ rest. bytes_eq rest.now tail) result false }
{
    match bytes.split_first() {
        Some((b'_', rest)) => after(rest, short_name(kind).as_bytes()),
        _ => None,
    }
}
